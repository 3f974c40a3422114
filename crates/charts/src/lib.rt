// Fault charts: a chart is read from a file's bytes, or refused with a number and a place.
#![tactic(auto)]

pub mod arcs;
pub mod reading;
pub mod refusals;

pub use arcs::{Arc, Arcs};
pub use reading::{Chart, LentChart};
pub use refusals::Refusal;
