// Machines: automata without silent arcs. A chart's silent arcs are closed and cleared away.
#![tactic(auto)]

pub mod clearing;
pub mod closure;
pub mod machine;
mod matrix;
mod vectors;

pub use machine::Machine;
