// An arc of a chart.
mod in_order;
mod printing;

pub use in_order::Arcs;
use std::num::NonZeroU8;
use weights::arcs::ArcRecord;

// An arc leads from one state to another, spells a letter or is silent, and is weighed from its record.
#[derive(Clone, Copy, PartialEq, Eq, Debug)]
pub struct Arc {
    pub from: u8,
    pub to: u8,
    pub letter: Option<NonZeroU8>,
    pub record: ArcRecord,
}
