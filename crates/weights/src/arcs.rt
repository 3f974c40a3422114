// The record that an arc is weighed from. It can hold nothing out of the ranges of a chart's arc row.
mod printing;
mod records;

ghost use Rattle.weights.specs.Ranges.{InRange};

// It is made by value and lies in no table, so its invariant holds wherever there is one.
#[derive(Clone, Copy, PartialEq, Eq, Debug)]
pub struct ArcRecord {
    minutes: u16,
    grade: u8,
    parts: u32,
    ghost ranges: { InRange minutes grade parts },
}
