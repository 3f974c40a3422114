// Clearing a chart with memory that suffices, and with less.
use crate::files::SAMPLE;
use crate::memory::Filled;
use charts::Chart;
use charts::Refusal::{self, Memory};
use machines::clearing::clear;
use std::process::Abort;
use std::test::Fail;
use weights::count::Count;

// How long the silent table, the scratch and the machine's table are, and the answer.
struct Call(&'static str, usize, usize, usize, Result<(), Refusal>);

// Three states and two letters want 9, 9 and 24 weights.
static CALLS: [Call; 6] = [
    Call("enough", 9, 9, 24, Ok(())),
    Call("more", 10, 12, 29, Ok(())),
    Call("silent one short", 8, 9, 24, Err(Memory)),
    Call("scratch one short", 9, 8, 24, Err(Memory)),
    Call("table one short", 9, 9, 23, Err(Memory)),
    Call("nothing", 0, 0, 0, Err(Memory)),
];

fn check_call(rt: &(impl Abort + AllocGlobal), chart: &Chart, call: &Call) -> Result<(), Fail> {
    let Call(name, silent_length, scratch_length, table_length, expected) = *call;
    let mut silent = Filled::new(rt, Count(7), silent_length)?;
    let mut scratch = Filled::new(rt, Count(8), scratch_length)?;
    let mut table = Filled::new(rt, Count(9), table_length)?;
    let answer = clear(
        chart,
        silent.weights.as_mut_slice(),
        scratch.weights.as_mut_slice(),
        table.weights.as_mut_slice(),
    );
    assert_eq!(rt; answer, expected, "{name}");
    silent.check_rest(rt, name, answer, 9);
    scratch.check_rest(rt, name, answer, 9);
    table.check_rest(rt, name, answer, 24);
    Ok(())
}

#[test]
fn clearing_limits(rt: HostRuntime) -> Result<(), Fail> {
    let chart = Chart::read(SAMPLE)?;
    CALLS
        .iter()
        .try_for_each(|call| check_call(&rt, &chart, call))
}
