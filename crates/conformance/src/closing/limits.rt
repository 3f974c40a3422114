// Closing a table on both sides of every limit.
use crate::memory::Filled;
use charts::Refusal::{self, Limits, Memory};
use machines::closure::close_table;
use std::process::Abort;
use std::test::Fail;
use weights::count::Count;

// How many states, how long the table and the scratch are, and the answer.
struct Call(&'static str, usize, usize, usize, Result<(), Refusal>);

static CALLS: [Call; 13] = [
    Call("no state", 0, 0, 0, Err(Limits)),
    Call("1 state", 1, 1, 1, Ok(())),
    Call("1 state, no table", 1, 0, 1, Err(Memory)),
    Call("1 state, no scratch", 1, 1, 0, Err(Memory)),
    Call("3 states", 3, 9, 9, Ok(())),
    Call("3 states, table one short", 3, 8, 9, Err(Memory)),
    Call("3 states, scratch one short", 3, 9, 8, Err(Memory)),
    Call("3 states and more", 3, 10, 13, Ok(())),
    Call("64 states", 64, 4096, 4096, Ok(())),
    Call("64 states, table one short", 64, 4095, 4096, Err(Memory)),
    Call("64 states, scratch one short", 64, 4096, 4095, Err(Memory)),
    Call("65 states", 65, 4225, 4225, Err(Limits)),
    Call("most states, no table", usize::MAX, 0, 0, Err(Limits)),
];

fn check_call(rt: &(impl Abort + AllocGlobal), call: &Call) -> Result<(), Fail> {
    let Call(name, states, table_length, scratch_length, expected) = *call;
    let mut table = Filled::new(rt, Count(7), table_length)?;
    let mut scratch = Filled::new(rt, Count(9), scratch_length)?;
    let answer = close_table(
        states,
        table.weights.as_mut_slice(),
        scratch.weights.as_mut_slice(),
    );
    assert_eq!(rt; answer, expected, "{name}");
    let places = states.saturating_mul(states);
    table.check_rest(rt, name, answer, places);
    scratch.check_rest(rt, name, answer, places);
    Ok(())
}

#[test]
fn closing_limits(rt: HostRuntime) -> Result<(), Fail> {
    CALLS.iter().try_for_each(|call| check_call(&rt, call))
}
