// Making and crossing machines on both sides of every limit, and the order of the questions.
use crate::memory::Filled;
use charts::Refusal::{self, LetterCounts, Limits, Memory, TooManyStates};
use crossing::cross;
use machines::Machine;
use std::process::Abort;
use std::test::Fail;
use weights::count::Count;

// States, letters and how long the table is, and the answer.
struct Made(&'static str, usize, u8, usize, Result<(), Refusal>);

static MADE: [Made; 11] = [
    Made("no state", 0, 1, 100, Err(Limits)),
    Made("1 state", 1, 1, 3, Ok(())),
    Made("1 state, one short", 1, 1, 2, Err(Memory)),
    Made("64 states", 64, 1, 4224, Ok(())),
    Made("65 states", 65, 1, 4355, Err(Limits)),
    Made("most states", usize::MAX, 1, 0, Err(Limits)),
    Made("no letter", 1, 0, 100, Err(Limits)),
    Made("15 letters", 3, 15, 141, Ok(())),
    Made("15 letters, one short", 3, 15, 140, Err(Memory)),
    Made("16 letters", 3, 16, 150, Err(Limits)),
    Made("255 letters", 1, 255, 257, Err(Limits)),
];

fn check_made(rt: &(impl Abort + AllocGlobal), made: &Made) -> Result<(), Fail> {
    let Made(name, states, letters, length, expected) = *made;
    let table = vec![in rt.alloc(); Count(1); length]?;
    let answer = Machine::new(states, letters, table.as_slice()).map(|_| ());
    assert_eq!(rt; answer, expected, "{name}");
    Ok(())
}

// States and letters of two machines, how many weights their crossing has, how long the table is, and the answer.
struct Call(
    &'static str,
    (usize, u8),
    (usize, u8),
    usize,
    usize,
    Result<(), Refusal>,
);

static CALLS: [Call; 12] = [
    Call("1 by 1", (1, 15), (1, 15), 17, 17, Ok(())),
    Call("2 by 2 and more", (2, 1), (2, 1), 24, 30, Ok(())),
    Call("2 by 2, one short", (2, 1), (2, 1), 24, 23, Err(Memory)),
    Call("8 by 8", (8, 1), (8, 1), 4224, 4224, Ok(())),
    Call("8 by 8, one short", (8, 1), (8, 1), 4224, 4223, Err(Memory)),
    Call("64 by 1", (64, 1), (1, 1), 4224, 4224, Ok(())),
    Call("1 by 64", (1, 1), (64, 1), 4224, 4224, Ok(())),
    Call("5 by 13", (5, 1), (13, 1), 4355, 4355, Err(TooManyStates)),
    Call(
        "64 by 64, no table",
        (64, 1),
        (64, 1),
        0,
        0,
        Err(TooManyStates),
    ),
    Call("2 letters and 1", (2, 2), (2, 1), 40, 40, Err(LetterCounts)),
    Call(
        "1 letter and 2, no table",
        (2, 1),
        (2, 2),
        24,
        0,
        Err(LetterCounts),
    ),
    Call(
        "letters, states, table",
        (64, 1),
        (64, 2),
        0,
        0,
        Err(LetterCounts),
    ),
];

fn check_call(rt: &(impl Abort + AllocGlobal), call: &Call) -> Result<(), Fail> {
    let Call(name, (one, one_letters), (other, other_letters), size, length, expected) = *call;
    // A machine may lie at the front of a table that is longer: these are enough for each.
    let ones = vec![in rt.alloc(); Count(1); 8320]?;
    let mut table = Filled::new(rt, Count(7), length)?;
    let first = Machine::new(one, one_letters, ones.as_slice()).expect(rt, name);
    let second = Machine::new(other, other_letters, ones.as_slice()).expect(rt, name);
    let answer = cross(&first, &second, table.weights.as_mut_slice());
    assert_eq!(rt; answer, expected, "{name}");
    table.check_rest(rt, name, answer, size);
    Ok(())
}

#[test]
fn crossing_limits(rt: HostRuntime) -> Result<(), Fail> {
    MADE.iter().try_for_each(|made| check_made(&rt, made))?;
    CALLS.iter().try_for_each(|call| check_call(&rt, call))
}
