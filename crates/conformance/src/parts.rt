// The parts of a machine, for letters and states that it has and for those that it has not.
use machines::Machine;
use std::test::Fail;
use weights::count::Count;

// Two states and two letters: starts, ends, and the blocks of 1 and of 2.
static TABLE: [Count; 12] = [
    Count(0),
    Count(1),
    Count(2),
    Count(3),
    Count(4),
    Count(5),
    Count(6),
    Count(7),
    Count(8),
    Count(9),
    Count(10),
    Count(11),
];

// A letter, its block, and the rows of its states from 0 to 2.
struct Case(&'static str, u8, &'static [Count], [&'static [Count]; 3]);

static CASES: [Case; 5] = [
    Case("no letter", 0, &[], [&[], &[], &[]]),
    Case(
        "1",
        1,
        FIRST,
        [&[Count(4), Count(5)], &[Count(6), Count(7)], &[]],
    ),
    Case(
        "2",
        2,
        SECOND,
        [&[Count(8), Count(9)], &[Count(10), Count(11)], &[]],
    ),
    Case("3", 3, &[], [&[], &[], &[]]),
    Case("255", 255, &[], [&[], &[], &[]]),
];

const STARTS: &[Count] = &[Count(0), Count(1)];

const ENDS: &[Count] = &[Count(2), Count(3)];

const FIRST: &[Count] = &[Count(4), Count(5), Count(6), Count(7)];

const SECOND: &[Count] = &[Count(8), Count(9), Count(10), Count(11)];

#[test]
fn machine_parts(rt: HostRuntime) -> Result<(), Fail> {
    let machine = Machine::new(2, 2, &TABLE)?;
    assert_eq!(rt; machine.starts(), STARTS);
    assert_eq!(rt; machine.ends(), ENDS);
    for case in &CASES {
        let Case(name, letter, block, rows) = *case;
        assert_eq!(rt; machine.block(letter), block, "{name}");
        for (state, row) in rows.into_iter().enumerate() {
            assert_eq!(rt; machine.row(letter, state), row, "{name}, from {state}");
        }
    }
    Ok(())
}
