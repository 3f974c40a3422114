// Reading on both sides of every limit, and the order of the questions.
use crate::files::{Header, LONGEST, ONE_ARC, Patch, SMALL, TOO_LONG, file_of};
use charts::Chart;
use charts::Refusal::{self, ArcRow, Limits, ShortFile, StateRow, Tables, Total};
use std::process::Abort;
use std::test::Fail;

// A name, the header, whose total is the file's length too, and what reading answers.
struct Case(&'static str, Header, Result<(), Refusal>);

// The same, with bytes to change in the file. Two sorts of rows, so that a case without such bytes stays on a line.
#[derive(Drop)]
struct Patched(&'static str, Header, &'static [Patch], Result<(), Refusal>);

static LENGTHS: [Patched; 12] = [
    Patched("no byte", [1, 1, 0, 12, 12, 0], &[], Err(ShortFile)),
    Patched("11 bytes", [1, 1, 0, 12, 12, 11], &[], Err(ShortFile)),
    Patched("12 bytes", [1, 1, 0, 12, 12, 12], &[], Err(Tables)),
    Patched("13 bytes", SMALL, &[], Ok(())),
    Patched("total one less", SMALL, &[(11, 12)], Err(Total)),
    Patched("total one more", SMALL, &[(11, 14)], Err(Total)),
    Patched("total 256 more", SMALL, &[(10, 1)], Err(Total)),
    Patched("8192 bytes", LONGEST, &[], Ok(())),
    Patched("8193 bytes", TOO_LONG, &[], Err(Total)),
    Patched("8192, total 8193", LONGEST, &[(11, 1)], Err(Total)),
    Patched("8193, total 8192", TOO_LONG, &[(11, 0)], Err(Total)),
    Patched("65535 bytes", [1, 1, 0, 12, 12, 65_535], &[], Err(Total)),
];

static LIMITS: [Case; 18] = [
    Case("no state", [0, 1, 0, 12, 12, 13], Err(Limits)),
    Case("1 state", [1, 1, 0, 12, 13, 13], Ok(())),
    Case("32 states", [32, 1, 0, 12, 44, 44], Ok(())),
    Case("33 states", [33, 1, 0, 12, 45, 45], Err(Limits)),
    Case("256 states", [256, 1, 0, 12, 268, 268], Err(Limits)),
    Case("257 states", [257, 1, 0, 12, 269, 269], Err(Limits)),
    Case("no letter", [1, 0, 0, 12, 13, 13], Err(Limits)),
    Case("1 letter", [1, 1, 0, 12, 13, 13], Ok(())),
    Case("15 letters", [1, 15, 0, 12, 13, 13], Ok(())),
    Case("16 letters", [1, 16, 0, 12, 13, 13], Err(Limits)),
    Case("256 letters", [1, 256, 0, 12, 13, 13], Err(Limits)),
    Case("257 letters", [1, 257, 0, 12, 13, 13], Err(Limits)),
    Case("no arc", [1, 1, 0, 12, 13, 13], Ok(())),
    Case("1 arc", [1, 1, 1, 12, 13, 25], Ok(())),
    Case("512 arcs", [1, 1, 512, 12, 13, 6157], Ok(())),
    Case("513 arcs", [1, 1, 513, 12, 13, 6169], Err(Limits)),
    Case("65535 arcs", [1, 1, 65_535, 12, 13, 25], Err(Limits)),
    Case("largest", [32, 15, 512, 12, 44, 6188], Ok(())),
];

// Two states are two bytes, one is one byte, and an arc is twelve; without an arc the arc table is empty.
static TABLES: [Case; 30] = [
    Case("states at 0", [2, 1, 0, 0, 14, 16], Err(Tables)),
    Case("states at 11", [2, 1, 0, 11, 14, 16], Err(Tables)),
    Case("states at 12", [2, 1, 0, 12, 14, 16], Ok(())),
    Case("states to the end", [2, 1, 0, 14, 12, 16], Ok(())),
    Case("states past the end", [2, 1, 0, 15, 12, 16], Err(Tables)),
    Case("states at 65535", [2, 1, 0, 65_535, 12, 16], Err(Tables)),
    Case("arcs at 0", [2, 1, 1, 24, 0, 26], Err(Tables)),
    Case("arcs at 11", [2, 1, 1, 24, 11, 26], Err(Tables)),
    Case("arcs at 12", [2, 1, 1, 25, 12, 27], Ok(())),
    Case("arcs to the end", [2, 1, 1, 12, 15, 27], Ok(())),
    Case("arcs past the end", [2, 1, 1, 12, 16, 27], Err(Tables)),
    Case("arcs at 65535", [2, 1, 1, 12, 65_535, 27], Err(Tables)),
    Case("states, then arcs", [2, 1, 1, 12, 14, 26], Ok(())),
    Case("arcs, then states", [2, 1, 1, 24, 12, 26], Ok(())),
    Case("last state shared", [2, 1, 1, 12, 13, 26], Err(Tables)),
    Case("first state shared", [2, 1, 1, 23, 12, 26], Err(Tables)),
    Case("at one place", [2, 1, 1, 12, 12, 26], Err(Tables)),
    Case("states within arcs", [2, 1, 1, 16, 12, 26], Err(Tables)),
    Case("arcs within states", [32, 1, 1, 12, 20, 44], Err(Tables)),
    Case("one at first byte", [1, 1, 1, 12, 12, 25], Err(Tables)),
    Case("one at last byte", [1, 1, 1, 23, 12, 25], Err(Tables)),
    Case("one behind it", [1, 1, 1, 24, 12, 25], Ok(())),
    Case("empty at an odd place", [2, 1, 0, 12, 15, 16], Ok(())),
    Case("empty at 12", [2, 1, 0, 12, 12, 16], Ok(())),
    Case("empty at the total", [2, 1, 0, 12, 16, 16], Ok(())),
    Case("empty within states", [2, 1, 0, 12, 13, 16], Ok(())),
    Case("empty past the total", [2, 1, 0, 12, 17, 16], Err(Tables)),
    Case("empty at 11", [2, 1, 0, 12, 11, 16], Err(Tables)),
    Case("empty at 0", [2, 1, 0, 12, 0, 16], Err(Tables)),
    Case("empty at 65535", [2, 1, 0, 12, 65_535, 16], Err(Tables)),
];

const THREE_STATES: Header = [3, 1, 0, 12, 15, 16];

const ALL_STATES: Header = [32, 1, 0, 12, 44, 44];

static STATE_ROWS: [Patched; 9] = [
    Patched("row 3", THREE_STATES, &[(14, 3)], Ok(())),
    Patched("row 4", THREE_STATES, &[(14, 4)], Err(StateRow(2))),
    Patched("row 128", THREE_STATES, &[(13, 128)], Err(StateRow(1))),
    Patched(
        "row 255 first",
        THREE_STATES,
        &[(12, 255)],
        Err(StateRow(0)),
    ),
    Patched(
        "two bad states",
        THREE_STATES,
        &[(13, 9), (14, 4)],
        Err(StateRow(1)),
    ),
    Patched("behind the rows", THREE_STATES, &[(15, 255)], Ok(())),
    Patched("31 is bad", ALL_STATES, &[(43, 4)], Err(StateRow(31))),
    Patched("31 is not", ALL_STATES, &[(43, 3)], Ok(())),
    Patched(
        "30 and 31",
        ALL_STATES,
        &[(42, 4), (43, 4)],
        Err(StateRow(30)),
    ),
];

// Their rows are at 15, 27 and 39.
const THREE_ARCS: Header = [3, 2, 3, 12, 15, 51];

// The row of arc 511 is at 6145.
const ALL_ARCS: Header = [1, 1, 512, 12, 13, 6157];

// The arc's row is at 44.
const ALL_NAMES: Header = [32, 15, 1, 12, 44, 56];

static ARC_ROWS: [Patched; 36] = [
    Patched("from 2", ONE_ARC, &[(15, 2)], Ok(())),
    Patched("from 3", ONE_ARC, &[(15, 3)], Err(ArcRow(0))),
    Patched("to 2", ONE_ARC, &[(16, 2)], Ok(())),
    Patched("to 3", ONE_ARC, &[(16, 3)], Err(ArcRow(0))),
    Patched("letter 2", ONE_ARC, &[(17, 2)], Ok(())),
    Patched("letter 3", ONE_ARC, &[(17, 3)], Err(ArcRow(0))),
    Patched("from 31", ALL_NAMES, &[(44, 31)], Ok(())),
    Patched("from 32", ALL_NAMES, &[(44, 32)], Err(ArcRow(0))),
    Patched("to 31", ALL_NAMES, &[(45, 31)], Ok(())),
    Patched("to 32", ALL_NAMES, &[(45, 32)], Err(ArcRow(0))),
    Patched("letter 15", ALL_NAMES, &[(46, 15)], Ok(())),
    Patched("letter 16", ALL_NAMES, &[(46, 16)], Err(ArcRow(0))),
    Patched("blank 1", ONE_ARC, &[(18, 1)], Err(ArcRow(0))),
    Patched("blank 128", ONE_ARC, &[(18, 128)], Err(ArcRow(0))),
    Patched("minutes 255", ONE_ARC, &[(20, 255)], Ok(())),
    Patched("minutes 60000", ONE_ARC, &[(19, 0xea), (20, 0x60)], Ok(())),
    Patched(
        "minutes 60001",
        ONE_ARC,
        &[(19, 0xea), (20, 0x61)],
        Err(ArcRow(0)),
    ),
    Patched(
        "minutes 65535",
        ONE_ARC,
        &[(19, 255), (20, 255)],
        Err(ArcRow(0)),
    ),
    Patched("grade 0", ONE_ARC, &[(22, 0)], Err(ArcRow(0))),
    Patched("grade 1", ONE_ARC, &[(22, 1)], Ok(())),
    Patched("grade 100", ONE_ARC, &[(22, 100)], Ok(())),
    Patched("grade 101", ONE_ARC, &[(22, 101)], Err(ArcRow(0))),
    Patched("grade 256", ONE_ARC, &[(21, 1), (22, 0)], Err(ArcRow(0))),
    Patched("grade 257", ONE_ARC, &[(21, 1), (22, 1)], Err(ArcRow(0))),
    Patched("parts 0000_00ff", ONE_ARC, &[(26, 255)], Ok(())),
    Patched("parts 7f00_0000", ONE_ARC, &[(23, 0x7f)], Ok(())),
    Patched(
        "parts 7fff_ffff",
        ONE_ARC,
        &[(23, 0x7f), (24, 255), (25, 255), (26, 255)],
        Ok(()),
    ),
    Patched("parts 8000_0000", ONE_ARC, &[(23, 0x80)], Err(ArcRow(0))),
    Patched(
        "arc 1 and arc 2",
        THREE_ARCS,
        &[(30, 1), (42, 1)],
        Err(ArcRow(1)),
    ),
    Patched("arc 2 alone", THREE_ARCS, &[(42, 1)], Err(ArcRow(2))),
    Patched("arc 255", ALL_ARCS, &[(3076, 1)], Err(ArcRow(255))),
    Patched("arc 256", ALL_ARCS, &[(3088, 1)], Err(ArcRow(256))),
    Patched("arc 511", ALL_ARCS, &[(6148, 1)], Err(ArcRow(511))),
    Patched("arc 511 is good", ALL_ARCS, &[(6149, 1)], Ok(())),
    Patched("last part of 511", ALL_ARCS, &[(6156, 1)], Ok(())),
    Patched(
        "510 and 511",
        ALL_ARCS,
        &[(6136, 1), (6148, 1)],
        Err(ArcRow(510)),
    ),
];

// Of two questions that fail the earlier decides.
static HEADER_ORDER: [Case; 5] = [
    Case("1 before 3", [0, 0, 513, 12, 12, 11], Err(ShortFile)),
    Case("2 before 3, too long", [0, 1, 0, 12, 12, 8193], Err(Total)),
    Case("3 before 4, no state", [0, 1, 0, 0, 0, 12], Err(Limits)),
    Case("3 before 4, letters", [1, 16, 0, 11, 12, 13], Err(Limits)),
    Case("3 before 4, arcs", [1, 1, 513, 12, 13, 14], Err(Limits)),
];

static ORDER: [Patched; 8] = [
    Patched(
        "1 before 2",
        [1, 1, 0, 12, 12, 11],
        &[(10, 9)],
        Err(ShortFile),
    ),
    Patched("2 before 3", [0, 1, 0, 12, 12, 13], &[(11, 14)], Err(Total)),
    Patched("2 before 4", [1, 1, 0, 11, 12, 13], &[(11, 12)], Err(Total)),
    Patched(
        "3 before 5",
        [1, 16, 0, 12, 13, 13],
        &[(12, 4)],
        Err(Limits),
    ),
    Patched("4 before 5", [2, 1, 1, 12, 13, 26], &[(12, 4)], Err(Tables)),
    Patched("4 before 6", [2, 1, 1, 12, 13, 26], &[(16, 1)], Err(Tables)),
    Patched("5 before 6", ONE_ARC, &[(14, 4), (18, 1)], Err(StateRow(2))),
    Patched(
        "5 before 6, arcs first",
        [3, 2, 1, 24, 12, 27],
        &[(15, 1), (26, 4)],
        Err(StateRow(2)),
    ),
];

// Bytes between the header, the tables and the end may be anything.
static IGNORED: [Patched; 2] = [
    Patched(
        "states first",
        [2, 1, 1, 13, 16, 29],
        &[(12, 255), (15, 255), (28, 255)],
        Ok(()),
    ),
    Patched(
        "arcs first",
        [2, 1, 1, 26, 13, 29],
        &[(12, 255), (25, 255), (28, 255)],
        Ok(()),
    ),
];

fn check_patched(rt: &(impl Abort + AllocGlobal), case: &Patched) -> Result<(), Fail> {
    let Patched(name, header, patches, expected) = *case;
    let [_, _, _, _, _, total] = header;
    let file = file_of(rt, name, header, usize::from(total), patches)?;
    let answer = Chart::read(file.as_slice()).map(|_| ());
    assert_eq!(rt; answer, expected, "{name}");
    Ok(())
}

fn check_files(rt: &(impl Abort + AllocGlobal), cases: &[Patched]) -> Result<(), Fail> {
    cases.iter().try_for_each(|case| check_patched(rt, case))
}

fn check_headers(rt: &(impl Abort + AllocGlobal), cases: &[Case]) -> Result<(), Fail> {
    cases.iter().try_for_each(|case| {
        let Case(name, header, expected) = *case;
        check_patched(rt, &Patched(name, header, &[], expected))
    })
}

#[test]
fn header_questions(rt: HostRuntime) -> Result<(), Fail> {
    check_files(&rt, &LENGTHS)?;
    check_headers(&rt, &LIMITS)?;
    check_headers(&rt, &TABLES)
}

#[test]
fn row_questions(rt: HostRuntime) -> Result<(), Fail> {
    check_files(&rt, &STATE_ROWS)?;
    check_files(&rt, &ARC_ROWS)?;
    check_files(&rt, &IGNORED)
}

#[test]
fn first_question_decides(rt: HostRuntime) -> Result<(), Fail> {
    check_headers(&rt, &HEADER_ORDER)?;
    check_files(&rt, &ORDER)
}
