// What is printed of a chart and of a refusal.
use crate::files::{EDGES, Header, ONE_ARC, Patch, SAMPLE, SMALL, TOO_LONG, file_of};
use charts::Refusal;
use reports::lines::refusal_line;
use reports::tables::chart_report;
use std::process::Abort;
use std::test::Fail;

const SAMPLE_TEXT: &str = "chart 3 states, 2 letters, 5 arcs
state 0 start
state 1
state 2 end
arc 0: 0 -> 1 letter 1, 10 minutes, grade 90, parts 00000001
arc 1: 1 -> 1 silent, 5 minutes, grade 50, parts 00000002
arc 2: 1 -> 2 letter 2, 20 minutes, grade 80, parts 00000004
arc 3: 0 -> 2 silent, 7 minutes, grade 60, parts 00000008
arc 4: 2 -> 0 silent, 3 minutes, grade 70, parts 00000010
";

const EDGES_TEXT: &str = "chart 2 states, 15 letters, 3 arcs
state 0 start end
state 1
arc 0: 1 -> 0 letter 15, 60000 minutes, grade 100, parts 7fffffff
arc 1: 1 -> 0 letter 15, 60000 minutes, grade 100, parts 7fffffff
arc 2: 0 -> 1 silent, 0 minutes, grade 1, parts 00000000
";

// A file and its report.
struct Report(&'static str, &'static [u8], &'static str);

static REPORTS: [Report; 2] = [
    Report("sample", SAMPLE, SAMPLE_TEXT),
    Report("edges", EDGES, EDGES_TEXT),
];

// A file's header and length, the bytes to change, and its report.
struct Refused(&'static str, Header, usize, &'static [Patch], &'static str);

// What is cut off behind 8193 bytes does not change the report, whatever the header says.
static REFUSED: [Refused; 10] = [
    Refused("no byte", SMALL, 0, &[], "refused 1 0\n"),
    Refused("no state", SMALL, 13, &[(1, 0)], "refused 3 0\n"),
    Refused("tables", SMALL, 13, &[(7, 13)], "refused 4 0\n"),
    Refused("state row", ONE_ARC, 27, &[(14, 4)], "refused 5 2\n"),
    Refused("arc row", ONE_ARC, 27, &[(18, 1)], "refused 6 0\n"),
    Refused("8193 bytes", TOO_LONG, 8193, &[], "refused 2 0\n"),
    Refused("more behind", TOO_LONG, 20_000, &[], "refused 2 0\n"),
    Refused("small total", SMALL, 8193, &[], "refused 2 0\n"),
    Refused("more than that", SMALL, 20_000, &[], "refused 2 0\n"),
    Refused("65549 bytes", SMALL, 65_549, &[], "refused 2 0\n"),
];

// A refusal and its line.
struct Line(&'static str, Refusal, &'static str);

static REFUSALS: [Line; 14] = [
    Line("short file", Refusal::ShortFile, "refused 1 0\n"),
    Line("total", Refusal::Total, "refused 2 0\n"),
    Line("limits", Refusal::Limits, "refused 3 0\n"),
    Line("tables", Refusal::Tables, "refused 4 0\n"),
    Line("state row", Refusal::StateRow(31), "refused 5 31\n"),
    Line("arc row", Refusal::ArcRow(511), "refused 6 511\n"),
    Line("memory", Refusal::Memory, "refused 7 0\n"),
    Line("letter counts", Refusal::LetterCounts, "refused 8 0\n"),
    Line("too many states", Refusal::TooManyStates, "refused 9 0\n"),
    Line("other shape", Refusal::OtherShape, "refused 10 0\n"),
    Line("no such letter", Refusal::NoSuchLetter(7), "refused 11 7\n"),
    Line("log full", Refusal::LogFull(u16::MAX), "refused 12 65535\n"),
    Line(
        "nothing to take back",
        Refusal::NothingToTakeBack,
        "refused 13 0\n",
    ),
    Line("no path", Refusal::NoPath, "refused 14 0\n"),
];

fn check_report(
    rt: &(impl Abort + AllocGlobal),
    name: &str,
    file: &[u8],
    text: &str,
) -> Result<(), Fail> {
    let report = chart_report(rt.alloc(), file)?;
    assert_eq!(rt; report.as_str(), text, "{name}");
    Ok(())
}

fn check_refused(rt: &(impl Abort + AllocGlobal), case: &Refused) -> Result<(), Fail> {
    let Refused(name, header, length, patches, text) = *case;
    let file = file_of(rt, name, header, length, patches)?;
    check_report(rt, name, file.as_slice(), text)
}

#[test]
fn chart_reports(rt: HostRuntime) -> Result<(), Fail> {
    for case in &REPORTS {
        let Report(name, file, text) = *case;
        check_report(&rt, name, file, text)?;
    }
    Ok(())
}

#[test]
fn refused_files(rt: HostRuntime) -> Result<(), Fail> {
    REFUSED.iter().try_for_each(|case| check_refused(&rt, case))
}

#[test]
fn refusal_lines(rt: HostRuntime) -> Result<(), Fail> {
    for case in &REFUSALS {
        let Line(name, refusal, text) = *case;
        let line = refusal_line(rt.alloc(), refusal)?;
        assert_eq!(rt; line.as_str(), text, "{name}");
    }
    Ok(())
}
