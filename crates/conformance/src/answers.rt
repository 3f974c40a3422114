// What a chart answers, for numbers that it has and for numbers that it has not.
use crate::files::{EDGES, SAMPLE};
use charts::{Arc, Chart, LentChart};
use std::num::NonZeroU8;
use std::process::Abort;

// A file, how many states, letters and arcs its chart has, and what it answers of single numbers.
struct Answers {
    name: &'static str,
    file: &'static [u8],
    counts: (usize, u8, usize),
    rows: &'static [Row],
}

// An arc in plain numbers: its ends, its letter, where 0 is silent so that a case stays on a line, its minutes, its grade and
// its parts.
#[derive(Clone, Copy, PartialEq, Debug)]
struct Plain(u8, u8, u8, u16, u8, u32);

// A number, whether the state of it is a start and an end, and the arc of it.
struct Row(&'static str, usize, bool, bool, Option<Plain>);

static CHARTS: [Answers; 2] = [
    Answers {
        name: "sample",
        file: SAMPLE,
        counts: (3, 2, 5),
        rows: &[
            Row("number 0", 0, true, false, Some(Plain(0, 1, 1, 10, 90, 1))),
            Row("number 1", 1, false, false, Some(Plain(1, 1, 0, 5, 50, 2))),
            Row("number 2", 2, false, true, Some(Plain(1, 2, 2, 20, 80, 4))),
            Row("number 3", 3, false, false, Some(Plain(0, 2, 0, 7, 60, 8))),
            Row("number 4", 4, false, false, Some(Plain(2, 0, 0, 3, 70, 16))),
            Row("number 5", 5, false, false, None),
            Row("number 256", 256, false, false, None),
            Row("largest number", usize::MAX, false, false, None),
        ],
    },
    Answers {
        name: "edges",
        file: EDGES,
        counts: (2, 15, 3),
        rows: &[
            Row("number 0", 0, true, true, Some(HIGHEST)),
            Row("number 1, the same arc", 1, false, false, Some(HIGHEST)),
            Row("number 2", 2, false, false, Some(Plain(0, 1, 0, 0, 1, 0))),
            Row("number 3", 3, false, false, None),
        ],
    },
];

const HIGHEST: Plain = Plain(1, 0, 15, 60_000, 100, 0x7fff_ffff);

impl From<Arc> for Plain {
    fn from(arc: Arc) -> Plain {
        let record = arc.record;
        Plain(
            arc.from,
            arc.to,
            arc.letter.map_or(0, NonZeroU8::get),
            record.minutes(),
            record.grade(),
            record.parts(),
        )
    }
}

fn check_rows(rt: &impl Abort, chart: &Chart, rows: &[Row], chart_name: &str) {
    for row in rows {
        let Row(name, number, start, end, arc) = *row;
        let answers = (
            chart.is_start(number),
            chart.is_end(number),
            chart.arc(number).map(Plain::from),
        );
        assert_eq!(rt; answers, (start, end, arc), "{chart_name}: {name}");
    }
}

fn check_answers(rt: &impl Abort, answers: &Answers) {
    let name = answers.name;
    let chart = Chart::read(answers.file).expect(rt, name);
    let counts = (chart.states(), chart.letters(), chart.arcs());
    assert_eq!(rt; counts, answers.counts, "{name}");
    check_rows(rt, &chart, answers.rows, name);
    // The arcs one after another are those of the numbers, and there are no more.
    for (number, arc) in chart.arcs_in_order().enumerate() {
        assert_eq!(rt; chart.arc(number), Some(arc), "{name}: arc {number}");
    }
    assert_eq!(rt;
        chart.arcs_in_order().count(),
        chart.arcs(),
        "{name}: arcs in order"
    );
    // The same chart as its file lends it.
    let lent = LentChart::read(answers.file).expect(rt, name);
    assert!(rt;
        lent.arcs_in_order().eq(chart.arcs_in_order()),
        "{name}: lent arcs"
    );
    check_rows(rt, &lent.keep(), answers.rows, name);
}

#[test]
fn chart_answers(rt: HostRuntime) {
    for answers in &CHARTS {
        check_answers(&rt, answers);
    }
}
