// Clearing a chart: the machine tells of a log what the paths of the chart do.
mod limits;

use crate::files::{EDGES, RING, SAMPLE};
use crate::named::Named;
use crate::two_totals::TwoTotals;
use charts::Chart;
use machines::Machine;
use machines::clearing::clear;
use std::process::Abort;
use std::test::Fail;
use weights::Weight;
use weights::count::Count;
use weights::grade::Grade;
use weights::minutes::Minutes;
use weights::parts::Parts;
use weights::possible::Possible;

// A log of a chart, and the name of its case.
#[derive(Drop)]
struct Question<'a> {
    name: &'a str,
    chart: &'a Chart,
    log: &'a [u8],
}

// The table of a chart's machine, which has three states and 64 weights at most.
fn cleared<K: Named>(rt: &(impl Abort + AllocGlobal), question: &Question) -> Result<Vec<K>, Fail> {
    let kind = K::NAME;
    let Question { name, chart, .. } = *question;
    let mut silent = vec![in rt.alloc(); K::ZERO; 9]?;
    let mut scratch = vec![in rt.alloc(); K::ZERO; 9]?;
    let mut table = vec![in rt.alloc(); K::ZERO; 64]?;
    let answer = clear(
        chart,
        silent.as_mut_slice(),
        scratch.as_mut_slice(),
        table.as_mut_slice(),
    );
    assert_eq!(rt; answer, Ok(()), "{kind}, {name}");
    Ok(table)
}

// What the machine tells from a state on: the block of each letter, and then the ends; `walked` is the weight before.
fn told<K: Weight>(machine: &Machine<K>, walked: K, here: usize, log: &[u8]) -> K {
    let Some((letter, left)) = log.split_first() else {
        let end = machine.ends().get(here).copied().unwrap_or(K::ZERO);
        return walked.times(end);
    };
    let mut total = K::ZERO;
    for (next, step) in machine.row(*letter, here).iter().enumerate() {
        let walked = walked.times(*step);
        total = total.plus(told(machine, walked, next, left));
    }
    total
}

// A log, and what the sample chart tells of it in each of the five kinds.
struct Answer(&'static str, &'static [u8], u32, u8, bool, u32, u16);

const NEVER: u32 = 4_294_967_295;

static ANSWERS: [Answer; 4] = [
    Answer("no letter", &[], 7, 60, true, 8, 65_535),
    Answer("1 2", &[1, 2], 30, 80, true, 5, 65_535),
    Answer("2", &[2], NEVER, 0, false, 0xffff_ffff, 0),
    Answer("1 2 1 2", &[1, 2, 1, 2], 63, 70, true, 21, 65_535),
];

fn check_told<K: Named>(
    rt: &(impl Abort + AllocGlobal),
    question: &Question,
    expected: K,
) -> Result<(), Fail> {
    let kind = K::NAME;
    let Question { name, chart, log } = *question;
    let table = cleared::<K>(rt, question)?;
    let machine = Machine::new(chart.states(), chart.letters(), table.as_slice()).expect(rt, name);
    let starts = machine.starts().iter().enumerate();
    let total = starts.fold(K::ZERO, |total, (state, start)| {
        total.plus(told(&machine, *start, state, log))
    });
    assert!(rt; total.same(expected), "{kind}, {name}");
    Ok(())
}

#[test]
fn sample_is_told(rt: HostRuntime) -> Result<(), Fail> {
    let chart = &Chart::read(SAMPLE)?;
    for answer in &ANSWERS {
        let Answer(name, log, minutes, grade, possible, parts, count) = *answer;
        let question = Question { name, chart, log };
        check_told(&rt, &question, Minutes(minutes))?;
        check_told(&rt, &question, Grade(grade))?;
        check_told(&rt, &question, Possible(possible))?;
        check_told(&rt, &question, Parts(parts))?;
        check_told(&rt, &question, Count(count))?;
    }
    Ok(())
}

// The join of the weights of all paths that go on from a state in at most so many arcs, spell the log and end; `walked`
// is the weight of the arcs before.
fn list_paths<K: Weight>(chart: &Chart, walked: K, here: usize, log: &[u8], arcs: u8) -> K {
    let mut total = if log.is_empty() && chart.is_end(here) {
        walked
    } else {
        K::ZERO
    };
    if arcs == 0 {
        return total;
    }
    let arcs_from_here = chart
        .arcs_in_order()
        .filter(|arc| usize::from(arc.from) == here);
    for arc in arcs_from_here {
        // A silent arc leaves the whole log, and one with a letter has to spell the first.
        let left = match (arc.letter, log.split_first()) {
            (None, _) => log,
            (Some(letter), Some((first, left))) if letter.get() == *first => left,
            _ => continue,
        };
        let walked = walked.times(K::of_arc(arc.record));
        let longer = list_paths(chart, walked, usize::from(arc.to), left, arcs - 1);
        total = total.plus(longer);
    }
    total
}

// A chart, and logs of it.
struct Listed(&'static str, &'static [u8], &'static [&'static [u8]]);

// The first has no silent ring, and in the others each silent ring has a marked arc.
static LISTED: [Listed; 3] = [
    Listed("edges", EDGES, &[&[], &[15], &[15, 15], &[1]]),
    Listed("sample", SAMPLE, &[&[], &[1], &[2], &[1, 2], &[2, 1]]),
    Listed("ring", RING, &[&[], &[1], &[1, 1]]),
];

// From each state on, the machine tells what the paths do.
fn check_states<K: Named>(
    rt: &(impl Abort + AllocGlobal),
    question: &Question,
) -> Result<(), Fail> {
    let kind = K::NAME;
    let Question { name, chart, log } = *question;
    let table = cleared::<K>(rt, question)?;
    let machine = Machine::new(chart.states(), chart.letters(), table.as_slice()).expect(rt, name);
    for state in 0..chart.states() {
        let weight = told(&machine, K::ONE, state, log);
        // Longer paths change nothing.
        let paths = list_paths(chart, K::ONE, state, log, 10);
        assert!(rt; weight.same(paths), "{kind}, {name}, from state {state}");
    }
    Ok(())
}

fn check_logs<'a, K: Named>(
    rt: &(impl Abort + AllocGlobal),
    name: &'a str,
    chart: &'a Chart,
    logs: &'a [&'a [u8]],
) -> Result<(), Fail> {
    for log in logs {
        check_states::<K>(rt, &Question { name, chart, log })?;
    }
    Ok(())
}

fn check_listed<K: Named>(rt: &(impl Abort + AllocGlobal), cases: &[Listed]) -> Result<(), Fail> {
    for case in cases {
        let Listed(name, file, logs) = *case;
        let chart = Chart::read(file).expect(rt, name);
        check_logs::<K>(rt, name, &chart, logs)?;
    }
    Ok(())
}

// In counts only the first settles soon.
#[test]
fn tells_like_the_paths(rt: HostRuntime) -> Result<(), Fail> {
    check_listed::<Minutes>(&rt, &LISTED)?;
    check_listed::<Grade>(&rt, &LISTED)?;
    check_listed::<Possible>(&rt, &LISTED)?;
    check_listed::<Parts>(&rt, &LISTED)?;
    check_listed::<TwoTotals>(&rt, &LISTED)?;
    check_listed::<Count>(&rt, &LISTED[0..1])
}
