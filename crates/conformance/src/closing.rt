// Closing a table, against a list of its walks.
mod limits;

use crate::named::Named;
use crate::two_totals::TwoTotals;
use machines::closure::close_table;
use std::process::Abort;
use std::test::Fail;
use weights::Weight;
use weights::arcs::ArcRecord;
use weights::count::Count;
use weights::grade::Grade;
use weights::minutes::Minutes;
use weights::parts::Parts;
use weights::possible::Possible;

// From, to, minutes, grade, parts, and how many steps there are of this sort.
struct Step(usize, usize, u16, u16, u32, u16);

// So many states, and the steps between them.
struct Case(&'static str, usize, &'static [Step]);

// The first four have no ring, or rings of so many steps that there is soon no more to count. In the next three each
// ring has a marked step, which is one with a part. In the last two there is a ring without.
static CASES: [Case; 9] = [
    Case("no step", 2, &[]),
    Case(
        "two sorts of steps",
        2,
        &[Step(1, 0, 7, 40, 3, 2), Step(1, 0, 4, 20, 6, 1)],
    ),
    Case(
        "by way of the first state",
        3,
        &[
            Step(1, 0, 3, 80, 1, 1),
            Step(0, 2, 4, 50, 4, 1),
            Step(1, 2, 9, 30, 5, 1),
        ],
    ),
    Case(
        "rings of many steps",
        3,
        &[
            Step(0, 0, 5, 50, 0, 300),
            Step(0, 1, 6, 60, 0, 2),
            Step(1, 2, 7, 70, 0, 300),
            Step(2, 1, 8, 80, 0, 400),
        ],
    ),
    Case(
        "ring between",
        3,
        &[
            Step(1, 0, 3, 80, 0, 1),
            Step(0, 0, 5, 50, 2, 1),
            Step(0, 2, 4, 90, 0, 1),
        ],
    ),
    Case(
        "rings at both states",
        2,
        &[
            Step(0, 0, 5, 50, 2, 1),
            Step(1, 1, 6, 60, 4, 3),
            Step(0, 1, 7, 70, 0, 1),
        ],
    ),
    Case(
        "rings of two and of three",
        3,
        &[
            Step(0, 1, 1, 90, 0, 1),
            Step(1, 2, 2, 80, 0, 1),
            Step(2, 0, 3, 70, 1, 1),
            Step(2, 1, 0, 100, 8, 1),
        ],
    ),
    Case(
        "ring of nothing",
        2,
        &[Step(0, 1, 0, 100, 0, 1), Step(1, 0, 0, 100, 0, 1)],
    ),
    Case(
        "steps between all states",
        3,
        &[
            Step(0, 0, 1, 30, 1, 1),
            Step(0, 1, 9, 20, 3, 1),
            Step(0, 2, 2, 60, 6, 1),
            Step(1, 0, 8, 70, 4, 1),
            Step(1, 1, 3, 50, 5, 1),
            Step(1, 2, 7, 10, 0, 1),
            Step(2, 0, 60_000, 1, 7, 1),
            Step(2, 1, 4, 40, 2, 1),
            Step(2, 2, 6, 80, 9, 1),
        ],
    ),
];

// The weights of the steps from each of so many states to each, row by row.
#[derive(Drop)]
struct Table<K> {
    states: usize,
    weights: Vec<K>,
}

fn table_of<K: Weight>(rt: &(impl Abort + AllocGlobal), case: &Case) -> Result<Table<K>, Fail> {
    let Case(name, states, steps) = *case;
    let mut weights = vec![in rt.alloc(); K::ZERO; states.saturating_mul(states)]?;
    for step in steps {
        let Step(from, to, minutes, grade, parts, times) = *step;
        let weight = K::of_arc(ArcRecord::new(minutes, grade, parts).expect(rt, name));
        let mut rows = weights.chunks_exact_mut(states.max(1));
        let row = rows.nth(from).expect(rt, name);
        let entry = row.get_mut(to).expect(rt, name);
        *entry = (0..times).fold(*entry, |total, _| total.plus(weight));
    }
    Ok(Table { states, weights })
}

// The join of the weights of all walks that go on in at most so many steps; `walked` is the weight of the steps before.
fn list_walks<K: Weight>(table: &Table<K>, walked: K, here: usize, to: usize, steps: u8) -> K {
    let mut total = if here == to { walked } else { K::ZERO };
    if steps == 0 {
        return total;
    }
    let mut rows = table.weights.chunks_exact(table.states.max(1));
    let row = rows.nth(here).unwrap_or(&[]);
    for (next, step) in row.iter().enumerate() {
        let longer = list_walks(table, walked.times(*step), next, to, steps - 1);
        total = total.plus(longer);
    }
    total
}

fn check_case<K: Named>(rt: &(impl Abort + AllocGlobal), case: &Case) -> Result<(), Fail> {
    let kind = K::NAME;
    let Case(name, states, _) = *case;
    let table = table_of::<K>(rt, case)?;
    let mut closed = table.weights.clone()?;
    let mut scratch = table.weights.clone()?;
    let answer = close_table(states, closed.as_mut_slice(), scratch.as_mut_slice());
    assert_eq!(rt; answer, Ok(()), "{kind}, {name}");
    assert!(rt; states > 0, "{kind}, {name}");
    for (place, entry) in closed.iter().enumerate() {
        // Longer walks change nothing in any of the tables.
        let walks = list_walks(&table, K::ONE, place / states, place % states, 5);
        assert!(rt; entry.same(walks), "{kind}, {name}, at {place}");
    }
    Ok(())
}

fn check_cases<K: Named>(rt: &(impl Abort + AllocGlobal), cases: &[Case]) -> Result<(), Fail> {
    cases.iter().try_for_each(|case| check_case::<K>(rt, case))
}

// In the first four kinds a ring changes nothing.
#[test]
fn closes_like_the_walks(rt: HostRuntime) -> Result<(), Fail> {
    check_cases::<Minutes>(&rt, &CASES)?;
    check_cases::<Grade>(&rt, &CASES)?;
    check_cases::<Possible>(&rt, &CASES)?;
    check_cases::<Parts>(&rt, &CASES)?;
    check_cases::<TwoTotals>(&rt, &CASES[0..7])?;
    check_cases::<Count>(&rt, &CASES[0..4])
}

// From 1 by way of 0, which has a marked ring, to 2: there is one way past the ring, and one way round it. A closing
// that puts the pivot's new row in place first, and goes on with that one, chains the ring's loop twice, and finds two.
#[test]
fn closes_from_the_old_row(rt: HostRuntime) {
    let mut table = [<TwoTotals as Weight>::ZERO; 9];
    table[0].marked = Count(1);
    table[2].plain = Count(1);
    table[3].plain = Count(1);
    let mut scratch = table;
    let answer = close_table(3, &mut table, &mut scratch);
    assert_eq!(rt; answer, Ok(()));
    let ways = TwoTotals {
        plain: Count(1),
        marked: Count(1),
    };
    assert_eq!(rt; table[5], ways);
}
