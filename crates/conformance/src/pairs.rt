// Crossing two machines: every weight is the first machine's and then the second's.
mod limits;

use crate::named::Named;
use crate::two_totals::TwoTotals;
use crossing::cross;
use machines::Machine;
use std::ops::Range;
use std::process::Abort;
use std::test::Fail;
use weights::Weight;
use weights::arcs::ArcRecord;
use weights::count::Count;
use weights::grade::Grade;
use weights::minutes::Minutes;
use weights::parts::Parts;
use weights::possible::Possible;

// The weights of arcs of which no two are alike.
fn numbered<K: Weight>(rt: &impl AllocGlobal, numbers: Range<u16>) -> Result<Vec<K>, Fail> {
    let mut weights = Vec::new(rt.alloc());
    // A `for` that pushes: at a type parameter no proof is made of a `collect` of what a function such as `of_arc` makes.
    for number in numbers {
        let record = ArcRecord::new(number, number % 100 + 1, u32::from(number));
        weights.push(K::of_arc(record.ok_or("no record")?))?;
    }
    Ok(weights)
}

// Where the two weights lie whose chain is at a place of the crossing. With two letters the machine of three states has
// its starts at 0, its ends at 3 and its blocks at 6 and 15, that of two states at 0, 2, 4 and 8, and the crossing, of
// six, at 0, 6, 12 and 48. The pair of p and q has the number p times two, plus q. By hand, so that the test does not
// share a mistake with the code.
fn places(place: usize) -> (usize, usize) {
    if place < 12 {
        let (part, state) = (place / 6, place % 6);
        return (part * 3 + state / 2, part * 2 + state % 2);
    }
    // The letter is 0 or 1, counted from the first.
    let (letter, entry) = ((place - 12) / 36 % 2, (place - 12) % 36);
    let (from, to) = (entry / 6, entry % 6);
    let first = 6 + letter * 9 + from / 2 * 3 + to / 2;
    (first, 4 + letter * 4 + from % 2 * 2 + to % 2)
}

fn check_crossed<K: Named>(rt: &impl Abort, first: &[K], second: &[K], crossed: &[K]) {
    let kind = K::NAME;
    for (place, weight) in crossed.iter().enumerate() {
        let (before, behind) = places(place);
        let before = first.get(before).expect(rt, kind);
        let behind = second.get(behind).expect(rt, kind);
        assert!(rt; weight.same(before.times(*behind)), "{kind}, at {place}");
    }
}

// The crossing of a machine of three states and one of two, both with two letters.
fn crossed<K: Named>(
    rt: &(impl Abort + AllocGlobal),
    one: &[K],
    other: &[K],
) -> Result<Vec<K>, Fail> {
    let kind = K::NAME;
    let first = Machine::new(3, 2, one).expect(rt, kind);
    let second = Machine::new(2, 2, other).expect(rt, kind);
    let mut table = vec![in rt.alloc(); K::ZERO; 84]?;
    cross(&first, &second, table.as_mut_slice()).expect(rt, kind);
    Ok(table)
}

fn check_kind<K: Named>(rt: &(impl Abort + AllocGlobal)) -> Result<(), Fail> {
    let one = numbered::<K>(rt, 0..24)?;
    let other = numbered::<K>(rt, 40..52)?;
    let table = crossed(rt, one.as_slice(), other.as_slice())?;
    check_crossed(rt, one.as_slice(), other.as_slice(), table.as_slice());
    Ok(())
}

#[test]
fn crosses_every_weight(rt: HostRuntime) -> Result<(), Fail> {
    check_kind::<Minutes>(&rt)?;
    check_kind::<Grade>(&rt)?;
    check_kind::<Possible>(&rt)?;
    check_kind::<Parts>(&rt)?;
    check_kind::<Count>(&rt)?;
    check_kind::<TwoTotals>(&rt)
}
