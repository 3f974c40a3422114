// A kind for tests, with two totals: how many ways have no marked arc, and how many have exactly one. Ways with more
// are dropped. In the five kinds a loop chained with itself is the same loop, so that a closing which chains one twice
// does not show. Here it does: of two loops in a row, the first or the second may have the marked arc.
ghost use Rattle.std.specs.Prelude.{refl};
ghost use Rattle.weights.specs.Capped.{Upto};
ghost use Rattle.weights.specs.Count.{most_counted};
ghost use Rattle.conformance.specs.Dual.{Totals};
ghost use Rattle.conformance.specs.TwoTotals.{two_meaning, two_ops, two_weighs};
ghost use Rattle.weights.specs.CountLaws.{count_laws};
ghost use Rattle.conformance.specs.DualLaws.{dual_laws};

use weights::Weight;
use weights::arcs::ArcRecord;
use weights::count::Count;

#[derive(Clone, Copy, PartialEq, Eq, Debug)]
pub struct TwoTotals {
    pub plain: Count,
    pub marked: Count,
}

impl Weight for TwoTotals {
    ghost Carrier = { Totals (Upto most_counted) };

    ghost meaning = { two_meaning };

    ghost ops = { two_ops };

    ghost weighs = { two_weighs };

    ghost laws = { dual_laws count_laws };

    ghost ZERO = { record { plain = record { 0 = 0 }; marked = record { 0 = 0 } } };

    const ZERO: TwoTotals = TwoTotals {
        plain: Count(0),
        marked: Count(0),
    };

    ghost ONE = { record { plain = record { 0 = 1 }; marked = record { 0 = 0 } } };

    const ONE: TwoTotals = TwoTotals {
        plain: Count(1),
        marked: Count(0),
    };

    ghost zero_means = { refl };

    ghost one_means = { refl };

    fn plus(self, other: TwoTotals) -> TwoTotals {
        TwoTotals {
            plain: self.plain.plus(other.plain),
            marked: self.marked.plus(other.marked),
        }
    }

    // The marked arc is in the second part or in the first.
    fn times(self, other: TwoTotals) -> TwoTotals {
        let second = self.plain.times(other.marked);
        let first = self.marked.times(other.plain);
        TwoTotals {
            plain: self.plain.times(other.plain),
            marked: second.plus(first),
        }
    }

    // Any number of rounds come before the one with the marked arc, and any number after it.
    fn star(self) -> TwoTotals {
        let plain = self.plain.star();
        let after = self.marked.times(plain);
        let marked = plain.times(after);
        TwoTotals { plain, marked }
    }

    // An arc that wants a part is marked.
    fn of_arc(arc: ArcRecord) -> TwoTotals {
        if arc.parts() == 0 {
            TwoTotals {
                plain: Count(1),
                marked: Count(0),
            }
        } else {
            TwoTotals {
                plain: Count(0),
                marked: Count(1),
            }
        }
    }

    // By `same` of the counts: with the derived `==` the proof does not close, and so it rests on what they promise.
    fn same(self, other: TwoTotals) -> bool {
        self.plain.same(other.plain) && self.marked.same(other.marked)
    }
}
