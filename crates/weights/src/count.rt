// Count: how many explanations there are. 65,535 means that many or more.
ghost use Rattle.std.specs.Prelude.{refl};
ghost use Rattle.weights.specs.Capped.{Upto};
ghost use Rattle.weights.specs.Count.{most_counted, count_meaning, count_ops, count_weighs};
ghost use Rattle.weights.specs.CountLaws.{count_laws, count_commutes};

use crate::arcs::ArcRecord;
use crate::{Commutative, Weight};

#[derive(Clone, Copy, PartialEq, Eq, Debug)]
pub struct Count(pub u16);

impl Weight for Count {
    ghost Carrier = { Upto most_counted };

    ghost meaning = { count_meaning };

    ghost ops = { count_ops };

    ghost weighs = { count_weighs };

    ghost laws = { count_laws };

    ghost ZERO = { record { 0 = 0 } };

    const ZERO: Count = Count(0);

    ghost ONE = { record { 0 = 1 } };

    const ONE: Count = Count(1);

    ghost zero_means = { refl };

    ghost one_means = { refl };

    fn plus(self, other: Count) -> Count {
        Count(self.0.saturating_add(other.0))
    }

    fn times(self, other: Count) -> Count {
        Count(self.0.saturating_mul(other.0))
    }

    // Once round or not at all, twice, and so on: endless ways, but for a loop that is no way.
    fn star(self) -> Count {
        if self.0 == 0 {
            Count(1)
        } else {
            Count(u16::MAX)
        }
    }

    fn of_arc(_arc: ArcRecord) -> Count {
        Count(1)
    }

    fn same(self, other: Count) -> bool {
        self == other
    }
}

impl Commutative for Count {
    ghost times_commutes = { count_commutes };
}
