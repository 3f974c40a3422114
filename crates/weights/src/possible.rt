// Possible: is there a way at all?
ghost use Rattle.std.specs.Prelude.{Bool, true, false, refl};
ghost use Rattle.weights.specs.Possible.{possible_meaning, possible_ops, possible_weighs};
ghost use Rattle.weights.specs.PossibleLaws.{possible_laws, possible_commutes, possible_ranked};

use crate::arcs::ArcRecord;
use crate::{Commutative, Ranked, Weight};

#[derive(Clone, Copy, PartialEq, Eq, Debug)]
pub struct Possible(pub bool);

impl Weight for Possible {
    ghost Carrier = { Bool };

    ghost meaning = { possible_meaning };

    ghost ops = { possible_ops };

    ghost weighs = { possible_weighs };

    ghost laws = { possible_laws };

    ghost ZERO = { record { 0 = false } };

    const ZERO: Possible = Possible(false);

    ghost ONE = { record { 0 = true } };

    const ONE: Possible = Possible(true);

    ghost zero_means = { refl };

    ghost one_means = { refl };

    fn plus(self, other: Possible) -> Possible {
        Possible(self.0 || other.0)
    }

    fn times(self, other: Possible) -> Possible {
        Possible(self.0 && other.0)
    }

    fn star(self) -> Possible {
        Possible(true)
    }

    fn of_arc(_arc: ArcRecord) -> Possible {
        Possible(true)
    }

    fn same(self, other: Possible) -> bool {
        self == other
    }
}

impl Commutative for Possible {
    ghost times_commutes = { possible_commutes };
}

// A way is better than none.
impl Ranked for Possible {
    ghost ranked_laws = { possible_ranked };

    // As a derived `>=` would say; an order of `Possible` would be there for this one line.
    fn keep(self, other: Possible) -> bool {
        self.0 || !other.0
    }
}
