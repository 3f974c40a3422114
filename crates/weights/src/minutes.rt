// Minutes: the shortest time. A sum is stopped at the largest number, which means that there is no way.
ghost use Rattle.std.specs.Prelude.{refl};
ghost use Rattle.weights.specs.Capped.{Upto};
ghost use Rattle.weights.specs.Minutes.{most_minutes, minutes_meaning, minutes_ops, minutes_weighs};
ghost use Rattle.weights.specs.MinutesLaws.{minutes_laws, minutes_commutes, minutes_ranked};

use crate::arcs::ArcRecord;
use crate::{Commutative, Ranked, Weight};

#[derive(Clone, Copy, PartialEq, Eq, Debug)]
pub struct Minutes(pub u32);

impl Weight for Minutes {
    ghost Carrier = { Upto most_minutes };

    ghost meaning = { minutes_meaning };

    ghost ops = { minutes_ops };

    ghost weighs = { minutes_weighs };

    ghost laws = { minutes_laws };

    ghost ZERO = { record { 0 = 4294967295 } };

    const ZERO: Minutes = Minutes(u32::MAX);

    ghost ONE = { record { 0 = 0 } };

    const ONE: Minutes = Minutes(0);

    ghost zero_means = { refl };

    ghost one_means = { refl };

    fn plus(self, other: Minutes) -> Minutes {
        Minutes(self.0.min(other.0))
    }

    fn times(self, other: Minutes) -> Minutes {
        Minutes(self.0.saturating_add(other.0))
    }

    fn star(self) -> Minutes {
        Minutes(0)
    }

    fn of_arc(arc: ArcRecord) -> Minutes {
        Minutes(u32::from(arc.minutes()))
    }

    fn same(self, other: Minutes) -> bool {
        self == other
    }
}

impl Commutative for Minutes {
    ghost times_commutes = { minutes_commutes };
}

// The fewer minutes are the better.
impl Ranked for Minutes {
    ghost ranked_laws = { minutes_ranked };

    #[tactic(auto, using(crate::specs::MinutesLaws::minutes_ranked, crate::proofs::Meanings::keeps_smaller))]
    fn keep(self, other: Minutes) -> bool {
        self.0 <= other.0
    }
}
