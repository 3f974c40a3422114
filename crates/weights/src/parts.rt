// Parts: the spare parts that every explanation asks for, a bit for each. All bits set means that there is no way.
ghost use Rattle.std.specs.Prelude.{refl};
ghost use Rattle.weights.specs.Capped.{Upto};
ghost use Rattle.weights.specs.Parts.{all_parts, parts_meaning, parts_ops, parts_weighs};
ghost use Rattle.weights.specs.PartsLaws.{parts_laws, parts_commutes};

use crate::arcs::ArcRecord;
use crate::{Commutative, Weight};

#[derive(Clone, Copy, PartialEq, Eq, Debug)]
pub struct Parts(pub u32);

impl Weight for Parts {
    ghost Carrier = { Upto all_parts };

    ghost meaning = { parts_meaning };

    ghost ops = { parts_ops };

    ghost weighs = { parts_weighs };

    ghost laws = { parts_laws };

    ghost ZERO = { record { 0 = 4294967295 } };

    const ZERO: Parts = Parts(u32::MAX);

    ghost ONE = { record { 0 = 0 } };

    const ONE: Parts = Parts(0);

    ghost zero_means = { refl };

    ghost one_means = { refl };

    fn plus(self, other: Parts) -> Parts {
        Parts(self.0 & other.0)
    }

    fn times(self, other: Parts) -> Parts {
        Parts(self.0 | other.0)
    }

    fn star(self) -> Parts {
        Parts(0)
    }

    fn of_arc(arc: ArcRecord) -> Parts {
        Parts(arc.parts())
    }

    fn same(self, other: Parts) -> bool {
        self == other
    }
}

impl Commutative for Parts {
    ghost times_commutes = { parts_commutes };
}
