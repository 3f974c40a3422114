// Grade: how sure the best explanation is, from 0, no way, to 100. A chain is as sure as its least sure part.
ghost use Rattle.std.specs.Prelude.{refl};
ghost use Rattle.weights.specs.Capped.{Upto};
ghost use Rattle.weights.specs.Grade.{best_grade, grade_meaning, grade_ops, grade_weighs};
ghost use Rattle.weights.specs.GradeLaws.{grade_laws, grade_commutes, grade_ranked};

use crate::arcs::ArcRecord;
use crate::{Commutative, Ranked, Weight};

// A byte above 100 means the weight 100.
#[derive(Clone, Copy, Debug)]
pub struct Grade(pub u8);

impl Weight for Grade {
    ghost Carrier = { Upto best_grade };

    ghost meaning = { grade_meaning };

    ghost ops = { grade_ops };

    ghost weighs = { grade_weighs };

    ghost laws = { grade_laws };

    ghost ZERO = { record { 0 = 0 } };

    const ZERO: Grade = Grade(0);

    ghost ONE = { record { 0 = 100 } };

    const ONE: Grade = Grade(100);

    ghost zero_means = { refl };

    ghost one_means = { refl };

    fn plus(self, other: Grade) -> Grade {
        Grade(self.0.max(other.0))
    }

    fn times(self, other: Grade) -> Grade {
        Grade(self.0.min(other.0))
    }

    fn star(self) -> Grade {
        Grade(100)
    }

    fn of_arc(arc: ArcRecord) -> Grade {
        Grade(arc.grade())
    }

    // Not `==`: several bytes mean the weight 100.
    fn same(self, other: Grade) -> bool {
        self.0.min(100) == other.0.min(100)
    }
}

impl Commutative for Grade {
    ghost times_commutes = { grade_commutes };
}

// The larger grade is the better.
impl Ranked for Grade {
    ghost ranked_laws = { grade_ranked };

    #[tactic(auto, using(crate::specs::GradeLaws::grade_ranked, crate::proofs::Meanings::keeps_larger))]
    fn keep(self, other: Grade) -> bool {
        self.0.min(100) >= other.0.min(100)
    }
}
