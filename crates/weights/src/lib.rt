// Kinds of weight: what a path through a fault chart may be measured in.
// A kind is a semiring whose star is a finite sum; all that is built above rests on these promises alone.
#![tactic(auto, using(crate::proofs::Meanings::same_capped, crate::proofs::Meanings::smaller_capped, crate::proofs::Meanings::larger_capped, crate::proofs::Meanings::plus_capped, crate::proofs::Meanings::times_capped))]

pub mod arcs;
pub mod count;
pub mod grade;
pub mod minutes;
pub mod parts;
pub mod possible;

ghost use Rattle.std.specs.Prelude.{◌≡◌, ℕ, true, Decides};
ghost use Rattle.weights.specs.Semiring.{Ops, Laws, Commutes, RankedLaws};

use arcs::ArcRecord;

// A kind of weight. Its type is plain: every value of it means a weight, and several may mean the same one.
pub trait Weight: Copy {
    // exactly the weights
    ghost Carrier: { Type 0 };

    // the weight that a value means
    ghost meaning: { Self → Carrier };

    // zero, one, join, chain and loop, on the weights
    ghost ops: { Ops Carrier };

    // the weight of an arc, over plain numbers: a definition cannot make an `ArcRecord`, whose ranges it would have to prove
    ghost weighs: { (minutes grade parts : ℕ) → Carrier };

    ghost ZERO: { Self };

    // No way at all: joined with a weight it changes nothing, chained with one it gives itself.
    const ZERO: Self;

    ghost ONE: { Self };

    // A way that costs nothing: chained with a weight it changes nothing.
    const ONE: Self;

    // The join: one way or the other.
    fn plus(self, other: Self) -> Self
        ensures { meaning result ≡ ops.plus (meaning self) (meaning other) };

    // The chain: one way and then the other.
    fn times(self, other: Self) -> Self
        ensures { meaning result ≡ ops.times (meaning self) (meaning other) };

    // The loop: the way taken any number of times.
    fn star(self) -> Self
        ensures { meaning result ≡ ops.star (meaning self) };

    // The weight of one arc.
    fn of_arc(arc: ArcRecord) -> Self
        ensures { meaning result ≡ weighs arc.minutes arc.grade arc.parts };

    // Do the two values mean the same weight?
    fn same(self, other: Self) -> bool
        ensures { Decides result (meaning self ≡ meaning other) };

    // what zero and one mean
    ghost zero_means: { meaning ZERO ≡ ops.nil };

    ghost one_means: { meaning ONE ≡ ops.unit };

    // what each kind proves of its operations
    ghost laws: { Laws ops };
}

// A kind whose chain does not mind the order. The question always says yes; whoever asks it may rest on the law.
pub trait Commutative: Weight {
    fn commutes() -> bool
        ensures says { result ≡ true }
        ensures law_holds { Commutes Self.Weight.ops }
    {
        true
    }

    // what each kind proves of its chain
    ghost times_commutes: { Commutes Self.Weight.ops };
}

// A kind whose join picks one of the two weights, and in which nothing is better than one.
pub trait Ranked: Weight {
    // Is this weight at least as good as the other, so that their join is this one? It is no `PartialOrd`: several values may mean
    // one weight, and of minutes the fewer are the better.
    fn keep(self, other: Self) -> bool
        ensures says { Decides result (Self.Weight.ops.plus (Self.Weight.meaning self) (Self.Weight.meaning other) ≡ Self.Weight.meaning self) }
        ensures laws_hold { RankedLaws Self.Weight.ops };

    // what each kind proves of its join
    ghost ranked_laws: { RankedLaws Self.Weight.ops };
}
