// The kinds of weight at their edges.
mod ranked;
mod unranked;

use std::process::Abort;
use weights::arcs::ArcRecord;
use weights::{Commutative, Ranked, Weight};

// What a kind answers.
struct Kind<W: 'static> {
    zero: W,
    one: W,
    // the weight of an arc of 7 minutes, grade 60 and parts 9
    arc: W,
    pairs: &'static [Pair<W>],
    loops: &'static [Loop<W>],
    same: &'static [Same<W>],
}

// Two weights, their join and their chain.
struct Pair<W>(&'static str, W, W, W, W);

// A weight and its loop.
struct Loop<W>(&'static str, W, W);

// Two values, and whether they mean the same weight.
struct Same<W>(&'static str, W, W, bool);

// Two weights, whether the first is kept beside the second, and the second beside the first.
struct Rank<W>(&'static str, W, W, bool, bool);

fn check_pairs<W: Weight>(rt: &impl Abort, pairs: &[Pair<W>]) {
    for pair in pairs {
        let Pair(name, left, right, join, chain) = *pair;
        let joins = left.plus(right).same(join);
        let chains = left.times(right).same(chain);
        assert_eq!(rt; (joins, chains), (true, true), "{name}");
    }
}

fn check_loops<W: Weight>(rt: &impl Abort, loops: &[Loop<W>]) {
    for row in loops {
        let Loop(name, once, always) = *row;
        assert!(rt; once.star().same(always), "{name}");
    }
}

fn check_same<W: Weight>(rt: &impl Abort, pairs: &[Same<W>]) {
    for pair in pairs {
        let Same(name, left, right, same) = *pair;
        assert_eq!(rt; left.same(right), same, "{name}");
    }
}

fn check_kind<W: Commutative>(rt: &impl Abort, kind: &Kind<W>) {
    let arc = ArcRecord::new(7, 60, 9).expect(rt, "no record");
    let zero = W::ZERO.same(kind.zero);
    let one = W::ONE.same(kind.one);
    let weighs = W::of_arc(arc).same(kind.arc);
    let answers = (zero, one, weighs, W::commutes());
    assert_eq!(rt;
        answers,
        (true, true, true, true),
        "zero, one, arc, commutes"
    );
    check_pairs(rt, kind.pairs);
    check_loops(rt, kind.loops);
    check_same(rt, kind.same);
}

fn check_ranked<W: Commutative + Ranked>(rt: &impl Abort, kind: &Kind<W>, ranks: &[Rank<W>]) {
    check_kind(rt, kind);
    for pair in ranks {
        let Rank(name, left, right, forth, back) = *pair;
        let kept = (left.keep(right), right.keep(left));
        assert_eq!(rt; kept, (forth, back), "{name}");
    }
}
