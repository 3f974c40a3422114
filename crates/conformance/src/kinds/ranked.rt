// The kinds whose join picks one of the two weights.
use super::{Kind, Loop, Pair, Rank, Same, check_ranked};
use weights::grade::Grade;
use weights::minutes::Minutes;
use weights::possible::Possible;

// The largest number of minutes that is still a way.
const LAST: Minutes = Minutes(4_294_967_294);

const NO_WAY: Minutes = Minutes(4_294_967_295);

static MINUTES: Kind<Minutes> = Kind {
    zero: NO_WAY,
    one: Minutes(0),
    arc: Minutes(7),
    pairs: &[
        Pair("7 and 8", Minutes(7), Minutes(8), Minutes(7), Minutes(15)),
        Pair("8 and 7", Minutes(8), Minutes(7), Minutes(7), Minutes(15)),
        Pair("last and 0", LAST, Minutes(0), Minutes(0), LAST),
        Pair("last and 1", LAST, Minutes(1), Minutes(1), NO_WAY),
        Pair("last and 2", LAST, Minutes(2), Minutes(2), NO_WAY),
        Pair("no way and 7", NO_WAY, Minutes(7), Minutes(7), NO_WAY),
    ],
    loops: &[
        Loop("loop of 0", Minutes(0), Minutes(0)),
        Loop("loop of 7", Minutes(7), Minutes(0)),
        Loop("loop of no way", NO_WAY, Minutes(0)),
    ],
    same: &[
        Same("256 like 256", Minutes(256), Minutes(256), true),
        Same("0 like 256", Minutes(0), Minutes(256), false),
        Same("last like no way", LAST, NO_WAY, false),
    ],
};

static MINUTES_RANKS: [Rank<Minutes>; 3] = [
    Rank("7 over 8", Minutes(7), Minutes(8), true, false),
    Rank("8 over 7", Minutes(8), Minutes(7), false, true),
    Rank("8 over 8", Minutes(8), Minutes(8), true, true),
];

// Above 100 every byte means 100.
static GRADE: Kind<Grade> = Kind {
    zero: Grade(0),
    one: Grade(100),
    arc: Grade(60),
    pairs: &[
        Pair("40 and 60", Grade(40), Grade(60), Grade(60), Grade(40)),
        Pair("60 and 40", Grade(60), Grade(40), Grade(60), Grade(40)),
        Pair("0 and 60", Grade(0), Grade(60), Grade(60), Grade(0)),
        Pair("99 and 101", Grade(99), Grade(101), Grade(100), Grade(99)),
        Pair(
            "101 and 255",
            Grade(101),
            Grade(255),
            Grade(100),
            Grade(100),
        ),
    ],
    loops: &[
        Loop("loop of 0", Grade(0), Grade(100)),
        Loop("loop of 60", Grade(60), Grade(100)),
        Loop("loop of 255", Grade(255), Grade(100)),
    ],
    same: &[
        Same("60 like 60", Grade(60), Grade(60), true),
        Same("99 like 100", Grade(99), Grade(100), false),
        Same("99 like 101", Grade(99), Grade(101), false),
        Same("100 like 101", Grade(100), Grade(101), true),
        Same("255 like 101", Grade(255), Grade(101), true),
    ],
};

static GRADE_RANKS: [Rank<Grade>; 5] = [
    Rank("60 over 40", Grade(60), Grade(40), true, false),
    Rank("40 over 60", Grade(40), Grade(60), false, true),
    Rank("99 over 101", Grade(99), Grade(101), false, true),
    Rank("100 over 101", Grade(100), Grade(101), true, true),
    Rank("255 over 101", Grade(255), Grade(101), true, true),
];

const NO: Possible = Possible(false);

const YES: Possible = Possible(true);

static POSSIBLE: Kind<Possible> = Kind {
    zero: NO,
    one: YES,
    arc: YES,
    pairs: &[
        Pair("no and no", NO, NO, NO, NO),
        Pair("no and yes", NO, YES, YES, NO),
        Pair("yes and no", YES, NO, YES, NO),
        Pair("yes and yes", YES, YES, YES, YES),
    ],
    loops: &[Loop("loop of no", NO, YES), Loop("loop of yes", YES, YES)],
    same: &[
        Same("no like no", NO, NO, true),
        Same("no like yes", NO, YES, false),
        Same("yes like no", YES, NO, false),
        Same("yes like yes", YES, YES, true),
    ],
};

static POSSIBLE_RANKS: [Rank<Possible>; 3] = [
    Rank("no over no", NO, NO, true, true),
    Rank("yes over no", YES, NO, true, false),
    Rank("yes over yes", YES, YES, true, true),
];

#[test]
fn minutes(rt: HostRuntime) {
    check_ranked(&rt, &MINUTES, &MINUTES_RANKS);
}

#[test]
fn grade(rt: HostRuntime) {
    check_ranked(&rt, &GRADE, &GRADE_RANKS);
}

#[test]
fn possible(rt: HostRuntime) {
    check_ranked(&rt, &POSSIBLE, &POSSIBLE_RANKS);
}
