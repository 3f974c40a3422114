// The kinds whose join may be neither of the two weights.
use super::{Kind, Loop, Pair, Same, check_kind};
use weights::count::Count;
use weights::parts::Parts;

const NO_WAY: Parts = Parts(0xffff_ffff);

// The bit that no arc may have.
const HIGH: Parts = Parts(0x8000_0000);

static PARTS: Kind<Parts> = Kind {
    zero: NO_WAY,
    one: Parts(0),
    arc: Parts(9),
    pairs: &[
        Pair("6 and 3", Parts(6), Parts(3), Parts(2), Parts(7)),
        Pair("3 and 6", Parts(3), Parts(6), Parts(2), Parts(7)),
        Pair("no part and 6", Parts(0), Parts(6), Parts(0), Parts(6)),
        Pair("no way and 6", NO_WAY, Parts(6), Parts(6), NO_WAY),
        Pair("high and low", HIGH, Parts(0x7fff_ffff), Parts(0), NO_WAY),
    ],
    loops: &[
        Loop("loop of no part", Parts(0), Parts(0)),
        Loop("loop of 6", Parts(6), Parts(0)),
        Loop("loop of no way", NO_WAY, Parts(0)),
    ],
    same: &[
        Same("9 like 9", Parts(9), Parts(9), true),
        Same("1 like 9", Parts(1), Parts(9), false),
        Same("0 like high", Parts(0), HIGH, false),
    ],
};

// This many or more.
const MANY: Count = Count(65_535);

static COUNT: Kind<Count> = Kind {
    zero: Count(0),
    one: Count(1),
    arc: Count(1),
    pairs: &[
        Pair("2 and 3", Count(2), Count(3), Count(5), Count(6)),
        Pair("0 and 3", Count(0), Count(3), Count(3), Count(0)),
        Pair(
            "255 and 256",
            Count(255),
            Count(256),
            Count(511),
            Count(65_280),
        ),
        Pair("255 and 257", Count(255), Count(257), Count(512), MANY),
        Pair("256 and 256", Count(256), Count(256), Count(512), MANY),
        Pair("65534 and 1", Count(65_534), Count(1), MANY, Count(65_534)),
        Pair("65534 and 2", Count(65_534), Count(2), MANY, MANY),
        Pair("many and 0", MANY, Count(0), MANY, Count(0)),
        Pair("many and many", MANY, MANY, MANY, MANY),
    ],
    loops: &[
        Loop("loop of 0", Count(0), Count(1)),
        Loop("loop of 1", Count(1), MANY),
        Loop("loop of many", MANY, MANY),
    ],
    same: &[
        Same("256 like 256", Count(256), Count(256), true),
        Same("0 like 256", Count(0), Count(256), false),
        Same("65534 like many", Count(65_534), MANY, false),
    ],
};

#[test]
fn parts(rt: HostRuntime) {
    check_kind(&rt, &PARTS);
}

#[test]
fn count(rt: HostRuntime) {
    check_kind(&rt, &COUNT);
}
