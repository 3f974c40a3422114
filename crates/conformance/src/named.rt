// The kinds of weight, under the names that a failure gives them.
use crate::two_totals::TwoTotals;
use weights::Weight;
use weights::count::Count;
use weights::grade::Grade;
use weights::minutes::Minutes;
use weights::parts::Parts;
use weights::possible::Possible;

pub(crate) trait Named: Weight {
    const NAME: &'static str;
}

impl Named for Minutes {
    const NAME: &'static str = "minutes";
}

impl Named for Grade {
    const NAME: &'static str = "grade";
}

impl Named for Possible {
    const NAME: &'static str = "possible";
}

impl Named for Parts {
    const NAME: &'static str = "parts";
}

impl Named for Count {
    const NAME: &'static str = "count";
}

impl Named for TwoTotals {
    const NAME: &'static str = "two totals";
}
