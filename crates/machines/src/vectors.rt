// What is done to a slice of weights.
ghost use Rattle.std.specs.Prelude.{◌≡◌, ℕ, ◌+◌, ◌*◌, ◌≤◌, length, take, drop};
ghost use Rattle.machines.specs.Tables.{weight_at, Joined};

use weights::Weight;

// Joins into each weight of a row the factor chained with the other row's weight. A factor of zero changes nothing.
// `set_multiple` of crossing joins to nothing; neither can be public, since both ask that the rows are of one length.
pub(crate) fn join_multiple<K: Weight>(row: &mut [K], factor: K, other: &[K])
    requires { length row.old ≡ length other.now }
    ensures { Joined K.Weight.ops K.Weight.meaning row.old (K.Weight.meaning factor) other.now row.new }
{
    if factor.same(K::ZERO) {
        return;
    }
    // By index, since a `zip` with the other row would tell a proof nothing of what it wrote.
    for (k, weight) in row.iter_mut().enumerate() {
        *weight = weight.plus(factor.times(other[k]));
    }
}

// Makes every weight zero. Not `fill`, which asks that a clone cannot fail; a kind of weight says nothing of that.
pub(crate) fn fill_zero<K: Weight>(weights: &mut [K])
    ensures { (k : ℕ) → weight_at K.Weight.ops K.Weight.meaning weights.new k ≡ K.Weight.ops.nil }
{
    for weight in weights.iter_mut() {
        *weight = K::ZERO;
    }
}

// The row of this number, in weights that lie in rows of so many.
pub(crate) fn row_of<K>(weights: &[K], width: usize, number: usize) -> &[K]
    requires { number * width + width ≤ length weights.now }
    ensures value { result.now ≡ take width (drop (number * width) weights.now) }
    ensures len { length result.now ≡ width }
{
    let begin = number * width;
    &weights[begin..begin + width]
}
