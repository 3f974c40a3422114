// The start and end weights of a cleared chart.
ghost use Rattle.std.specs.Prelude.{◌≡◌, ℕ, ◌<◌, length, if◌then◌else◌};
ghost use Rattle.charts.specs.Sums.{sum};
ghost use Rattle.charts.specs.Views.{starts, ends};
ghost use Rattle.machines.specs.Matrix.{matrix_of};
ghost use Rattle.machines.specs.Tables.{weight_at};

use crate::matrix::Matrix;
use charts::Chart;
use weights::Weight;

// Makes each start weight one if its state is marked, else zero.
pub(super) fn write_starts<K: Weight>(chart: &Chart, row: &mut [K])
    ensures { (i : ℕ) → i < length row.old → weight_at K.Weight.ops K.Weight.meaning row.new i ≡ (if starts chart.now i then K.Weight.ops.unit else K.Weight.ops.nil) }
{
    for (i, weight) in row.iter_mut().enumerate() {
        *weight = start_weight(chart, i);
    }
}

// One if the state is a start, else zero.
fn start_weight<K: Weight>(chart: &Chart, state: usize) -> K
    ensures { K.Weight.meaning result ≡ (if starts chart.now state then K.Weight.ops.unit else K.Weight.ops.nil) }
{
    if chart.is_start(state) {
        K::ONE
    } else {
        K::ZERO
    }
}

// Makes each end weight the join of its state's entries of the closed silent table for the end states.
pub(super) fn write_ends<K: Weight>(chart: &Chart, closed: &Matrix<K>, row: &mut [K])
    requires { length row.old ≡ closed.now.states }
    ensures { (i : ℕ) → i < length row.old → weight_at K.Weight.ops K.Weight.meaning row.new i ≡ sum K.Weight.ops (length row.old) (λ j. (if ends chart.now j then matrix_of K.Weight.ops K.Weight.meaning closed.now i j else K.Weight.ops.nil)) }
{
    // The closed row by its number, since after a `zip` nothing is known of what was written.
    for (i, weight) in row.iter_mut().enumerate() {
        *weight = end_weight(chart, closed.row(i));
    }
}

// The join of a row's weights for the end states.
fn end_weight<K: Weight>(chart: &Chart, row: &[K]) -> K
    ensures { K.Weight.meaning result ≡ sum K.Weight.ops (length row.now) (λ j. (if ends chart.now j then weight_at K.Weight.ops K.Weight.meaning row.now j else K.Weight.ops.nil)) }
{
    let mut total = K::ZERO;
    for (j, weight) in row.iter().enumerate() {
        if chart.is_end(j) {
            total = total.plus(*weight);
        }
    }
    total
}
