// Closing a table: the join of all walks from state to state, by Lehmann's algorithm.
ghost use Rattle.std.specs.Prelude.{◌≡◌, ◌*◌, ◌<◌, ◌≤◌, true, length, is_ok};
ghost use Rattle.machines.specs.Closure.{diagonal, round, closed};
ghost use Rattle.machines.specs.Questions.{closing_answer, KeptBehind};
ghost use Rattle.machines.specs.Matrix.{Becomes, matrix_of};
ghost use Rattle.machines.specs.Tables.{Closed};

use crate::matrix::Matrix;
use charts::Refusal;
use weights::Weight;

// Closes the table of so many states that lies at the front of `table`, row by row: each entry becomes the join of all
// walks from the one state to the other. `scratch` is as long, and its front may change.
pub fn close_table<K: Weight>(
    states: usize,
    table: &mut [K],
    scratch: &mut [K],
) -> Result<(), Refusal>
    ensures answers { result ≡ closing_answer states (length table.old) (length scratch.old) }
    ensures closes { is_ok result ≡ true → Closed K.Weight.ops K.Weight.meaning states table.old table.new }
    ensures table_kept { KeptBehind (is_ok result) (states * states) table.old table.new }
    ensures scratch_kept { KeptBehind (is_ok result) (states * states) scratch.old scratch.new }
{
    if !(1..=64).contains(&states) {
        return Err(Refusal::Limits);
    }
    let places = states * states;
    if table.len() < places || scratch.len() < places {
        return Err(Refusal::Memory);
    }
    let (front, _) = table.split_at_mut(places);
    let mut matrix = Matrix::new(states, front);
    matrix.close(&mut scratch[..states]);
    Ok(())
}

impl<'a, K: Weight> Matrix<'a, K> {
    // Closes the matrix; `kept` is room for one row.
    pub(crate) fn close(&mut self, kept: &mut [K])
        requires { length kept.old ≡ self.old.states }
        ensures { Becomes K.Weight.ops K.Weight.meaning self.old self.new (closed K.Weight.ops self.old.states (matrix_of K.Weight.ops K.Weight.meaning self.old)) }
    {
        // Each state in turn, since a round is one state's.
        for pivot in 0..self.states() {
            self.close_round(pivot, kept);
        }
        self.join_one();
    }

    // Round `pivot`: every entry of the new table from the old one, in place. `kept` keeps the old row of the pivot.
    fn close_round(&mut self, pivot: usize, kept: &mut [K])
        requires { (pivot < self.old.states) × (length kept.old ≡ self.old.states) }
        ensures { Becomes K.Weight.ops K.Weight.meaning self.old self.new (round K.Weight.ops pivot (matrix_of K.Weight.ops K.Weight.meaning self.old)) }
    {
        kept.copy_from_slice(self.row(pivot));
        let star = kept[pivot].star();
        // By state: `chunks_exact_mut` would tell a proof nothing of the rows that are written.
        for i in 0..self.states() {
            let factor = self.row(i)[pivot].times(star);
            self.join_row(i, factor, kept);
        }
    }

    // Joins one into each entry from a state to itself: the walk of no steps.
    fn join_one(&mut self)
        ensures { Becomes K.Weight.ops K.Weight.meaning self.old self.new (λ i k. K.Weight.ops.plus (matrix_of K.Weight.ops K.Weight.meaning self.old i k) (diagonal K.Weight.ops i k)) }
    {
        // By state: `step_by` on `iter_mut` would tell a proof nothing of what is written.
        for i in 0..self.states() {
            self.join(i, i, K::ONE);
        }
    }
}
