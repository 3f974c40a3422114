// Making a matrix, reading it and joining weights into it.
ghost use Rattle.std.specs.Prelude.{◌≡◌, ◌<◌, length};
ghost use Rattle.machines.specs.Matrix.{Becomes, LiesIn, matrix_of, row_of, entry_joined, row_joined};
ghost use Rattle.machines.specs.Shapes.{Square};
ghost use Rattle.machines.specs.Tables.{weight_at};

use super::Matrix;
use crate::vectors::{fill_zero, join_multiple, row_of};
use weights::Weight;

impl<'a, K> Matrix<'a, K> {
    // The matrix of so many states in memory that it fills: a whole slice or a half of `split_at_mut`. Of a part `&mut w[..n]`
    // no proof could say afterwards what stands in `w`.
    pub(crate) fn new(states: usize, weights: &'a mut [K]) -> Matrix<'a, K>
        requires { Square states weights.old }
        ensures { LiesIn result states weights.entry }
    {
        Matrix { states, weights }
    }

    // How many states the matrix has.
    pub(crate) fn states(&self) -> usize
        ensures { result ≡ self.now.states }
    {
        self.states
    }

    // The weights from one state to each.
    pub(crate) fn row(&self, state: usize) -> &[K]
        requires { state < self.now.states }
        ensures value { result.now ≡ row_of self.now state }
        ensures len { length result.now ≡ self.now.states }
    {
        row_of(self.weights, self.states, state)
    }
}

impl<'a, K: Weight> Matrix<'a, K> {
    // Makes every weight zero.
    pub(crate) fn fill_zero(&mut self)
        ensures { Becomes K.Weight.ops K.Weight.meaning self.old self.new (λ i k. K.Weight.ops.nil) }
    {
        fill_zero(self.weights);
    }

    // Joins a weight into the entry from one state to another.
    pub(crate) fn join(&mut self, from: usize, to: usize, weight: K)
        requires { (from < self.old.states) × (to < self.old.states) }
        ensures { Becomes K.Weight.ops K.Weight.meaning self.old self.new (entry_joined K.Weight.ops from to (K.Weight.meaning weight) (matrix_of K.Weight.ops K.Weight.meaning self.old)) }
    {
        let place = from * self.states + to;
        self.weights[place] = self.weights[place].plus(weight);
    }

    // Joins into each weight of a row the factor chained with the other row's weight.
    pub(crate) fn join_row(&mut self, state: usize, factor: K, other: &[K])
        requires { (state < self.old.states) × (length other.now ≡ self.old.states) }
        ensures { Becomes K.Weight.ops K.Weight.meaning self.old self.new (row_joined K.Weight.ops state (K.Weight.meaning factor) (weight_at K.Weight.ops K.Weight.meaning other.now) (matrix_of K.Weight.ops K.Weight.meaning self.old)) }
    {
        let begin = state * self.states;
        join_multiple(&mut self.weights[begin..begin + self.states], factor, other);
    }
}
