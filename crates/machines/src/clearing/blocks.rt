// The blocks of a cleared chart: each arc with a letter, behind the closed silent arcs.
ghost use Rattle.std.specs.Prelude.{◌≡◌, ◌*◌, ◌<◌, ◌≤◌, length, if◌then◌else◌, nat_eq};
ghost use Rattle.charts.specs.Arcs.{row_of_arc, letter_number};
ghost use Rattle.charts.specs.Automaton.{automaton};
ghost use Rattle.machines.specs.Arcs.{arc_adds_behind, block_entry, Blocks};
ghost use Rattle.machines.specs.Machine.{cleared_by};
ghost use Rattle.machines.specs.Matrix.{matrix_of};
ghost use Rattle.machines.specs.Tables.{table_of, Entries};

use crate::matrix::Matrix;
use crate::vectors::fill_zero;
use charts::{Arc, Chart};
use weights::Weight;

// Makes each block the closed silent table times the arcs of its letter, by one pass over the arcs.
pub(super) fn write_blocks<K: Weight>(chart: &Chart, closed: &Matrix<K>, blocks: &mut [K])
    requires closes { closed.now.states ≡ chart.now.states }
    requires fits { length blocks.old ≡ chart.now.letters * (chart.now.states * chart.now.states) }
    ensures { Blocks chart.now.states (block_entry K.Weight.ops K.Weight.meaning chart.now.states blocks.new) (cleared_by K.Weight.ops (automaton K.Weight.weighs chart.now) (matrix_of K.Weight.ops K.Weight.meaning closed.now)).block }
{
    fill_zero(blocks);
    for arc in chart.arcs_in_order() {
        join_block(arc, closed, blocks);
    }
}

// Joins an arc into the block of its letter, if it has one.
fn join_block<K: Weight>(arc: Arc, closed: &Matrix<K>, blocks: &mut [K])
    requires within { (arc.from < closed.now.states) × ((arc.to < closed.now.states) × (letter_number arc.letter ≤ 15)) }
    requires fits { letter_number arc.letter * (closed.now.states * closed.now.states) ≤ length blocks.old }
    ensures { Blocks closed.now.states (block_entry K.Weight.ops K.Weight.meaning closed.now.states blocks.new) (λ c i k. K.Weight.ops.plus (block_entry K.Weight.ops K.Weight.meaning closed.now.states blocks.old c i k) (arc_adds_behind K.Weight.ops K.Weight.weighs (matrix_of K.Weight.ops K.Weight.meaning closed.now) (row_of_arc arc) c i k)) }
{
    if let Some(letter) = arc.letter {
        let states = closed.states();
        // One line, as in `Machine::block`, whose blocks lie behind the ends.
        let size = states * states;
        let begin = (usize::from(letter.get()) - 1) * size;
        join_column(
            usize::from(arc.from),
            usize::from(arc.to),
            K::of_arc(arc.record),
            closed,
            &mut blocks[begin..begin + size],
        );
    }
}

// Joins into each row's entry of column `to` the closed row's entry of column `from`, chained with a weight. It takes the
// block as a slice and makes the matrix itself: a matrix that is made on a part and then handed on leaves there what no
// proof can follow.
fn join_column<K: Weight>(from: usize, to: usize, weight: K, closed: &Matrix<K>, block: &mut [K])
    requires within { (from < closed.now.states) × (to < closed.now.states) }
    requires fits { length block.old ≡ closed.now.states * closed.now.states }
    ensures { Entries closed.now.states (table_of K.Weight.ops K.Weight.meaning closed.now.states block.new) (λ i k. K.Weight.ops.plus (table_of K.Weight.ops K.Weight.meaning closed.now.states block.old i k) (if nat_eq to k then K.Weight.ops.times (matrix_of K.Weight.ops K.Weight.meaning closed.now i from) (K.Weight.meaning weight) else K.Weight.ops.nil)) }
{
    let mut matrix = Matrix::new(closed.states(), block);
    // By state: `chunks_exact_mut` would tell a proof nothing of the rows that are written.
    for i in 0..closed.states() {
        let added = closed.row(i)[from].times(weight);
        matrix.join(i, to, added);
    }
}
