// The table of a chart's silent arcs.
ghost use Rattle.std.specs.Prelude.{◌≡◌, ◌<◌};
ghost use Rattle.charts.specs.Arcs.{row_of_arc};
ghost use Rattle.charts.specs.Automaton.{automaton};
ghost use Rattle.machines.specs.Arcs.{arc_adds};
ghost use Rattle.machines.specs.Machine.{arc_table};
ghost use Rattle.machines.specs.Matrix.{Becomes, matrix_of};

use crate::matrix::Matrix;
use charts::{Arc, Chart};
use weights::Weight;

// Makes each entry the join of the silent arcs from the one state to the other.
pub(super) fn write_silent<K: Weight>(chart: &Chart, matrix: &mut Matrix<K>)
    requires { matrix.old.states ≡ chart.now.states }
    ensures { Becomes K.Weight.ops K.Weight.meaning matrix.old matrix.new (arc_table K.Weight.ops (automaton K.Weight.weighs chart.now) 0) }
{
    matrix.fill_zero();
    for arc in chart.arcs_in_order() {
        join_silent(arc, matrix);
    }
}

// Joins an arc into its entry, if it is silent.
fn join_silent<K: Weight>(arc: Arc, matrix: &mut Matrix<K>)
    requires { (arc.from < matrix.old.states) × (arc.to < matrix.old.states) }
    ensures { Becomes K.Weight.ops K.Weight.meaning matrix.old matrix.new (λ i k. K.Weight.ops.plus (matrix_of K.Weight.ops K.Weight.meaning matrix.old i k) (arc_adds K.Weight.ops K.Weight.weighs (row_of_arc arc) 0 i k)) }
{
    if arc.letter.is_none() {
        let weight = K::of_arc(arc.record);
        matrix.join(usize::from(arc.from), usize::from(arc.to), weight);
    }
}
