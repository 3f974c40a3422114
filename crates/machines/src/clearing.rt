// Clearing a chart: its silent arcs are closed and put before the others, which leaves a machine.
mod blocks;
mod ends;
mod silent;

ghost use Rattle.std.specs.Prelude.{◌≡◌, ◌*◌, true, length, is_ok};
ghost use Rattle.charts.specs.Automaton.{automaton};
ghost use Rattle.charts.specs.Held.{fits};
ghost use Rattle.machines.specs.Machine.{Alike, cleared};
ghost use Rattle.machines.specs.Meant.{machine_of, Cleared};
ghost use Rattle.machines.specs.Questions.{clearing_answer, KeptBehind};
ghost use Rattle.machines.specs.Shapes.{machine_size};

use crate::machine::machine_size;
use crate::matrix::Matrix;
use blocks::write_blocks;
use charts::{Chart, Refusal};
use ends::{write_ends, write_starts};
use silent::write_silent;
use weights::Weight;

// Writes the machine of a chart, without its silent arcs, to the front of `table`. `silent` and `scratch` are tables of
// states times states, whose fronts may change. Like each answer of a chart it promises what holds of every chart.
pub fn clear<K: Weight>(
    chart: &Chart,
    silent: &mut [K],
    scratch: &mut [K],
    table: &mut [K],
) -> Result<(), Refusal>
    ensures answers { result ≡ clearing_answer chart.now.states chart.now.letters (length silent.old) (length scratch.old) (length table.old) }
    ensures clears { is_ok result ≡ true → Cleared K.Weight.ops K.Weight.meaning (automaton K.Weight.weighs chart.now) table.new }
    ensures silent_kept { KeptBehind (is_ok result) (chart.now.states * chart.now.states) silent.old silent.new }
    ensures scratch_kept { KeptBehind (is_ok result) (chart.now.states * chart.now.states) scratch.old scratch.new }
    ensures table_kept { KeptBehind (is_ok result) (machine_size chart.now.states chart.now.letters) table.old table.new }
    ensures rows { length chart.now.state_rows ≡ chart.now.states }
    ensures fits { fits chart.now ≡ true }
{
    let states = chart.states();
    let places = states * states;
    let size = machine_size(states, chart.letters());
    if silent.len() < places || scratch.len() < places || table.len() < size {
        return Err(Refusal::Memory);
    }
    clear_into(
        chart,
        &mut silent[..places],
        &mut scratch[..states],
        &mut table[..size],
    );
    Ok(())
}

// Closes the silent arcs and writes the start weights, the end weights and the blocks, in memory that fits; `kept` is
// room for one row.
fn clear_into<K: Weight>(chart: &Chart, silent: &mut [K], kept: &mut [K], table: &mut [K])
    requires closes { (length silent.old ≡ chart.now.states * chart.now.states) × (length kept.old ≡ chart.now.states) }
    requires fits { length table.old ≡ machine_size chart.now.states chart.now.letters }
    ensures { Alike (machine_of K.Weight.ops K.Weight.meaning chart.now.states chart.now.letters table.new) (cleared K.Weight.ops (automaton K.Weight.weighs chart.now)) }
{
    // These cuts stand in crossing too: a public function for them would ask that the table is long enough.
    let states = chart.states();
    let (starts, rest) = table.split_at_mut(states);
    let (ends, blocks) = rest.split_at_mut(states);
    let mut matrix = Matrix::new(states, silent);
    write_silent(chart, &mut matrix);
    matrix.close(kept);
    write_starts(chart, starts);
    write_ends(chart, &matrix, ends);
    write_blocks(chart, &matrix, blocks);
}
