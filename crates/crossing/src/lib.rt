// Crossing two machines: a machine of their pairs of states, which reads the same letters on both.
#![tactic(auto)]

mod pair;

ghost use Rattle.std.specs.Prelude.{◌≡◌, ◌*◌, ◌≤◌, true, length, is_ok};
ghost use Rattle.machines.specs.Machine.{Alike, crossed};
ghost use Rattle.machines.specs.Meant.{meant};
ghost use Rattle.crossing.specs.Crossings.{crossing_answer, pair_machine, pair_size, Multiplies};
ghost use Rattle.machines.specs.Questions.{KeptBehind};
ghost use Rattle.machines.specs.Shapes.{Shaped};

use charts::Refusal;
use machines::Machine;
use pair::Pair;
use weights::{Commutative, Weight};

// Writes the crossing of two machines to the front of `table`. The pair of the states p and q has the number p times the
// second machine's states, plus q; each weight is the first machine's chained with the second's. Like each answer of a machine it
// promises what holds of every machine.
pub fn cross<K: Weight>(
    first: &Machine<K>,
    second: &Machine<K>,
    table: &mut [K],
) -> Result<(), Refusal>
    ensures answers { result ≡ crossing_answer first.now second.now (length table.old) }
    ensures crosses { is_ok result ≡ true → Alike (pair_machine K.Weight.ops K.Weight.meaning first.now second.now table.new) (crossed K.Weight.ops (meant K.Weight.ops K.Weight.meaning first.now) (meant K.Weight.ops K.Weight.meaning second.now)) }
    ensures table_kept { KeptBehind (is_ok result) (pair_size first.now second.now) table.old table.new }
    ensures first_shaped { Shaped first.now.states first.now.letters first.now.table }
    ensures second_shaped { Shaped second.now.states second.now.letters second.now.table }
{
    if first.letters() != second.letters() {
        return Err(Refusal::LetterCounts);
    }
    let states = first.states() * second.states();
    if states > 64 {
        return Err(Refusal::TooManyStates);
    }
    // No public function may ask something of its caller, so this is written here again, as `machines` has it.
    let size = 2 * states + usize::from(first.letters()) * (states * states);
    if table.len() < size {
        return Err(Refusal::Memory);
    }
    let pair = Pair { first, second };
    pair.write(&mut table[..size]);
    Ok(())
}

// The same for a kind whose chain does not mind the order: there the crossing tells of any letters the chain of what the
// two machines tell.
pub fn cross_commutative<K: Commutative>(
    first: &Machine<K>,
    second: &Machine<K>,
    table: &mut [K],
) -> Result<(), Refusal>
    ensures answers { result ≡ crossing_answer first.now second.now (length table.old) }
    ensures crosses { is_ok result ≡ true → Alike (pair_machine K.Weight.ops K.Weight.meaning first.now second.now table.new) (crossed K.Weight.ops (meant K.Weight.ops K.Weight.meaning first.now) (meant K.Weight.ops K.Weight.meaning second.now)) }
    ensures multiplies { is_ok result ≡ true → Multiplies K.Weight.ops (meant K.Weight.ops K.Weight.meaning first.now) (meant K.Weight.ops K.Weight.meaning second.now) (pair_machine K.Weight.ops K.Weight.meaning first.now second.now table.new) }
    ensures table_kept { KeptBehind (is_ok result) (pair_size first.now second.now) table.old table.new }
    ensures first_shaped { Shaped first.now.states first.now.letters first.now.table }
    ensures second_shaped { Shaped second.now.states second.now.letters second.now.table }
{
    cross(first, second, table)
}
