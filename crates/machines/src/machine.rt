// A machine: start and end weights and a block of weights for each letter, in a table that is lent.
mod parts;

ghost use Rattle.std.specs.Prelude.{◌≡◌, ◌≤◌};
ghost use Rattle.machines.specs.Shapes.{Lent, Shaped, machine_size};

use std::marker::Model;

// A machine of 1 to 64 states and 1 to 15 letters. No machine has a table that is too short for it.
#[derive(Drop)]
pub struct Machine<'a, K> {
    states: usize,
    letters: u8,
    table: &'a [K],
}

impl<'a, K> Model for Machine<'a, K> {
    ghost Value = { Lent K };

    ghost view = { λ m. record { states = m.states; letters = m.letters; table = m.table.now } };

    ghost invariant = { λ m. Shaped m.states m.letters m.table.now };
}

// How many weights a machine has: one for each start, one for each end, and a block for each letter.
pub(crate) fn machine_size(states: usize, letters: u8) -> usize
    requires { states ≤ 64 }
    ensures { result ≡ machine_size states letters }
{
    2 * states + usize::from(letters) * (states * states)
}
