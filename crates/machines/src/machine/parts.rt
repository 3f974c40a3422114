// Making a machine on a table, and the parts that it has. Each also promises what holds of every machine (`shaped`), so that
// whoever asks for one may rest on that.
ghost use Rattle.std.specs.Prelude.{◌≡◌, ◌&&◌, [], length, IfOk, if◌then◌else◌, nat_le, nat_lt};
ghost use Rattle.machines.specs.Questions.{machine_answer};
ghost use Rattle.machines.specs.Shapes.{Shaped, start_part, end_part, block_part, row_part};

use super::{Machine, machine_size};
use crate::vectors::row_of;
use charts::Refusal;

impl<'a, K> Machine<'a, K> {
    // The machine of so many states and letters whose weights lie at the front of a table.
    pub fn new(states: usize, letters: u8, table: &'a [K]) -> Result<Machine<'a, K>, Refusal>
        ensures answers { result ≡ machine_answer states letters table.now }
        ensures shaped { IfOk result (λ m. Shaped m.states m.letters m.table) }
    {
        if !(1..=64).contains(&states) || !(1..=15).contains(&letters) {
            return Err(Refusal::Limits);
        }
        if table.len() < machine_size(states, letters) {
            return Err(Refusal::Memory);
        }
        Ok(Machine {
            states,
            letters,
            table,
        })
    }

    // How many states the machine has; they are numbered from 0.
    pub fn states(&self) -> usize
        ensures value { result ≡ self.now.states }
        ensures shaped { Shaped self.now.states self.now.letters self.now.table }
    {
        self.states
    }

    // How many letters the machine has; they are numbered from 1.
    pub fn letters(&self) -> u8
        ensures value { result ≡ self.now.letters }
        ensures shaped { Shaped self.now.states self.now.letters self.now.table }
    {
        self.letters
    }

    // The start weights, one for each state. This and the next are two calls, since a part with a number would say less.
    pub fn starts(&self) -> &[K]
        ensures value { result.now ≡ start_part self.now.states self.now.table }
        ensures len { length result.now ≡ self.now.states }
        ensures shaped { Shaped self.now.states self.now.letters self.now.table }
    {
        &self.table[..self.states]
    }

    // The end weights, one for each state.
    pub fn ends(&self) -> &[K]
        ensures value { result.now ≡ end_part self.now.states self.now.table }
        ensures len { length result.now ≡ self.now.states }
        ensures shaped { Shaped self.now.states self.now.letters self.now.table }
    {
        &self.table[self.states..2 * self.states]
    }

    // The block of a letter, row by row; it is empty where the machine has no such letter. An empty slice and not `None`, so
    // that a call fails nowhere and a caller that goes over it needs no other arm.
    pub fn block(&self, letter: u8) -> &[K]
        ensures value { result.now ≡ (if nat_le 1 letter && nat_le letter self.now.letters then block_part self.now.states letter self.now.table else []) }
        ensures shaped { Shaped self.now.states self.now.letters self.now.table }
    {
        if !(1..=self.letters).contains(&letter) {
            return &self.table[..0];
        }
        // One line here and in `join_block`: a private function would be no shorter, and a public one, for crossing, would ask that
        // the letter is not 0.
        let size = self.states * self.states;
        let begin = 2 * self.states + (usize::from(letter) - 1) * size;
        &self.table[begin..begin + size]
    }

    // The row of a state in the block of a letter; it is empty where the machine has no such letter or no such state. An empty
    // slice and not `None`, as in `block`.
    pub fn row(&self, letter: u8, state: usize) -> &[K]
        ensures value { result.now ≡ (if nat_le 1 letter && nat_le letter self.now.letters && nat_lt state self.now.states then row_part self.now.states letter state self.now.table else []) }
        ensures shaped { Shaped self.now.states self.now.letters self.now.table }
    {
        if !(1..=self.letters).contains(&letter) || state >= self.states {
            return &self.table[..0];
        }
        row_of(self.block(letter), self.states, state)
    }
}
