// Two machines that can be crossed.
mod writing;

ghost use Rattle.std.specs.Prelude.{◌≡◌, ◌*◌, ◌≤◌};

use machines::Machine;

// They have the same letters, and so few states that their crossing is a machine.
#[derive(Drop)]
pub(super) struct Pair<'a, 'b, K> {
    pub(super) first: &'a Machine<'a, K>,
    pub(super) second: &'b Machine<'b, K>,
    ghost few_states: { first.now.states * second.now.states ≤ 64 },
    ghost same_letters: { first.now.letters ≡ second.now.letters },
}
