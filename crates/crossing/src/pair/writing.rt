// Writing a crossing: the weight of a pair of states is the chain of the first's and the second's.
ghost use Rattle.std.specs.Prelude.{◌≡◌, ◌*◌, ◌≤◌, length};
ghost use Rattle.machines.specs.Machine.{Alike};
ghost use Rattle.machines.specs.Meant.{meant};
ghost use Rattle.crossing.specs.Crossings.{pair_machine, pair_size, Chained, Paired, PairBlocks};
ghost use Rattle.crossing.specs.Pairs.{crossing_of, pair_states};
ghost use Rattle.machines.specs.Tables.{table_of, Entries};

use super::Pair;
use weights::Weight;

impl<'a, 'b, K: Weight> Pair<'a, 'b, K> {
    // How many pairs of states there are.
    fn states(&self) -> usize
        ensures value { result ≡ pair_states self.now }
    {
        self.first.states() * self.second.states()
    }

    // Writes the start weights, the end weights and the blocks of the crossing.
    pub(crate) fn write(&self, table: &mut [K])
        requires { length table.old ≡ pair_size self.now.first.now self.now.second.now }
        ensures { Alike (pair_machine K.Weight.ops K.Weight.meaning self.now.first.now self.now.second.now table.new) (crossing_of K.Weight.ops K.Weight.meaning self.now) }
    {
        // These cuts stand in clearing too: a public function for them would ask that the table is long enough.
        let states = self.states();
        let (starts, rest) = table.split_at_mut(states);
        let (ends, blocks) = rest.split_at_mut(states);
        write_pairs(self.first.starts(), self.second.starts(), starts);
        write_pairs(self.first.ends(), self.second.ends(), ends);
        self.write_blocks(blocks);
    }

    // Makes each block of the crossing the table of the pairs of the two machines' blocks.
    fn write_blocks(&self, blocks: &mut [K])
        requires { length blocks.old ≡ self.now.first.now.letters * (pair_states self.now * pair_states self.now) }
        ensures { PairBlocks K.Weight.ops K.Weight.meaning (meant K.Weight.ops K.Weight.meaning self.now.first.now) (meant K.Weight.ops K.Weight.meaning self.now.second.now) blocks.new }
    {
        let states = self.states();
        let size = states * states;
        // By letter: `chunks_exact_mut` would tell a proof nothing of the blocks that are written. A function for where a block
        // begins would ask of each caller that the letter is not 0.
        for letter in 1..=self.first.letters() {
            let begin = (usize::from(letter) - 1) * size;
            self.write_block(letter, &mut blocks[begin..begin + size]);
        }
    }

    // Makes the block of a letter that the machines have, row by row.
    fn write_block(&self, letter: u8, block: &mut [K])
        requires within { (1 ≤ letter) × (letter ≤ self.now.first.now.letters) }
        requires fits { length block.old ≡ pair_states self.now * pair_states self.now }
        ensures { Entries (pair_states self.now) (table_of K.Weight.ops K.Weight.meaning (pair_states self.now) block.new) ((crossing_of K.Weight.ops K.Weight.meaning self.now).block letter) }
    {
        let (rows, columns) = (self.first.states(), self.second.states());
        let states = self.states();
        // The two blocks are asked for once, since `Machine::row` looks for its block at each call.
        let first = self.first.block(letter);
        let second = self.second.block(letter);
        // By number: after `chunks_exact_mut` nothing is known of what was written, and `chunks_exact` for the rows that are
        // read left each bound open. `row_of` of `machines` can't be public, since it asks that the row lies in the block.
        for p in 0..rows {
            let first_row = &first[p * rows..p * rows + rows];
            for q in 0..columns {
                let second_row = &second[q * columns..q * columns + columns];
                let begin = (p * columns + q) * states;
                write_pairs(first_row, second_row, &mut block[begin..begin + states]);
            }
        }
    }
}

// Makes a row of the pairs of two rows.
fn write_pairs<K: Weight>(first: &[K], second: &[K], pairs: &mut [K])
    requires { length pairs.old ≡ length first.now * length second.now }
    ensures { Paired K.Weight.ops K.Weight.meaning first.now second.now pairs.new }
{
    let columns = second.len();
    // The place of each part by its number: `chunks_exact_mut` would tell a proof nothing of what is written.
    for (p, factor) in first.iter().enumerate() {
        let begin = p * columns;
        set_multiple(&mut pairs[begin..begin + columns], *factor, second);
    }
}

// Makes each weight of a row the factor chained with the other row's weight. `join_multiple` of `machines` joins it to what
// stood there; neither can be public, since both ask that the rows are of one length.
fn set_multiple<K: Weight>(row: &mut [K], factor: K, other: &[K])
    requires { length row.old ≡ length other.now }
    ensures { Chained K.Weight.ops K.Weight.meaning (K.Weight.meaning factor) other.now row.new }
{
    // By index, since a `zip` with the other row would tell a proof nothing of what it wrote.
    for (k, weight) in row.iter_mut().enumerate() {
        *weight = factor.times(other[k]);
    }
}
