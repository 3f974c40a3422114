// What a chart answers, for every number that is asked. Each answer also promises what holds of every chart (`rows`, `fits`), so
// that whoever asks one may rest on that.
ghost use Rattle.std.specs.Prelude.{◌≡◌, true, length, slice_index};
ghost use Rattle.std.specs.Option.{option_map};
ghost use Rattle.std.specs.List.{slice_get};
ghost use Rattle.charts.specs.Arcs.{row_of_arc};
ghost use Rattle.charts.specs.Held.{fits, view_of};
ghost use Rattle.charts.specs.Views.{starts, ends};

use super::{Chart, Tables};
use crate::arcs::{Arc, Arcs};

// The bits of a state row.
const START: u8 = 1;

const END: u8 = 2;

impl Chart {
    // How many states the chart has; they are numbered from 0.
    pub fn states(&self) -> usize
        ensures value { result ≡ self.now.states }
        ensures rows { length self.now.state_rows ≡ self.now.states }
        ensures fits { fits self.now ≡ true }
    {
        self.states
    }

    // How many letters the chart has; they are numbered from 1.
    pub fn letters(&self) -> u8
        ensures value { result ≡ self.now.letters }
        ensures rows { length self.now.state_rows ≡ self.now.states }
        ensures fits { fits self.now ≡ true }
    {
        self.letters
    }

    // How many arcs the chart has; they are numbered from 0.
    pub fn arcs(&self) -> usize
        ensures value { result ≡ length self.now.arc_rows }
        ensures rows { length self.now.state_rows ≡ self.now.states }
        ensures fits { fits self.now ≡ true }
    {
        self.arcs
    }

    // Does a path begin in this state? A state that the chart does not have is no start. This and `is_end` are two calls, since
    // `is_marked(state, START)` would say no more than `is_start(state)`.
    pub fn is_start(&self, state: usize) -> bool
        ensures value { result ≡ starts self.now state }
        ensures rows { length self.now.state_rows ≡ self.now.states }
        ensures fits { fits self.now ≡ true }
    {
        self.mark(state) & START != 0
    }

    // Does a path end in this state? A state that the chart does not have is no end.
    pub fn is_end(&self, state: usize) -> bool
        ensures value { result ≡ ends self.now state }
        ensures rows { length self.now.state_rows ≡ self.now.states }
        ensures fits { fits self.now ≡ true }
    {
        self.mark(state) & END != 0
    }

    // The row of a state. Where there is no such state it is 0, which marks nothing.
    fn mark(&self, state: usize) -> u8
        ensures value { result ≡ slice_index self.now.state_rows state }
        ensures rows { length self.now.state_rows ≡ self.now.states }
        ensures fits { fits self.now ≡ true }
    {
        self.marks[..self.states].get(state).copied().unwrap_or(0)
    }

    // The tables that the chart keeps.
    fn tables(&self) -> Tables<'_>
        ensures value { view_of result.marks.now result.letters result.rows.now ≡ self.now }
        ensures rows { length self.now.state_rows ≡ self.now.states }
        ensures fits { fits self.now ≡ true }
    {
        Tables {
            letters: self.letters,
            marks: &self.marks[..self.states],
            rows: &self.rows[..self.arcs],
        }
    }

    // The arc of this number, or none where the chart has fewer.
    pub fn arc(&self, number: usize) -> Option<Arc>
        ensures value { option_map row_of_arc result ≡ slice_get self.now.arc_rows number }
        ensures rows { length self.now.state_rows ≡ self.now.states }
        ensures fits { fits self.now ≡ true }
    {
        let tables = self.tables();
        let row = tables.rows.get(number)?;
        tables.read_arc(row)
    }

    // The arcs, from that of number 0 on. They lie in this chart; those of a `LentChart` outlive it.
    pub fn arcs_in_order(&self) -> Arcs<'_>
        ensures value { result ≡ self.now.arc_rows }
        ensures rows { length self.now.state_rows ≡ self.now.states }
        ensures fits { fits self.now ≡ true }
    {
        Arcs::new(self.tables())
    }
}
