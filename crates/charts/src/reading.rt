// A chart, which comes only from reading.
mod answers;
mod header;
mod lent;
mod tables;

ghost use Rattle.std.specs.Prelude.{◌≡◌, take, true, length, IfOk};
ghost use Rattle.charts.specs.Format.{decoded};
ghost use Rattle.charts.specs.Held.{Held, view_of, fits};
ghost use Rattle.charts.specs.Views.{View};

use crate::refusals::Refusal;
pub use lent::LentChart;
use std::marker::Model;
pub(crate) use tables::Tables;

// The rows of a file that was accepted: a byte for each state, and twelve for each arc. It keeps copies, in arrays with their
// lengths beside them, so that it outlives the file's bytes; slices of those bytes would not.
#[derive(Drop)]
pub struct Chart {
    states: usize,
    letters: u8,
    arcs: usize,
    marks: [u8; 32],
    rows: [[u8; 12]; 512],
}

impl Model for Chart {
    ghost Value = { View };

    ghost view = { λ c. view_of (take c.states c.marks) c.letters (take c.arcs c.rows) };

    ghost invariant = { λ c. Held c.states c.letters c.arcs c.marks c.rows };
}

impl Chart {
    // The chart that a file holds, or why it holds none: what `LentChart::read` answers, with rows of its own.
    pub fn read(file: &[u8]) -> Result<Chart, Refusal>
        ensures answers { result ≡ decoded file.now }
        ensures rows { IfOk result (λ c. length c.state_rows ≡ c.states) }
        ensures fits { IfOk result (λ c. fits c ≡ true) }
    {
        Ok(LentChart::read(file)?.keep())
    }
}
