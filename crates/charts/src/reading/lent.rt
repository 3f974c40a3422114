// A chart as its file lends it.
ghost use Rattle.std.specs.Prelude.{◌≡◌, true, length, IfOk};
ghost use Rattle.charts.specs.Format.{decoded};
ghost use Rattle.charts.specs.Held.{view_of, fits};
ghost use Rattle.charts.specs.Views.{View};

use super::{Chart, Tables};
use crate::arcs::Arcs;
use crate::refusals::Refusal;
use std::marker::Model;

// A chart whose rows stay in the file's bytes. It copies none of them, and lives no longer than they do; a `Chart` outlives them.
#[derive(Drop)]
pub struct LentChart<'a> {
    tables: Tables<'a>,
}

impl<'a> Model for LentChart<'a> {
    ghost Value = { View };

    ghost view = { λ c. view_of c.tables.marks.now c.tables.letters c.tables.rows.now };

    ghost invariant = { λ c. fits (view_of c.tables.marks.now c.tables.letters c.tables.rows.now) ≡ true };
}

impl<'a> LentChart<'a> {
    // The chart that a file holds, or why it holds none. Every question is asked in its order, and the first that fails decides.
    pub fn read(file: &'a [u8]) -> Result<LentChart<'a>, Refusal>
        ensures answers { result ≡ decoded file.now }
        ensures rows { IfOk result (λ c. length c.state_rows ≡ c.states) }
        ensures fits { IfOk result (λ c. fits c ≡ true) }
    {
        let tables = Tables::find(file)?;
        tables.check_states()?;
        tables.check_arcs()?;
        Ok(LentChart { tables })
    }

    // The arcs, from that of number 0 on. They lie in the file, and outlive this chart.
    pub fn arcs_in_order(&self) -> Arcs<'a>
        ensures value { result ≡ self.now.arc_rows }
        ensures rows { length self.now.state_rows ≡ self.now.states }
        ensures fits { fits self.now ≡ true }
    {
        Arcs::new(self.tables)
    }

    // The same chart, with rows of its own.
    pub fn keep(&self) -> Chart
        ensures value { result ≡ self.now }
        ensures rows { length self.now.state_rows ≡ self.now.states }
        ensures fits { fits self.now ≡ true }
    {
        self.tables.keep()
    }
}
