// The chart that keeps the tables.
ghost use Rattle.std.specs.Prelude.{◌≡◌, ◌≤◌, true, length, take};
ghost use Rattle.charts.specs.Held.{view_of, fits};

use super::Tables;
use crate::reading::Chart;

// Copies the rows to the front of a table. One line, with what a caller knows of the front.
fn copy_rows<T: Copy>(table: &mut [T], rows: &[T])
    requires { length rows.now ≤ length table.old }
    ensures { take (length rows.now) table.new ≡ rows.now }
{
    table[..rows.len()].copy_from_slice(rows);
}

impl<'a> Tables<'a> {
    // The chart of tables whose rows fit.
    pub(crate) fn keep(self) -> Chart
        requires { fits (view_of self.marks.now self.letters self.rows.now) ≡ true }
        ensures { result ≡ view_of self.entry.marks.now self.entry.letters self.entry.rows.now }
    {
        let mut marks = [0; 32];
        copy_rows(&mut marks, self.marks);
        let mut rows = [[0; 12]; 512];
        copy_rows(&mut rows, self.rows);
        Chart {
            states: self.marks.len(),
            letters: self.letters,
            arcs: self.rows.len(),
            marks,
            rows,
        }
    }
}
