// The number of letters and the two tables of a chart, lent by its file or by the chart that keeps them, and the questions that
// their rows answer.
mod find;
mod keep;
mod rows;

ghost use Rattle.std.specs.Prelude.{◌≤◌, length};

// A byte for each state, and twelve for each arc: no more than a chart may have.
#[derive(Clone, Copy)]
pub(crate) struct Tables<'a> {
    pub(crate) letters: u8,
    pub(crate) marks: &'a [u8],
    pub(crate) rows: &'a [[u8; 12]],
    ghost few: { (length marks.now ≤ 32) × (length rows.now ≤ 512) },
}
