// The header of a chart's file, and the questions that it answers.
ghost use Rattle.std.specs.Prelude.{◌≡◌, ◌+◌, ◌-◌, ◌<◌, ◌≤◌, true, length, take, drop, MatchResult};
ghost use Rattle.std.specs.Simd.{first_chunks};
ghost use Rattle.charts.specs.declared.refusals.Refusal.TheVariants.{ShortFile};
ghost use Rattle.charts.specs.Format.{header, total_fits, tables_fit};
ghost use Rattle.charts.specs.Views.{within_limits};

use crate::refusals::Refusal;

// How many states, letters and arcs there are, where the state rows and the arc rows begin, and the file's length.
#[derive(Clone, Copy)]
pub(super) struct Header {
    pub(super) states: u16,
    pub(super) letters: u16,
    pub(super) arcs: u16,
    pub(super) marks: u16,
    pub(super) rows: u16,
    pub(super) total: u16,
}

impl Header {
    // The header of a file, and the bytes behind it.
    pub(super) fn split(file: &[u8]) -> Result<(Header, &[u8]), Refusal>
        ensures { MatchResult result (λ p. (12 ≤ length file.now) × (p.0 ≡ header file.now) × (p.1.now ≡ drop 12 file.now)) (λ e. (length file.now < 12) × (e ≡ ShortFile)) }
    {
        let [
            states_high,
            states_low,
            letters_high,
            letters_low,
            arcs_high,
            arcs_low,
            marks_high,
            marks_low,
            rows_high,
            rows_low,
            total_high,
            total_low,
            rest @ ..,
        ] = file
        else {
            return Err(Refusal::ShortFile);
        };
        let header = Header {
            states: u16::from_be_bytes([*states_high, *states_low]),
            letters: u16::from_be_bytes([*letters_high, *letters_low]),
            arcs: u16::from_be_bytes([*arcs_high, *arcs_low]),
            marks: u16::from_be_bytes([*marks_high, *marks_low]),
            rows: u16::from_be_bytes([*rows_high, *rows_low]),
            total: u16::from_be_bytes([*total_high, *total_low]),
        };
        Ok((header, rest))
    }

    // Is the total the file's length, and not too large?
    pub(super) fn total_fits(self, length: usize) -> bool
        ensures { result ≡ total_fits self «length» }
    {
        usize::from(self.total) == length && self.total <= 8192
    }

    // Are the numbers of states, letters and arcs within the limits of a chart?
    pub(super) fn within_limits(self) -> bool
        ensures { result ≡ within_limits self.states self.letters self.arcs }
    {
        (1..=32).contains(&self.states) && (1..=15).contains(&self.letters) && self.arcs <= 512
    }

    // Do both tables lie between the header and the end, sharing no byte?
    pub(super) fn tables_fit(self) -> bool
        ensures { result ≡ tables_fit self }
    {
        let total = usize::from(self.total);
        let marks = usize::from(self.marks);
        let marks_end = marks + usize::from(self.states);
        let rows = usize::from(self.rows);
        let rows_end = rows + 12 * usize::from(self.arcs);
        let apart = marks_end.min(rows_end) <= marks.max(rows);
        12 <= marks && marks_end <= total && 12 <= rows && rows_end <= total && apart
    }

    // The state rows and the arc rows, which the bytes behind the header hold.
    pub(super) fn tables(self, rest: &[u8]) -> (&[u8], &[[u8; 12]])
        requires tables { tables_fit self ≡ true }
        requires whole { self.total ≡ 12 + length rest.now }
        ensures marks { result.0.now ≡ take self.states (drop (self.marks - 12) rest.now) }
        ensures rows { result.1.now ≡ first_chunks 12 self.arcs (drop (self.rows - 12) rest.now) }
    {
        let marks = usize::from(self.marks) - 12;
        let rows = usize::from(self.rows) - 12;
        let row_bytes = &rest[rows..rows + 12 * usize::from(self.arcs)];
        let (rows, _) = row_bytes.as_chunks::<12>();
        (&rest[marks..marks + usize::from(self.states)], rows)
    }
}
