// Finding the tables in a file.
ghost use Rattle.std.specs.Prelude.{◌≡◌, Err, MatchResult};
ghost use Rattle.charts.specs.Format.{decoded};
ghost use Rattle.charts.specs.Tabled.{Found};

use super::Tables;
use crate::reading::header::Header;
use crate::refusals::Refusal;

impl<'a> Tables<'a> {
    // The tables of a file that passes the first four questions.
    pub(crate) fn find(file: &'a [u8]) -> Result<Tables<'a>, Refusal>
        ensures { MatchResult result (λ t. Found file.now t.letters t.marks.now t.rows.now) (λ e. decoded file.now ≡ Err e) }
    {
        let (header, rest) = Header::split(file)?;
        if !header.total_fits(file.len()) {
            return Err(Refusal::Total);
        }
        if !header.within_limits() {
            return Err(Refusal::Limits);
        }
        if !header.tables_fit() {
            return Err(Refusal::Tables);
        }
        let (marks, rows) = header.tables(rest);
        Ok(Tables {
            letters: header.letters as u8,
            marks,
            rows,
        })
    }
}
