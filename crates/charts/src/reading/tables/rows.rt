// The rows of the tables: what an arc's says, and whether each is as it should be.
ghost use Rattle.std.specs.Prelude.{◌≡◌, if◌then◌else◌, map, length, Some, None};
ghost use Rattle.std.specs.Option.{option_map};
ghost use Rattle.std.specs.Result.{result_err};
ghost use Rattle.charts.specs.declared.refusals.Refusal.TheVariants.{StateRow, ArcRow};
ghost use Rattle.charts.specs.Arcs.{row_of_arc};
ghost use Rattle.charts.specs.Format.{first_failing};
ghost use Rattle.charts.specs.Views.{row_of, state_row_fits, arc_row_fits};

use super::Tables;
use crate::arcs::Arc;
use crate::refusals::Refusal;
use std::num::NonZeroU8;
use weights::arcs::ArcRecord;

impl<'a> Tables<'a> {
    // The arc of a row's twelve bytes, or none where a chart of these states and letters can have no such row.
    pub(crate) fn read_arc(&self, row: &[u8; 12]) -> Option<Arc>
        ensures { option_map row_of_arc result ≡ (if arc_row_fits (length self.now.marks.now) self.now.letters (row_of row.now) then Some (row_of row.now) else None) }
    {
        let [
            from,
            to,
            letter,
            blank,
            minutes_high,
            minutes_low,
            grade_high,
            grade_low,
            parts_0,
            parts_1,
            parts_2,
            parts_3,
        ] = *row;
        let minutes = u16::from_be_bytes([minutes_high, minutes_low]);
        let grade = u16::from_be_bytes([grade_high, grade_low]);
        let parts = u32::from_be_bytes([parts_0, parts_1, parts_2, parts_3]);
        let record = ArcRecord::new(minutes, grade, parts)?;
        let states = self.marks.len();
        let between_states = usize::from(from) < states && usize::from(to) < states;
        if between_states && letter <= self.letters && blank == 0 {
            Some(Arc {
                from,
                to,
                letter: NonZeroU8::new(letter),
                record,
            })
        } else {
            None
        }
    }

    // Is every state row 0 to 3?
    pub(crate) fn check_states(&self) -> Result<(), Refusal>
        ensures { result_err result ≡ first_failing state_row_fits StateRow 0 self.now.marks.now }
    {
        for (state, mark) in self.marks.iter().enumerate() {
            if *mark > 3 {
                return Err(Refusal::StateRow(state as u16));
            }
        }
        Ok(())
    }

    // Is every arc row that of an arc?
    pub(crate) fn check_arcs(&self) -> Result<(), Refusal>
        ensures { result_err result ≡ first_failing (arc_row_fits (length self.now.marks.now) self.now.letters) ArcRow 0 (map row_of self.now.rows.now) }
    {
        for (arc, row) in self.rows.iter().enumerate() {
            if self.read_arc(row).is_none() {
                return Err(Refusal::ArcRow(arc as u16));
            }
        }
        Ok(())
    }
}
