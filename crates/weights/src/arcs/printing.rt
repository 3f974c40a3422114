// A record in words.
ghost use Rattle.std.specs.Prelude.{Some};
ghost use Rattle.weights.specs.Texts.{record_text};

use super::ArcRecord;
use std::fmt;

impl fmt::Display for ArcRecord {
    ghost output = { λ r. Some (record_text r.minutes r.grade r.parts) };

    fn fmt<W: fmt::Write>(&self, f: &mut fmt::Formatter<W>) -> fmt::Result {
        let minutes = self.minutes;
        let grade = self.grade;
        let parts = self.parts;
        write!(f, "{minutes} minutes, grade {grade}, parts {parts:08x}")
    }
}
