// An arc in words.
ghost use Rattle.std.specs.Prelude.{Some};
ghost use Rattle.charts.specs.Arcs.{row_of_arc};
ghost use Rattle.charts.specs.Texts.{row_text};

use super::Arc;
use std::fmt;

impl fmt::Display for Arc {
    ghost output = { λ a. Some (row_text (row_of_arc a)) };

    fn fmt<W: fmt::Write>(&self, f: &mut fmt::Formatter<W>) -> fmt::Result {
        let Arc {
            from,
            to,
            letter,
            record,
        } = *self;
        write!(f, "{from} -> {to} ")?;
        match letter {
            Some(letter) => write!(f, "letter {letter}")?,
            None => write!(f, "silent")?,
        }
        write!(f, ", {record}")
    }
}
