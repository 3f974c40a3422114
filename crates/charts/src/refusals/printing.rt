// A refusal as its number and its place.
ghost use Rattle.std.specs.Prelude.{Some};
ghost use Rattle.charts.specs.Texts.{refusal_text};

use super::Refusal;
use std::error::Error;
use std::fmt;

impl fmt::Display for Refusal {
    ghost output = { λ e. Some (refusal_text e) };

    fn fmt<W: fmt::Write>(&self, f: &mut fmt::Formatter<W>) -> fmt::Result {
        let number = self.number();
        let place = self.place();
        write!(f, "{number} {place}")
    }
}

impl Error for Refusal {}
