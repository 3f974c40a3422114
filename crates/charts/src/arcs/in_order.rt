// The arcs of a chart, one after another.
ghost use Rattle.std.specs.Prelude.{◌≡◌, List, length, map, true};
ghost use Rattle.std.specs.Iterator.{YieldsFirstBy, item_count};
ghost use Rattle.charts.specs.Arcs.{row_of_arc};
ghost use Rattle.charts.specs.Held.{all};
ghost use Rattle.charts.specs.Views.{Row, row_of, arc_row_fits};

use super::Arc;
use crate::reading::Tables;
use std::marker::Model;

// The arcs that are still to come, as the rows of a chart's tables.
#[derive(Drop)]
pub struct Arcs<'a> {
    left: Tables<'a>,
}

impl<'a> Model for Arcs<'a> {
    ghost Value = { List Row };

    ghost view = { λ a. map row_of a.left.rows.now };

    ghost invariant = { λ a. all (arc_row_fits (length a.left.marks.now) a.left.letters) (map row_of a.left.rows.now) ≡ true };
}

impl<'a> Arcs<'a> {
    pub(crate) fn new(tables: Tables<'a>) -> Arcs<'a>
        requires { all (arc_row_fits (length tables.marks.now) tables.letters) (map row_of tables.rows.now) ≡ true }
        ensures { result ≡ map row_of tables.entry.rows.now }
    {
        Arcs { left: tables }
    }
}

impl<'a> Iterator for Arcs<'a> {
    type Item = Arc;

    ghost next_gives = { YieldsFirstBy row_of_arc (λ rows. rows) };

    ghost remaining = { item_count (λ rows. rows) };

    fn next(&mut self) -> Option<Arc> {
        let (row, rest) = self.left.rows.split_first()?;
        let arc = self.left.read_arc(row)?;
        self.left.rows = rest;
        Some(arc)
    }
}
