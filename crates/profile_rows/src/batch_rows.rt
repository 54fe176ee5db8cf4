//! The rows of a batch, one after the other.

ghost use Rattle.std.specs.Prelude.{◌≡◌, length};
ghost use Rattle.std.specs.Iterator.{at_most};
ghost use Rattle.std.specs.Map.Iter.{TakesFirst};
ghost use Rattle.profile_rows.specs.LentRows.{shown_row};

use crate::batch::{Batch, Row};
use std::marker::Model;

/// The rows of a batch in order, each with its stack lent from the batch. A contract sees the rows that are left.
#[derive(Drop)]
pub struct Rows<'a> {
    batch: &'a Batch,
    /// How many rows were given.
    at: usize,
}

impl<'a> Model for Rows<'a> {
    ghost use Rattle.std.specs.Prelude.{◌≤◌, List, drop, length};
    ghost use Rattle.profile_rows.specs.Values.{Row};

    ghost Value = { List Row };

    ghost view = { λ rows. drop rows.at rows.batch.now.rows };

    ghost invariant = { λ rows. rows.at ≤ length rows.batch.now.rows };
}

impl<'a> Rows<'a> {
    /// All rows of a batch.
    pub(crate) fn new(batch: &'a Batch) -> Rows<'a>
        ensures { result ≡ batch.now.rows }
    {
        Rows { batch, at: 0 }
    }
}

impl<'a> Iterator for Rows<'a> {
    type Item = Row<'a>;

    ghost next_gives = { TakesFirst shown_row };

    ghost remaining = { λ rows. at_most (length rows) };

    fn next(&mut self) -> Option<Row<'a>> {
        if self.at == self.batch.len() {
            return None;
        }
        let row = self.batch.row(self.at);
        self.at += 1;
        Some(row)
    }

    fn size_hint(&self) -> (usize, Option<usize>) {
        let left = self.batch.len() - self.at;
        (left, Some(left))
    }
}
