//! The rows of a reference.

ghost use Rattle.std.specs.Prelude.{◌≡◌, ◌<◌, length, ◌==◌, slice_get, Some};

use crate::tables::Table;
use std::marker::Model;

/// Rows of one width, each the outputs of all slaves by slave and then by port. Contracts see the
/// list of the rows.
#[derive(Debug, Drop)]
pub struct Rows {
    table: Table,
}

impl Model for Rows {
    ghost use Rattle.std.specs.Prelude.{List, ℤ};

    ghost Value = { List (List ℤ) };

    ghost view = { λ r. r.table.rows };
}

impl Rows {
    pub(crate) fn from_table(table: Table) -> Rows
        ensures { result ≡ table.rows }
    {
        Rows { table }
    }

    /// The number of rows.
    pub fn len(&self) -> usize
        ensures { result ≡ length self.now }
    {
        self.table.len()
    }

    /// Whether there is no row.
    pub fn is_empty(&self) -> bool
        ensures { result ≡ (length self.now == 0) }
    {
        self.table.len() == 0
    }

    /// The row at this place, from 0: the outputs of all slaves, by slave and then by port.
    pub fn row(&self, place: usize) -> &[i128]
        requires { place < length self.now }
        ensures { slice_get self.now place ≡ Some result.now }
    {
        self.table.row(place)
    }
}
