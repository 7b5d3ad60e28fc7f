//! Rows of one width, stored one behind the other, and the row that is begun behind them.

ghost use Rattle.std.specs.Prelude.{◌≡◌, ◌≤◌, ◌<◌, [], ◌∷◌, ◌++◌, length, IfOk, OnOk, OnErr, slice_get, slice_index_or, pos, Some, ◌+◌, take, drop};

use dcp_types::OutOfMemory;
use std::alloc::Global;
use std::marker::Model;

/// Rows of one width, and the values of the row that is begun. A row is put together where it will
/// stand, so that nothing is copied once it is there. Contracts see the width, the list of the rows,
/// and the begun row.
#[derive(Debug, Drop)]
pub(crate) struct Table {
    width: usize,
    count: usize,
    values: Vec<i128>,
}

impl Model for Table {
    ghost use Rattle.std.specs.Prelude.{◌≤◌, ◌<◌, ◌*◌, length};
    ghost use Rattle.lockstep.specs.Cut.{cut, behind_rows, Grid};

    ghost Value = { Grid };

    ghost view = { λ t. record { width = t.width; rows = cut t.width t.count t.values.items; begun = behind_rows t.width t.count t.values.items } };

    ghost invariant = { λ t. (t.count * t.width ≤ length t.values.items) × (0 < t.width) };
}

impl Table {
    /// No row yet, none begun, and room for so many rows of this width.
    pub(crate) fn with_room(alloc: Global, width: usize, room: usize) -> Result<Table, OutOfMemory>
        requires { 0 < width }
        ensures { IfOk result (λ table. table ≡ record { width = width; rows = []; begun = [] }) }
    {
        let values = Vec::with_capacity(alloc, width.saturating_mul(room))?;
        Ok(Table {
            width,
            count: 0,
            values,
        })
    }

    /// The number of rows.
    pub(crate) fn len(&self) -> usize
        ensures { result ≡ length self.now.rows }
    {
        self.count
    }

    /// The row at this place, from 0.
    pub(crate) fn row(&self, place: usize) -> &[i128]
        requires { place < length self.now.rows }
        ensures row { slice_get self.now.rows place ≡ Some result.now }
        ensures width { length result.now ≡ self.now.width }
    {
        let values = self.values.as_slice();
        part(values, place * self.width, self.width)
    }

    /// The value in this column of the row at this place, both from 0.
    #[tactic(auto, using(crate::proofs::Cuts::cells))]
    pub(crate) fn value(&self, place: usize, column: usize) -> i128
        requires place { place < length self.now.rows }
        requires column { column < self.now.width }
        ensures { result ≡ slice_index_or (slice_index_or self.now.rows place []) column (pos 0) }
    {
        self.values[place * self.width + column]
    }

    /// Puts a value behind the row that is begun.
    pub(crate) fn put(&mut self, value: i128) -> Result<(), OutOfMemory>
        ensures added { OnOk result (self.new ≡ record self.old { begun = self.old.begun ++ value ∷ [] }) }
        ensures kept { OnErr result (self.new ≡ self.old) }
    {
        self.values.push(value)?;
        Ok(())
    }

    /// Makes the row that is begun the last row, and begins another. It takes no memory.
    pub(crate) fn close(&mut self)
        requires { length self.old.begun ≡ self.old.width }
        ensures { self.new ≡ record { width = self.old.width; rows = self.old.rows ++ self.old.begun ∷ []; begun = [] } }
    {
        self.count += 1;
    }
}

fn part(values: &[i128], from: usize, count: usize) -> &[i128]
    requires { from + count ≤ length values.now }
    ensures { result.now ≡ take count (drop from values.now) }
{
    &values[from..from + count]
}
