//! Data ids in order.

ghost use Rattle.std.specs.Prelude.{◌≡◌, ◌≤◌, ◌<◌, ◌+◌, [], length, slice_index, IfOk};
ghost use Rattle.std.specs.List.{insert};
ghost use Rattle.slave_device.specs.Wires.Ids.{IsFound};

use dcp_types::OutOfMemory;
use std::alloc::Global;
use std::marker::Model;

/// A slave has room for so many output ids, and has fewer input ids.
pub(crate) const IDS: usize = 17;

/// Data ids, ascending, with room for 17.
#[derive(Drop)]
pub(crate) struct DataIds {
    ids: Vec<u16>,
}

impl Model for DataIds {
    ghost use Rattle.std.specs.Prelude.{List, ℕ, ◌≤◌, length, vec_capacity};

    ghost Value = { List ℕ };

    ghost view = { λ s. s.ids.items };

    ghost invariant = { λ s. (17 ≤ vec_capacity s.ids) × (length s.ids.items ≤ 17) };
}

impl DataIds {
    pub(crate) fn new(alloc: Global) -> Result<DataIds, OutOfMemory>
        ensures { IfOk result (λ s. s ≡ []) }
    {
        let ids = Vec::with_capacity(alloc, IDS)?;
        Ok(DataIds { ids })
    }

    pub(crate) fn clear(&mut self)
        ensures { self.new ≡ [] }
    {
        self.ids.clear();
    }

    pub(crate) fn len(&self) -> usize
        ensures length { result ≡ length self.now }
        ensures few { result ≤ 17 }
    {
        self.ids.len()
    }

    /// The place of an id, or the place where it would be put.
    pub(crate) fn find(&self, id: u16) -> Result<usize, usize>
        ensures { IsFound self.now id result }
    {
        for (i, other) in self.ids.iter().enumerate() {
            if *other == id {
                return Ok(i);
            }
            if *other > id {
                return Err(i);
            }
        }
        Err(self.ids.len())
    }

    pub(crate) fn at(&self, i: usize) -> u16
        requires { i < length self.now }
        ensures { result ≡ slice_index self.now i }
    {
        self.ids[i]
    }

    /// Puts an id at a place.
    pub(crate) fn insert(&mut self, i: usize, id: u16)
        requires within { i ≤ length self.old }
        requires room { length self.old < 17 }
        ensures { self.new ≡ insert self.old i id }
    {
        if self.ids.insert(i, id).is_err() {
            unreachable!();
        }
    }
}
