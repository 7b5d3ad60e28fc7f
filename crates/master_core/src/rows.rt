//! The rows that came: the outputs of all slaves, by slave and then by port.

ghost use Rattle.std.specs.Prelude.{◌≡◌, ◌≤◌, ◌<◌, ◌+◌, ◌*◌, ◌++◌, ◌∷◌, [], length, take, drop, IfOk, Some, None, option_map, slice_get, vec_capacity};
ghost use Rattle.std.specs.Option.{option_and_then};
ghost use Rattle.master_spec.specs.Course.{values_in};

use dcp_types::{DataType, OutOfMemory, get_value};
use std::alloc::Global;

/// Rows of one width, with room for all of them.
#[derive(Debug, Drop)]
pub(crate) struct Rows {
    /// How many values a row has: at most 128.
    pub width: usize,
    /// How many rows there are.
    pub counted: u32,
    /// Row after row.
    pub values: Vec<i128>,
    ghost small: { width ≤ 128 },
}

impl Rows {
    /// Room for so many rows of this width.
    pub fn new(alloc: Global, width: usize, count: usize) -> Result<Rows, OutOfMemory>
        requires width { width ≤ 128 }
        requires count { count ≤ 10000100 }
        ensures width { IfOk result (λ rows. rows.width ≡ width) }
        ensures counted { IfOk result (λ rows. rows.counted ≡ 0) }
        ensures values { IfOk result (λ rows. rows.values.items ≡ []) }
        ensures room { IfOk result (λ rows. width * count ≤ vec_capacity rows.values) }
    {
        let values = Vec::with_capacity(alloc, width * count)?;
        Ok(Rows {
            width,
            counted: 0,
            values,
        })
    }

    /// The values of a row; none where there is no such row.
    pub fn row(&self, row: u32) -> Option<&[i128]>
        ensures past { self.now.counted ≤ row → result ≡ None }
        ensures within { row < self.now.counted → row * self.now.width + self.now.width ≤ length self.now.values.items → option_map (λ values. values.now) result ≡ Some (take self.now.width (drop (row * self.now.width) self.now.values.items)) }
    {
        if row < self.counted {
            let from = row as usize * self.width;
            self.values.as_slice().get(from..from + self.width)
        } else {
            None
        }
    }
}

/// The value at this place of a row; none where there is no such row or place.
pub(crate) fn value_in(row: Option<&[i128]>, column: usize) -> Option<i128>
    ensures { result ≡ option_and_then (λ values. slice_get values column) (option_map (λ values. values.now) row.entry) }
{
    match row {
        Some(values) => values.get(column).copied(),
        None => None,
    }
}

/// Puts a value behind the others. `Rows::new` made room for all.
fn put(value: i128, values: &mut Vec<i128>)
    ensures items { length values.old.items < vec_capacity values.old → values.new.items ≡ values.old.items ++ value ∷ [] }
    ensures room { vec_capacity values.new ≡ vec_capacity values.old }
{
    if values.len() < values.capacity() {
        values.push_reserved(value);
    }
}

/// Puts the values of a payload behind the others, each in its type's width.
pub(crate) fn put_values(types: &[DataType], payload: &[u8], values: &mut Vec<i128>)
    requires few { length types.now ≤ 8 }
    requires long { 64 ≤ length payload.now }
    ensures items { length values.old.items + length types.now ≤ vec_capacity values.old → values.new.items ≡ values.old.items ++ values_in types.now payload.now }
    ensures room { vec_capacity values.new ≡ vec_capacity values.old }
{
    let mut at = 0;
    for kind in types {
        let end = at + kind.width();
        put(get_value(*kind, &payload[at..end]), values);
        at = end;
    }
}
