//! The values of inputs in payloads.

ghost use Rattle.std.specs.Prelude.{◌≡◌, ◌+◌, ◌≤◌, ◌<◌, ◌/◌, ℕ, ℤ, Option, None, length, slice_index_or, All};
ghost use Rattle.fixed_models.specs.Domains.{IsInput};
ghost use Rattle.slave_device.specs.declared.tables.Segment.{Segment};
ghost use Rattle.slave_device.specs.Wires.Receiving.{segment_value, input_after, is_kept_for, wants};

use crate::addresses::is_from;
use crate::numbers::{in_run, number_after};
use crate::tables::{INPUTS, InputRow, Segment};
use dcp_types::{Address, get_value};

/// The value that stands there in a payload; 0 where the payload ends before it.
pub(crate) fn segment_value(segment: Segment, payload: &[u8]) -> i128
    ensures value { result ≡ segment_value segment payload.now }
    ensures input { IsInput result }
{
    let from = segment.offset as usize;
    let end = from + segment.kind.width();
    if end <= payload.len() {
        get_value(segment.kind, &payload[from..end])
    } else {
        0
    }
}

/// The value of an input after a payload of an id.
pub(crate) fn value_after(segment: Option<Segment>, id: u16, payload: &[u8], before: i128) -> i128
    requires { IsInput before }
    ensures value { result ≡ input_after segment id payload.now before }
    ensures input { IsInput result }
{
    match segment {
        Some(segment) if segment.id == id => segment_value(segment, payload),
        _ => before,
    }
}

/// Takes the values of the first so many inputs that stand in a payload of this id.
pub(crate) fn take_values(
    segments: &[Option<Segment>; INPUTS],
    count: usize,
    id: u16,
    payload: &[u8],
    values: &mut [i128; INPUTS],
)
    requires count { count ≤ 8 }
    requires inputs { All IsInput values.old }
    ensures inputs { All IsInput values.new }
    ensures length { length values.new ≡ length values.old }
    ensures values { (k : ℕ) (e : Option Segment) (z : ℤ) → k < count
        → slice_index_or values.new k z ≡ input_after (slice_index_or segments.now k e) id payload.now (slice_index_or values.old k z) }
{
    for i in 0..count {
        values[i] = value_after(segments[i], id, payload, values[i]);
    }
}

/// Whether the payload kept last is the one for so many steps.
pub(crate) fn is_kept_for(kept: Option<u32>, steps: u32, interval: u32) -> bool
    ensures { result ≡ is_kept_for (steps / interval) kept }
{
    match kept {
        Some(ordinal) => ordinal == in_run(steps, interval),
        None => false,
    }
}

/// Whether a data message of this size is the one that the id takes after so many steps.
pub(crate) fn wants(row: InputRow, from: Address, number: u16, size: usize, steps: u32) -> bool
    ensures { result ≡ wants row from number size steps }
{
    is_from(row.source, from)
        && size == row.size as usize
        && number == number_after(row.base, steps, row.interval)
        && !is_kept_for(row.kept, steps, row.interval)
}
