//! The payloads of data messages.

ghost use Rattle.std.specs.Prelude.{◌≡◌, ◌+◌, ◌*◌, ◌≤◌, ◌<◌, ◌++◌, IsTrue, length, take};
ghost use Rattle.std.specs.List.{flat_map};
ghost use Rattle.dcp_types.specs.Values.{width, fits};
ghost use Rattle.pdu_layout.specs.Reading.{spelling};
ghost use Rattle.slave_spec.specs.Payloads.{data_message};
ghost use Rattle.slave_device.specs.Wires.Payloads.{value_for, place_bytes};

use crate::places::{POSITIONS, PortPlace};
use dcp_types::{fits, put_value};
use pdu_codec::encode;
use pdu_layout::Pdu;

/// A payload that is sent has at most so many bytes: each position has 8 at most.
pub(crate) const PAYLOAD: usize = 8 * POSITIONS;

/// The value of an output, where it is there and lies in its type; 0 else.
fn value_for(outputs: &[i128], place: PortPlace) -> i128
    ensures value { result ≡ value_for outputs.now place }
    ensures fits { IsTrue (fits place.kind result) }
{
    match outputs.get(place.index) {
        Some(value) if fits(place.kind, *value) => *value,
        _ => 0,
    }
}

/// Writes the value of one position, and answers where the next one begins.
fn write_value(place: PortPlace, outputs: &[i128], room: &mut [u8; PAYLOAD], at: usize) -> usize
    requires { at + 8 ≤ 64 }
    ensures end { result ≡ at + width place.kind }
    ensures bytes { take result room.new ≡ take at room.old ++ place_bytes outputs.now place }
{
    let end = at + place.kind.width();
    put_value(place.kind, value_for(outputs, place), &mut room[at..end]);
    end
}

/// Writes the values at these places, one after the other, and answers how many bytes they have.
pub(crate) fn write_payload(
    places: &[PortPlace],
    outputs: &[i128],
    room: &mut [u8; PAYLOAD],
) -> usize
    requires { length places.now ≤ 8 }
    ensures few { result ≤ 64 }
    ensures bytes { take result room.new ≡ flat_map (place_bytes outputs.now) places.now }
{
    let mut at = 0;
    for place in places {
        at = write_value(*place, outputs, room, at);
    }
    at
}

/// Writes a data message to the front of the room, and answers how many bytes it has.
pub(crate) fn put_data(seq: u16, data_id: u16, payload: &[u8], room: &mut [u8; 1024]) -> usize
    requires { length payload.now ≤ 64 }
    ensures some { 1 ≤ result }
    ensures few { result ≤ 1024 }
    ensures bytes { take result room.new ≡ spelling (data_message seq data_id payload.now) }
{
    encode(
        &Pdu::DataIo {
            seq,
            data_id,
            payload,
        },
        room,
    )
}
