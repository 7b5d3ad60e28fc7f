//! What stands in a stream.

ghost use Rattle.std.specs.Prelude.{◌≡◌, ◌+◌, ◌++◌, length, drop};
ghost use Rattle.stream_frame.specs.Frames.{IsFrame, in_stream};

use byteorder::{ByteOrder, LittleEndian};

/// How many bytes a length has in a stream.
pub const LENGTH_SIZE: usize = 4;

/// The most bytes of a frame.
pub const LONGEST_FRAME: usize = 1_024;

/// The room that any frame fits into, with its length.
pub const FRAME_ROOM: usize = LENGTH_SIZE + LONGEST_FRAME;

/// What the bytes that a reader holds begin with.
#[derive(Clone, Copy, Debug, PartialEq, Eq)]
pub enum Frame {
    /// A whole frame, which is handed out.
    Whole,
    /// No whole frame: more bytes are wanted.
    NotYet,
    /// A length that no frame has: 0, or above 1,024.
    Bad { length: u32 },
}

/// Writes a message of 1 to 1,024 bytes as a frame to the front of the room: its length in four bytes, the
/// lowest first, and then its bytes. Answers how many bytes it wrote.
pub fn put_frame(pdu: &[u8], room: &mut [u8; FRAME_ROOM]) -> usize
    requires { IsFrame pdu.now }
    ensures count { result ≡ 4 + length pdu.now }
    ensures bytes { room.new ≡ in_stream pdu.now ++ drop result room.old }
{
    let end = LENGTH_SIZE + pdu.len();
    LittleEndian::write_u32(room, pdu.len() as u32);
    room[LENGTH_SIZE..end].copy_from_slice(pdu);
    end
}
