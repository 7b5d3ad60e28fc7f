//! The greeting that a connection begins with.

ghost use Rattle.std.specs.Prelude.{◌≡◌};
ghost use Rattle.stream_frame.specs.Greetings.{greeting};

use byteorder::{ByteOrder, LittleEndian};
use dcp_types::Address;

/// How many bytes a greeting has.
pub const GREETING_SIZE: usize = 6;

/// How many of them are the ip.
const IP_SIZE: usize = 4;

/// The greeting of a sender: its ip in four bytes and its port in two, the lowest byte first.
pub fn greeting_bytes(from: Address) -> [u8; GREETING_SIZE]
    ensures { result ≡ greeting from }
{
    let mut bytes = [0; GREETING_SIZE];
    LittleEndian::write_u32(&mut bytes, from.ip);
    LittleEndian::write_u16(&mut bytes[IP_SIZE..], from.port);
    bytes
}

/// The sender whose greeting this is.
pub fn greeting_in(bytes: &[u8; GREETING_SIZE]) -> Address
    ensures { greeting result ≡ bytes.now }
{
    Address {
        ip: LittleEndian::read_u32(bytes),
        port: LittleEndian::read_u16(&bytes[IP_SIZE..]),
    }
}
