//! Numbers and addresses at the front of bytes, the lowest byte first.

ghost use Rattle.std.specs.Prelude.{◌≡◌, ◌<◌, ◌^◌, ◌++◌, length, IfSome, IfNone};
ghost use Rattle.std.specs.Int.{to_le_bytes, w16, w32};
ghost use Rattle.dcp_record.specs.Traces.{address_bytes, IsTraceAddress};

use dcp_types::Address;

/// A number of two bytes, and what is left; none where there are fewer.
pub fn cut_u16(bytes: &[u8]) -> Option<(u16, &[u8])>
    ensures some { IfSome result (λ cut. bytes.now ≡ to_le_bytes w16 cut.0 ++ cut.1.now) }
    ensures fits { IfSome result (λ cut. cut.0 < 2 ^ 16) }
    ensures none { IfNone result (length bytes.now < 2) }
{
    match bytes {
        [low, high, rest @ ..] => Some((u16::from_le_bytes([*low, *high]), rest)),
        _ => None,
    }
}

/// A number of four bytes, and what is left; none where there are fewer.
pub fn cut_u32(bytes: &[u8]) -> Option<(u32, &[u8])>
    ensures some { IfSome result (λ cut. bytes.now ≡ to_le_bytes w32 cut.0 ++ cut.1.now) }
    ensures fits { IfSome result (λ cut. cut.0 < 2 ^ 32) }
    ensures none { IfNone result (length bytes.now < 4) }
{
    match bytes {
        [a, b, c, d, rest @ ..] => Some((u32::from_le_bytes([*a, *b, *c, *d]), rest)),
        _ => None,
    }
}

/// An address of six bytes, and what is left; none where there are fewer.
pub fn cut_address(bytes: &[u8]) -> Option<(Address, &[u8])>
    ensures some { IfSome result (λ cut. bytes.now ≡ address_bytes cut.0 ++ cut.1.now) }
    ensures fits { IfSome result (λ cut. IsTraceAddress cut.0) }
    ensures none { IfNone result (length bytes.now < 6) }
{
    let (ip, after_ip) = cut_u32(bytes)?;
    let (port, rest) = cut_u16(after_ip)?;
    Some((Address { ip, port }, rest))
}
