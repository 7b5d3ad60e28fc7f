//! How a table writes a text on one line.

use std::alloc::{AllocError, Global};

/// The begin of a scenario.
const HEAD: &[u8] = b"steps 3\nmaster 127.0.0.1 9000\n";

/// A scenario of one slave, which counts the steps.
const COUNT: &[u8] =
    b"steps 3\nmaster 127.0.0.1 9000\nslave count\nuuid 00000000-0000-0000-0000-000000000001\naddress 127.0.0.1 9001\nmodel counter 1000\noutput 1 uint32\n";

/// A scenario of two slaves: an amplifier and an integrator in a ring.
const RING: &[u8] =
    b"steps 5\nmaster 127.0.0.1 9000\nslave amp\nuuid 00000000-0000-0000-0000-000000000001\naddress 127.0.0.1 9001\nmodel gain 131072\ninput 1 int32\noutput 2 int32\nslave acc\nuuid 00000000-0000-0000-0000-000000000002\naddress 127.0.0.1 9002\nmodel integrator 10 32768\ninput 1 int32\noutput 2 int32\nwire amp 0 acc 0\nwire acc 0 amp 0\n";

/// The text that a cell writes on one line: `;` is a line feed, `^` a carriage return, `~` a byte that no
/// text has, and `@`, `$` and `&` are the texts `HEAD`, `COUNT` and `RING`.
pub fn unfolded(alloc: Global, cell: &str) -> Result<Vec<u8>, AllocError> {
    let mut text = Vec::new(alloc);
    for byte in cell.as_bytes() {
        match *byte {
            b';' => text.extend_from_slice(b"\n")?,
            b'^' => text.extend_from_slice(b"\r")?,
            b'~' => text.extend_from_slice(b"\xff")?,
            b'@' => text.extend_from_slice(HEAD)?,
            b'$' => text.extend_from_slice(COUNT)?,
            b'&' => text.extend_from_slice(RING)?,
            byte => text.extend_from_slice(&[byte])?,
        }
    }
    Ok(text)
}

/// Appends a text on one line.
pub fn tell_folded(told: &mut String, text: &str) -> Result<(), AllocError> {
    for sign in text.chars() {
        let folded = match sign {
            '\n' => ';',
            '\r' => '^',
            sign => sign,
        };
        told.push(folded)?;
    }
    Ok(())
}
