//! The message that a name names.

ghost use Rattle.std.specs.Prelude.{◌≡◌};
ghost use Rattle.pdu_text.specs.Lines.{code_named};
ghost use Rattle.pdu_text.specs.Scan.{is_named};

use pdu_layout::listed_row;

/// How many type codes there may be, one for each byte.
const TYPE_CODES: u16 = 256;

/// Whether the message with this type code has this name.
#[tactic(auto, unfolding(crate::specs::Scan::is_named))]
fn is_named(code: u8, word: &[u8]) -> bool
    ensures { result ≡ is_named code word.now }
{
    match listed_row(code) {
        Some(row) => word == row.name.as_bytes(),
        None => false,
    }
}

/// The type code of the message with this name.
pub fn code_of(word: &[u8]) -> Option<u8>
    ensures { result ≡ code_named word.now }
{
    for code in 0..TYPE_CODES {
        if is_named(code as u8, word) {
            return Some(code as u8);
        }
    }
    None
}
