//! Identities as words.

ghost use Rattle.std.specs.Prelude.{◌≡◌};
ghost use Rattle.text_lines.specs.Identities.{identity};

use crate::reasons::TextWhy;
use uuid::Uuid;

/// The identity that a word is, its first byte the most significant: 32 hexadecimal digits; these with
/// hyphens as 8-4-4-4-12, alone, in braces, or behind `urn:uuid:`. `BadUuid` where it is none.
pub fn identity(word: &[u8]) -> Result<u128, TextWhy>
    ensures { result ≡ identity word.now }
{
    match Uuid::try_parse_ascii(word) {
        Ok(uuid) => Ok(uuid.as_u128()),
        Err(_) => Err(TextWhy::BadUuid),
    }
}
