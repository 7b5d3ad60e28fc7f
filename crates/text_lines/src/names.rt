//! Names as words.

ghost use Rattle.std.specs.Prelude.{◌≡◌};
ghost use Rattle.text_lines.specs.Outcomes.{Gives};
ghost use Rattle.text_lines.specs.Names.{name};

use crate::reasons::{LineRefused, TextWhy};
use dcp_types::{Name, is_name};
use std::alloc::Global;

/// The name that a word is; `BadName` where it is none.
pub fn name(alloc: Global, word: &[u8]) -> Result<Name, LineRefused>
    ensures { Gives (λ n. n) result (name word.now) }
{
    if !is_name(word) {
        return Err(LineRefused::Why(TextWhy::BadName));
    }
    match str::from_utf8(word) {
        Ok(text) => Ok(Name::from_string(String::from_str(alloc, text)?)),
        Err(_) => Err(LineRefused::Why(TextWhy::BadName)),
    }
}
