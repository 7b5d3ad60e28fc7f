//! Why the text of a message is refused.

ghost use Rattle.std.specs.Prelude.{◌≡◌};
ghost use Rattle.pdu_text.specs.declared.reasons.PduTextRefused.TheVariants.{OutOfMemory, Line};
ghost use Rattle.pdu_text.specs.Reasons.{why_word};

use dcp_types::OutOfMemory;
use std::alloc::{AllocError, AllocFailed};
use thiserror::Error;

/// The first rule that a text breaks, word by word from the left.
#[derive(Clone, Copy, Debug, PartialEq, Eq, Error)]
pub enum PduTextWhy {
    /// The text is not UTF-8.
    #[error("the text is not UTF-8")]
    NotUtf8,
    /// The first word is the name of no message, or a word is not the next field's name and `=`.
    #[error("a word names no message or not the next field")]
    UnknownKey,
    /// There is no word, the words end before the fields, or a word or a second line with a word is
    /// left over.
    #[error("a word is missing or left over")]
    Words,
    /// A value is no number, no name of a state, no address or no even count of hexadecimal digits.
    #[error("a value does not read")]
    BadNumber,
    /// A value is no identity.
    #[error("an identity does not read")]
    BadUuid,
    /// A number is outside its field, or the message has more than 1,024 bytes.
    #[error("a number is outside its field, or the message is too long")]
    Limit,
}

impl PduTextWhy {
    /// The printed word, in capitals.
    pub fn word(self) -> &'static str
        ensures { result.now ≡ why_word self }
    {
        match self {
            PduTextWhy::NotUtf8 => "NOT_UTF8",
            PduTextWhy::UnknownKey => "UNKNOWN_KEY",
            PduTextWhy::Words => "WORDS",
            PduTextWhy::BadNumber => "BAD_NUMBER",
            PduTextWhy::BadUuid => "BAD_UUID",
            PduTextWhy::Limit => "LIMIT",
        }
    }
}

/// Why the text of a message was not read. The text is one line, line 1.
#[derive(Clone, Copy, Debug, PartialEq, Eq, Error)]
pub enum PduTextRefused {
    /// The first rule that it breaks.
    #[error("line 1: {why}")]
    Line { why: PduTextWhy },
    #[error("out of memory")]
    OutOfMemory,
}

impl From<PduTextWhy> for PduTextRefused {
    ghost from_gives = { λ why e. e ≡ Line why };

    fn from(why: PduTextWhy) -> PduTextRefused {
        PduTextRefused::Line { why }
    }
}

impl From<OutOfMemory> for PduTextRefused {
    ghost from_gives = { λ _ e. e ≡ OutOfMemory };

    fn from(_error: OutOfMemory) -> PduTextRefused {
        PduTextRefused::OutOfMemory
    }
}

impl From<AllocError> for PduTextRefused {
    ghost from_gives = { λ _ e. e ≡ OutOfMemory };

    fn from(_error: AllocError) -> PduTextRefused {
        PduTextRefused::OutOfMemory
    }
}

impl<T: Drop> From<AllocFailed<T>> for PduTextRefused {
    ghost from_gives = { λ _ e. e ≡ OutOfMemory };

    fn from(_error: AllocFailed<T>) -> PduTextRefused {
        PduTextRefused::OutOfMemory
    }
}
