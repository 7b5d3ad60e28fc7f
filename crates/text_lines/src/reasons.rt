//! Why a text is refused.

ghost use Rattle.std.specs.Prelude.{◌≡◌, Some};
ghost use Rattle.std.specs.Fmt.{padded};
ghost use Rattle.text_lines.specs.declared.reasons.LineRefused.TheVariants.{OutOfMemory, Why};
ghost use Rattle.text_lines.specs.Causes.{cause_word};

use dcp_types::OutOfMemory;
use std::alloc::{AllocError, AllocFailed};
use std::{error, fmt};
use thiserror::Error;

/// Why a line of a description or of a scenario is refused. The order is that in which causes are
/// listed to users; it is not the order of the judging.
#[derive(Clone, Copy, Debug, PartialEq, Eq)]
pub enum TextWhy {
    /// The line is not UTF-8.
    NotUtf8,
    /// The first word is no key of this kind of text.
    UnknownKey,
    /// The key belongs to an earlier section.
    Order,
    /// A required key is absent where its block or section closes, or a block has not begun.
    Missing,
    /// The numbers of inputs and outputs do not fit the kind of model.
    Ports,
    /// A number is out of its range, or there are too many of something.
    Limit,
    /// What comes once came before.
    Repeated,
    /// The number of words does not fit the key.
    Words,
    /// A word is no name.
    BadName,
    /// A word is no number, address, protocol or type code.
    BadNumber,
    /// A word is no identity.
    BadUuid,
    /// A word is no kind of model.
    UnknownModel,
    /// A word is none of the eight types.
    UnsupportedType,
    /// No slave has this name or number.
    UnknownSlave,
    /// The slave has no such port or parameter.
    UnknownPort,
    /// The address came before.
    SameAddress,
    /// The kind refuses its parameters.
    Parameters,
    /// The two ports of a wire differ in type.
    TypeMismatch,
    /// The input has a wire.
    TwoWires,
    /// No wire goes from the one slave to the other.
    NoWire,
}

impl TextWhy {
    /// The printed word, in capitals.
    pub fn word(self) -> &'static str
        ensures { result.now ≡ cause_word self }
    {
        match self {
            TextWhy::NotUtf8 => "NOT_UTF8",
            TextWhy::UnknownKey => "UNKNOWN_KEY",
            TextWhy::Order => "ORDER",
            TextWhy::Missing => "MISSING",
            TextWhy::Ports => "PORTS",
            TextWhy::Limit => "LIMIT",
            TextWhy::Repeated => "REPEATED",
            TextWhy::Words => "WORDS",
            TextWhy::BadName => "BAD_NAME",
            TextWhy::BadNumber => "BAD_NUMBER",
            TextWhy::BadUuid => "BAD_UUID",
            TextWhy::UnknownModel => "UNKNOWN_MODEL",
            TextWhy::UnsupportedType => "UNSUPPORTED_TYPE",
            TextWhy::UnknownSlave => "UNKNOWN_SLAVE",
            TextWhy::UnknownPort => "UNKNOWN_PORT",
            TextWhy::SameAddress => "SAME_ADDRESS",
            TextWhy::Parameters => "PARAMETERS",
            TextWhy::TypeMismatch => "TYPE_MISMATCH",
            TextWhy::TwoWires => "TWO_WIRES",
            TextWhy::NoWire => "NO_WIRE",
        }
    }
}

impl fmt::Display for TextWhy {
    ghost output = { λ why. Some (cause_word why) };

    ghost styled_output = { λ why spec. Some (padded spec (cause_word why)) };

    fn fmt<W: fmt::Write>(&self, f: &mut fmt::Formatter<W>) -> fmt::Result {
        f.pad(self.word())
    }
}

impl error::Error for TextWhy {}

/// Where a text is refused, and why.
#[derive(Clone, Copy, Debug, PartialEq, Eq, Error)]
#[error("line {line}: {why}")]
pub struct TextFault {
    /// Counted from 1, every line of the text counting, comments and empty lines too. The end of the
    /// text is the line after the last. A line past 4,294,967,295 is told as that number.
    pub line: u32,
    pub why: TextWhy,
}

/// Why a text was not read.
#[derive(Clone, Copy, Debug, PartialEq, Eq, Error)]
pub enum TextRefused {
    /// The first line that is refused.
    #[error("{0}")]
    Fault(TextFault),
    #[error("out of memory")]
    OutOfMemory,
}

/// Why a line was not taken.
#[derive(Clone, Copy, Debug, PartialEq, Eq, Error)]
pub enum LineRefused {
    #[error("{0}")]
    Why(TextWhy),
    #[error("out of memory")]
    OutOfMemory,
}

impl From<TextWhy> for LineRefused {
    ghost from_gives = { λ why e. e ≡ Why why };

    fn from(why: TextWhy) -> LineRefused {
        LineRefused::Why(why)
    }
}

impl From<OutOfMemory> for LineRefused {
    ghost from_gives = { λ _ e. e ≡ OutOfMemory };

    fn from(_error: OutOfMemory) -> LineRefused {
        LineRefused::OutOfMemory
    }
}

impl From<AllocError> for LineRefused {
    ghost from_gives = { λ _ e. e ≡ OutOfMemory };

    fn from(_error: AllocError) -> LineRefused {
        LineRefused::OutOfMemory
    }
}

impl<T: Drop> From<AllocFailed<T>> for LineRefused {
    ghost from_gives = { λ _ e. e ≡ OutOfMemory };

    fn from(_error: AllocFailed<T>) -> LineRefused {
        LineRefused::OutOfMemory
    }
}
