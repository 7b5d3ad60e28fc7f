//! Why bytes are no trace.

ghost use Rattle.std.specs.Prelude.{◌≡◌, Some};
ghost use Rattle.std.specs.Fmt.{padded};
ghost use Rattle.dcp_record.specs.Words.{trace_word};

use std::{error, fmt};
use thiserror::Error;

/// Why bytes are no trace.
#[derive(Clone, Copy, Debug, PartialEq, Eq)]
pub enum TraceWhy {
    /// The letters, the version or the hosted ends are wrong, or the bytes end within the header or the
    /// scenario.
    Header,
    /// An entry begins with a byte that is no tag.
    Tag,
    /// The bytes end within an entry.
    Short,
    /// The length of a datagram is out of range.
    Length,
}

impl TraceWhy {
    /// The printed word, in capitals.
    pub fn word(self) -> &'static str
        ensures { result.now ≡ trace_word self }
    {
        match self {
            TraceWhy::Header => "HEADER",
            TraceWhy::Tag => "TAG",
            TraceWhy::Short => "SHORT",
            TraceWhy::Length => "LENGTH",
        }
    }
}

impl fmt::Display for TraceWhy {
    ghost output = { λ why. Some (trace_word why) };

    ghost styled_output = { λ why spec. Some (padded spec (trace_word why)) };

    fn fmt<W: fmt::Write>(&self, f: &mut fmt::Formatter<W>) -> fmt::Result {
        f.pad(self.word())
    }
}

impl error::Error for TraceWhy {}

/// Where bytes are refused, and why.
#[derive(Clone, Copy, Debug, PartialEq, Eq, Error)]
#[error("byte {at}: {why}")]
pub struct TraceFault {
    /// Counted from 0. Where the bytes end too early, their number.
    pub at: u64,
    pub why: TraceWhy,
}
