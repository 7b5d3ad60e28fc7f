//! A log that only contracts read.

ghost use Rattle.std.specs.Prelude.{◌≡◌, List, [], ◌∷◌, ◌++◌};
ghost use Rattle.std.specs.Borrow.{ftrue};
ghost use Rattle.dcp_ends.specs.declared.entries.LogEntry.{LogEntry};
ghost use Rattle.dcp_record.specs.EntryRefs.{entry_told};

use crate::entry_refs::EntryRef;
use std::marker::Model;

/// The entries of a log, for contracts alone: it takes no memory, and nothing at run time depends on it.
/// Nothing in it ties the list to bytes: the type that has it does so by its own invariant.
#[derive(Drop)]
pub struct ToldLog {
    pub ghost entries: { List LogEntry },
}

impl Model for ToldLog {
    ghost also_owns = { λ _. ftrue };
}

impl ToldLog {
    /// No entry.
    #[inline(always)]
    pub fn new() -> ToldLog
        ensures { result.entries ≡ [] }
    {
        ToldLog {}
    }

    /// The log with this entry after the others.
    #[inline(always)]
    pub fn then(&self, entry: &EntryRef<'_>) -> ToldLog
        ensures { result.entries ≡ self.now.entries ++ entry_told entry.now ∷ [] }
    {
        ToldLog {}
    }

    /// The same log.
    #[inline(always)]
    pub fn again(&self) -> ToldLog
        ensures { result.entries ≡ self.now.entries }
    {
        ToldLog {}
    }
}
