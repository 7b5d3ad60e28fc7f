//! The requests that a log tells are those of the master's conversations, on every network.
//!
//! A conversation is the list of its marks, each with the place of the entry that made it. No code
//! stands here; each function is a law.

ghost use Rattle.master_log_laws.specs.Index.Laws.{IndexOnceReported, IndexUpToReport, RunsEntryByEntry};

/// The requests that a log tells are those of the master's marks.
pub fn marks_index_the_log()
    ensures running { IndexUpToReport }
    ensures reported { IndexOnceReported }
{}

/// A log that the master has by its rules can be gone through entry by entry.
pub fn runs_go_entry_by_entry()
    ensures { RunsEntryByEntry }
{}
