//! Traces: a scenario's text and the log of its run as bytes, for anybody to read again.
//!
//! What it promises: what is written is the spelling of the trace byte for byte, or a front of it where
//! the sink failed; what is read is the one trace that has these bytes, or else the bytes are refused for
//! one cause at one place. Neither takes memory: the log that was read stands in the bytes, and the log
//! that is written has stood as its bytes from its first entry on.
#![tactic(auto)]

mod entries_in;
mod entry_refs;
mod faults;
mod laws;
mod logs;
mod numbers_in;
mod readers;
mod run_logs;
mod told_logs;
mod writers;

pub use entry_refs::EntryRef;
pub use faults::{TraceFault, TraceWhy};
pub use laws::{traces_read_or_are_refused, written_and_read_back};
pub use logs::{Entries, EntryCursor};
pub use readers::{Trace, read_record};
pub use run_logs::RunLog;
pub use writers::{SinkFault, write_record};
