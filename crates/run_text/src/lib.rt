//! What a run of a scenario leaves: its rows and the line of its report for one sink, and its trace for
//! another.
//!
//! What it promises: the text is the rows that a master counted and the line of a report, or the rows and the
//! line of a reference; the trace is that of all ends, the input as it was read, and the whole log; or a front
//! of the two where a sink failed. No call takes memory.
#![tactic(auto)]

mod closings;
mod reference_rows;
mod rows;
mod runs;
mod traces;

pub use closings::{put_reference_line, put_report_line};
pub use reference_rows::{put_reference_rows, put_row};
pub use runs::{write_report, write_run};
