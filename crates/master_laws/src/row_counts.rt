//! How the master counts rows, on every network.
//!
//! A row counts once all conversations have passed the phase of its outputs, and each of its parts
//! came in that phase. No code stands here; each function is a law.

ghost use Rattle.master_laws.specs.RowCounts.Laws.{FinishedHasAllRows, RowsGoOneByOne};

/// Each entry of a log leaves the rows, or adds the one whose parts came in this phase.
pub fn rows_go_one_by_one()
    ensures { RowsGoOneByOne }
{}

/// A finished run has counted all rows.
pub fn finished_runs_have_all_rows()
    ensures { FinishedHasAllRows }
{}
