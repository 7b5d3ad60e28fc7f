//! The rows of a scenario's master are collected as the laws over a run want it, on every network.
//!
//! There is no code.

ghost use Rattle.run_laws.specs.Collecting.Collecting.{MasterCollects};

/// Each row that the master counts has, of each slave, the watch message that came under the row's
/// number while the slave had done the row events before that row's, and no later one than it; and a
/// finished run has counted all rows.
pub fn masters_collect_rows()
    ensures { MasterCollects }
{}
