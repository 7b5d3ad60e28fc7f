//! The row events of a slave, read off the master's requests to it.
//!
//! The laws over a run read off the decided exchanges how many row events a slave has done, and whether one
//! is under way. The master's own requests tell the same. There is no code.

ghost use Rattle.master_laws.specs.Rows.Laws.{EventsAreAcknowledged, ProgressIsTold};

/// What the decided exchanges with a slave tell of its row events is what the log tells of the master's asking.
pub fn progress_is_told()
    ensures { ProgressIsTold }
{}

/// As many row events were begun as requests for one were acknowledged.
pub fn events_are_acknowledged()
    ensures { EventsAreAcknowledged }
{}
