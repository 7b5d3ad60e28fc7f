//! The ends of the protocol as a loop sees them: what comes to an end, what it sends, and the log of
//! what happened at several ends.
//!
//! What it promises: nothing by itself. A type that implements `End` promises that it stands for the
//! list of all events that came to it, and that after each event it sends exactly what its rules give
//! for that list. A `History` is the list of a network's calls as data that only contracts see: it takes no
//! memory and does nothing at run time, its list is what its calls were told, and any list could stand
//! there. It says something of a network only where the invariant of that network's type ties the list to
//! what the network holds.
#![tactic(auto)]

mod ends;
mod entries;
mod histories;

pub use ends::End;
pub use entries::{Bytes, LogEntry};
pub use histories::{Call, History};
