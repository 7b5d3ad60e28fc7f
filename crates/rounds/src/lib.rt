//! The rounds of several ends over any network, with their log.
//!
//! What it promises: a round looks at each end for its datagrams, at most 64 of them, and then gives each
//! its turn; the log says exactly what happened, also where a call was refused, and without the turns it
//! is what the network tells of its calls; each end stands for its own events in the log, and the log
//! has exactly the sends that its rules give. An end may sit in a task that is polled by hand (`EndTask`): a poll with
//! mail gives it to the end once and leaves the inbox empty; it is ready exactly where the end is over afterwards, and a
//! pending poll has registered with the inbox, which wakes the task when a datagram is posted.
#![tactic(auto)]

mod all_ends;
mod end_task;
mod laws;
mod one_end;
mod rooms;
mod seats;

pub use all_ends::run_round;
pub use end_task::EndTask;
pub use laws::refused_round;
pub use one_end::{HostFault, look, turn};
pub use rooms::Room;
pub use seats::Seat;
