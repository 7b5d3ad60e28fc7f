//! The text of a talk with one slave: its description, a line `begin`, and then one event a line, which
//! is `turn` or a message in its printed form.
//!
//! What it promises: a text reads exactly where it is such a text (`specs/Talks.antt`), and is else
//! refused at its first wrong line with the first thing that is wrong there (`specs/Judging.antt`). What
//! an end says to the events of a talk is the lines of the messages that it sends, in order
//! (`specs/Saying.antt`).
#![tactic(auto)]

mod events;
mod message_lines;
mod reading;
mod saying;
mod stages;

pub use events::{Talk, TalkEvent, TalkEvents};
pub use reading::{read_talk, talks_read_or_are_refused};
pub use saying::put_talk;
