//! The commands over sockets, each as one call over any network: `live`, `master` and `slave NAME`, and `bridge N`.
//!
//! `live_words` reads a scenario from a source, hosts the ends that the words name, and runs them in
//! rounds, with a wait before each, until they are done. Then it writes what they came to, and their
//! trace. It promises of each answer why it came, what of the source was taken, the exact bytes that were
//! written, and that there were as many rounds as waits that answered Ready.
//!
//! `bridge_words` stands a bridge between the ends of a scenario that live on UDP and those that live on TCP, with
//! a wait before each of its rounds. It promises of each answer why it came, what of the source was taken, what was
//! written, and that as many rounds were begun as waits answered Ready, each of which carries what came on.
//!
//! That a call returns is no promise: the ends may wait for a peer for ever, and only a refusal, a fault or want of
//! memory ends a bridge.
#![tactic(auto)]

mod answers;
mod bridge_calls;
mod bridge_numbers;
mod bridge_says;
mod bridge_standing;
mod bridge_stops;
mod endings;
mod hosting;
mod lines;
mod parts;
mod says;
mod top_calls;

pub use bridge_calls::bridge_words;
pub use bridge_numbers::is_bridge;
pub use parts::{Part, is_live};
pub use top_calls::live_words;
