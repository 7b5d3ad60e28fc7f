//! The messages that an end is to send.
//!
//! What it promises: an outbox has the messages that were put into it, in order, each with the bytes that
//! were given or with its one spelling. Only `Outbox::new` takes memory.
#![tactic(auto)]

mod outbox;
mod slots;

pub use outbox::Outbox;
