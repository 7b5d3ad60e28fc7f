//! Messages in a stream of bytes: each with its length in front of it, behind the greeting of its sender.
//!
//! What it promises: whatever the pieces in which the bytes come, the bytes that were taken are the frames
//! that were handed out followed by the bytes that are held, and no frame is lost, cut or handed out twice.
//! Of one connection between two ends: what a sink got and what waits are the sender's greeting followed by
//! the frames of all messages that were taken, in order; a receiver reads the greeting and then these
//! messages. Only making a reader, a link or an inlet takes memory.
#![tactic(auto)]

mod frames;
mod greetings;
mod inlets;
mod laws;
mod links;
mod readers;

pub use frames::{FRAME_ROOM, Frame, LENGTH_SIZE, LONGEST_FRAME, put_frame};
pub use greetings::{GREETING_SIZE, greeting_bytes, greeting_in};
pub use inlets::{Inlet, Inward};
pub use laws::{bytes_are_cut_in_one_way, every_chunking_is_exact};
pub use links::{Flushed, Link, MOST_WAITING, Posted};
pub use readers::FrameReader;

#[cfg(test)]
mod link_tests;
#[cfg(test)]
mod tests;
