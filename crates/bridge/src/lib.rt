//! The bridge between ends on UDP and ends on TCP.
//!
//! What it promises: in each round, what waited and what came in on the one side goes out on the other, in
//! order, each message with its sender's and its receiver's address and its bytes, in which only the transport
//! that a message names is changed. What comes when 256 messages wait is dropped, and what is no end's message
//! is given up; both are counted. A fault is kept, and then nothing is called. Only `Bridge::new` takes memory.
#![tactic(auto)]

mod bridges;
mod carrying;
mod crossings;
mod faults;
mod openings;
mod passing;
mod sides;
mod ways;

pub use bridges::Bridge;
pub use faults::BridgeFault;
pub use passing::Passed;
pub use sides::BridgeSide;
