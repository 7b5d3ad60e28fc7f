//! The outside: where bytes come from and go to, and texts that are written whole.
//!
//! What it promises: each object has a count of faults that never falls, a call fails only where that
//! count rose in it, and where an object tells its bytes, each call moves exactly the bytes that it
//! answers. The objects in memory follow the lists that they were made with, call by call. A text is
//! written to its end, also piece by piece through a small room, or a front of it, and that only where a
//! write failed.
#![tactic(auto)]

mod calls;
mod memory_sinks;
mod memory_sources;
mod outputs;
mod reads;
mod spools;
mod std_sinks;
mod std_sources;
mod turns;
mod writes;

pub use memory_sinks::MemorySink;
pub use memory_sources::MemorySource;
pub use outputs::{Delivery, write_all};
pub use reads::{Read, Source};
pub use spools::Spool;
pub use std_sinks::StdSink;
pub use std_sources::StdSource;
pub use turns::{Turn, read_of, turn_of, written_of};
pub use writes::{Sink, Written};
