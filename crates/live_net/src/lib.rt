//! The network over sockets, by UDP or by TCP, and the wait for something to take.
//!
//! What it promises: a network of sockets fails only where its count of faults rose by one; it takes and
//! sends only for the ends that it was opened for, and a message goes to its receiver alone; what is handed out
//! comes from an end of the scenario, over TCP it is the messages whose frames a stream gave, in order and whole,
//! and no more than 32 connections are kept at one end. What the system does with a call is not known: `PROMISES.md` lists each call.
#![tactic(auto)]

mod addresses;
mod answers;
mod arrivals;
mod connections;
mod datagrams;
mod departures;
mod failures;
mod intakes;
mod live_ends;
mod live_nets;
mod mailboxes;
mod motions;
mod refusals;
mod sockets;
mod strangers;
mod streams;
mod tcp_ends;
mod waits;
mod wakes;
mod watches;

pub use arrivals::MOST_INWARD;
pub use intakes::{Intake, Taking};
pub use live_nets::LiveNet;
pub use motions::{Motion, motion_of};
pub use refusals::Refused;
pub use streams::Stream;
pub use waits::MioReady;
