//! The text of a scenario, read.
//!
//! What it promises: `read_scenario` gives the scenario of a text that reads, and otherwise names the
//! first line that is refused, with its first cause. Each text reads, or has one such line, and never
//! both. What it gives is sound: each number, port, setting and interval that it names is there and in
//! range, and nothing clashes.
#![tactic(auto)]

mod collected;
mod heads;
mod keys;
mod latest;
mod link_words;
mod readers;
mod reading;

pub use reading::{read_scenario, reads_or_refused};
