//! The words of a command line, as `clap` reads them.
//!
//! What it promises: one or two words, none of which begins with `-`, are read as a command and its operand,
//! each as it stands, and only for want of memory not; all other words are no line, and `clap` is not asked.
#![tactic(auto)]

mod lines;

pub use lines::{CommandLine, read_words};
