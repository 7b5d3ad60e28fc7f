//! The commands of the program as values, and the one call that does what the words say.
//!
//! `read_words` reads the words of a command line by `clap`: one or two words, none of which begins with `-`,
//! are a command and its operand, each as it stands. `run_words` reads an input from a source, has the command
//! judge it, and writes what it says to a sink. It promises of each answer why it came, what of the source was
//! taken, and the exact bytes that were written. `run_program` is the same call over a reader and a writer of
//! the standard library, and gives the exit status.
#![tactic(auto)]

mod answers;
mod command_words;
mod externals;
mod inputs;
mod programs;
mod refusals;
mod said;
mod says;
mod slave_names;
mod statuses;
mod top_calls;
mod word_lists;

pub use command_words::Command;
pub use externals::refuse_external;
pub use inputs::{Gathered, LIMIT, TRACE_LIMIT, read_input};
pub use programs::{Ended, run_program};
pub use refusals::{refuse_line, refuse_past_limit, refuse_text};
pub use said::{Statement, Text, write_text};
pub use slave_names::slave_named;
pub use statuses::{Judgement, Status};
pub use top_calls::run_words;
pub use word_lists::{Named, Words};
