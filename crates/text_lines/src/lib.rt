//! The line grammar that descriptions, scenarios and the one-line form of a message share: lines,
//! words, comments, numbers, names, addresses and identities, and why a text is refused.
//!
//! What it promises: each reader of a word gives exactly the value that its definition gives, or
//! exactly the one cause that the definition gives. Only what takes an allocator can answer want of
//! memory. `specs/Runs.antt` says once, for every kind of text, what the first refused line of a text
//! is; `proofs/Runs.antt` proves it of every reader that goes line by line.
#![tactic(auto)]

mod addresses;
mod counts;
mod identities;
mod names;
mod numbers;
mod reasons;
mod texts;

pub use addresses::{address, ip};
pub use counts::{four_words, one_word, three_words, two_words};
pub use identities::identity;
pub use names::name;
pub use numbers::{int64, number, number_from, signed_number};
pub use reasons::{LineRefused, TextFault, TextRefused, TextWhy};
pub use texts::{is_skipped, is_utf8, lines, words};
