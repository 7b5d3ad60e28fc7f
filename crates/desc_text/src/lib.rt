//! The text of a slave description, read and printed.
//!
//! What it promises: a text reads exactly where it is the text of a description by the grammar
//! (`specs/Reads.antt`), and is else refused at its first wrong line with the first thing that is wrong
//! there (`specs/Judging.antt`). Each text is of one kind or the other, never both. The canonical text
//! of a description reads back as that description.
#![tactic(auto)]

mod items;
mod keys;
mod partials;
mod printing;
mod reading;
mod words;

pub use printing::print_desc;
pub use reading::{read_desc, reads_or_refused};

// For readers of larger texts, in which a description is one block: the keys of a block, what a line of
// a key says, and a block that is filled line by line.
pub use items::{Item, item_of};
pub use keys::{Key, key_of};
pub use partials::{Partial, check_key};
