//! The network as a loop sees it: it takes datagrams from ends and gives them to ends, and where it
//! tells its calls, they are the log of the loop without its turns.
//!
//! What it promises: each call of a network adds exactly its entry to the list of calls, or nothing
//! where it did not succeed; it fails only where the count of faults rose, and that count stands still
//! elsewhere. The script network gives its datagrams in order, with a pause after each.
#![tactic(auto)]

mod grams;
mod nets;
mod openings;
mod scripts;
mod waits;

pub use grams::ScriptGram;
pub use nets::{Done, Net, Taken};
pub use openings::{Addresses, Opening};
pub use scripts::ScriptNet;
pub use waits::{FailingWait, NoWait, Ready, Waited};
