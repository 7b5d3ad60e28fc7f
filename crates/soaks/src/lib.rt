//! The scenarios of `soak`, one for each number, and what is written of a run of one.
//!
//! What it promises: the text is that of the number's scenario, byte for byte, with the draws of the
//! generator that begins at the number; what is written of a run is two lines, of which the first has the
//! report's line and the second the sum of all values of all rows.
#![tactic(auto)]

mod draws;
mod laws;
mod slaves;
mod summaries;
mod sums;
mod texts;

pub use laws::sums_are_exact;
pub use summaries::write_summary;
pub use texts::soak_text;
