//! Writing a text to its end.

ghost use Rattle.dcp_io.specs.Outputs.{Delivers};

use crate::{Sink, Written};

/// How the writing of a text ended.
#[derive(Clone, Copy, Debug, PartialEq, Eq)]
pub enum Delivery {
    /// All of it was written.
    Whole,
    /// A write failed, and a front of it was written.
    Cut,
}

/// Writes the text. After a write that failed nothing more is written.
pub fn write_all<K: Sink>(out: &mut K, text: &[u8]) -> Delivery
    ensures { Delivers (K.written out.old) (K.written out.new) (K.faults out.old) (K.faults out.new) text.now result }
{
    let mut at = 0;
    while at < text.len() {
        match out.write(&text[at..]) {
            Written::Failed => return Delivery::Cut,
            Written::Wrote(count) => at += count,
        }
    }
    Delivery::Whole
}
