//! What a command says, and the writing of it.

ghost use Rattle.std.specs.Prelude.{◌≡◌};
ghost use Rattle.dcp_io.specs.Outputs.{Delivers};
ghost use Rattle.commands.specs.Said.{text_of};
ghost use Rattle.run_text.specs.Closings.{reference_text};

use crate::statuses::Judgement;
use dcp_io::{Delivery, Sink, Spool, write_all};
use lockstep::Reference;
use run_text::{put_reference_line, put_reference_rows};

/// What a command says of an input.
#[derive(Drop)]
pub struct Statement {
    /// What the command makes of the input.
    pub judgement: Judgement,
    /// What is to be written.
    pub text: Text,
}

/// What is to be written.
#[derive(Drop)]
pub enum Text {
    /// Bytes that stand in memory: a text, a line, or a message.
    Whole(Vec<u8>),
    /// The line that refuses a text past its limit.
    PastLimit,
    /// The rows of a reference over so many steps and the line after them, which are printed while they
    /// are written.
    Rows { steps: u32, reference: Reference },
}

/// Writes what is to be written.
pub fn write_text<K: Sink>(out: &mut K, text: &Text) -> Delivery
    ensures { Delivers (K.written out.old) (K.written out.new) (K.faults out.old) (K.faults out.new) (text_of text.now) result }
{
    match text {
        Text::Whole(bytes) => write_all(out, bytes.as_slice()),
        Text::PastLimit => write_all(out, b"input: line 0 LIMIT\n"),
        Text::Rows { steps, reference } => write_rows(out, *steps, reference),
    }
}

/// Writes the rows and the line after them.
fn write_rows<K: Sink>(out: &mut K, steps: u32, reference: &Reference) -> Delivery
    ensures { Delivers (K.written out.old) (K.written out.new) (K.faults out.old) (K.faults out.new) (reference_text steps reference.now.rows reference.now.fault) result }
{
    let mut spool = Spool::new();
    put_reference_rows(&mut spool, out, &reference.rows);
    put_reference_line(&mut spool, out, steps, reference.fault);
    spool.finish(out)
}
