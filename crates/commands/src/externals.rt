//! The refusal of a text that has a slave whose model is not this program's, where the slave would have to
//! run here.

ghost use Rattle.std.specs.Prelude.{◌≡◌, ◌≤◌, map, IfOk};
ghost use Rattle.commands.specs.Externals.{external_refusal, model_line, names_model};
ghost use Rattle.commands.specs.Refusals.{Refuses};

use crate::refusals::refuse_line;
use crate::said::Statement;
use dcp_types::OutOfMemory;
use std::alloc::Global;
use text_lines::{lines, words};

/// Whether a line of these words gives the model of a slave.
fn names_model(words: &[&[u8]]) -> bool
    ensures { result ≡ names_model (map (λ w. w.now) words.now) }
{
    match words {
        [first, ..] => *first == b"model".as_slice(),
        [] => false,
    }
}

/// The line of the nth model of a text, both counted from 1; 0 where there are fewer.
fn model_line(alloc: Global, text: &[u8], nth: u8) -> Result<u32, OutOfMemory>
    requires { 1 ≤ nth }
    ensures { IfOk result (λ line. line ≡ model_line nth text.now) }
{
    let lines = lines(alloc, text)?;
    let mut left = nth;
    let mut number: u32 = 1;
    for line in &lines {
        let words = words(alloc, line)?;
        if names_model(words.as_slice()) {
            if left == 1 {
                return Ok(number);
            }
            left -= 1;
        }
        number = number.saturating_add(1);
    }
    Ok(0)
}

/// Refuses a text at the line of the model of its slave of this number, from 1, since that model is not one
/// of this program's.
pub fn refuse_external(alloc: Global, text: &[u8], slave: u8) -> Result<Statement, OutOfMemory>
    requires { 1 ≤ slave }
    ensures { IfOk result (Refuses (external_refusal slave text.now)) }
{
    let line = model_line(alloc, text, slave)?;
    refuse_line(alloc, line, "EXTERNAL")
}
