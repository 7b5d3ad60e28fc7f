//! The message as which a whole text reads.

ghost use Rattle.std.specs.Prelude.{◌≡◌, IfOk, IfErr, map};
ghost use Rattle.std.specs.List.{list_any};
ghost use Rattle.pdu_layout.specs.Table.{row_of};
ghost use Rattle.pdu_text.specs.Contents.{value_of_said, message_of_said};
ghost use Rattle.pdu_text.specs.Lines.{has_words};
ghost use Rattle.pdu_text.specs.Machine.{row_said, line_said, lines_said, text_said};
ghost use Rattle.pdu_text.specs.Reading.{ReadsMessage};
ghost use Rattle.pdu_text.specs.Reasons.{Gives};
ghost use Rattle.pdu_text.specs.Takers.{IsRefused};

use crate::contents::{Said, SaidMessage};
use crate::line_fields::read_fields;
use crate::message_names::code_of;
use crate::reasons::{PduTextRefused, PduTextWhy};
use dcp_types::OutOfMemory;
use pdu_layout::listed_row;
use std::alloc::Global;
use text_lines::{is_utf8, lines, words};

/// Whether one of these lines has a word.
fn have_words(alloc: Global, lines: &[&[u8]]) -> Result<bool, OutOfMemory>
    ensures { IfOk result (λ b. b ≡ list_any has_words (map (λ l. l.now) lines.now)) }
{
    for line in lines {
        if !words(alloc, line)?.is_empty() {
            return Ok(true);
        }
    }
    Ok(false)
}

/// The values of the fields of the message with this type code.
fn read_row(
    alloc: Global,
    code: u8,
    more: bool,
    words: &[&[u8]],
) -> Result<Vec<Said>, PduTextRefused>
    ensures { Gives (λ v. map value_of_said v.items) result (row_said (row_of code) more (map (λ w. w.now) words.now)) }
{
    match listed_row(code) {
        Some(row) => read_fields(alloc, row.fields, more, words),
        None => Err(PduTextWhy::UnknownKey.into()),
    }
}

/// The message that the words of a line say. `more` tells that a later line has a word.
fn read_words(alloc: Global, more: bool, words: &[&[u8]]) -> Result<SaidMessage, PduTextRefused>
    ensures { Gives message_of_said result (line_said more (map (λ w. w.now) words.now)) }
{
    match words {
        [name, others @ ..] => match code_of(name) {
            Some(code) => {
                let values = read_row(alloc, code, more, others)?;
                Ok(SaidMessage { code, values })
            }
            None => Err(PduTextWhy::UnknownKey.into()),
        },
        [] => Err(PduTextWhy::Words.into()),
    }
}

fn read_lines(alloc: Global, lines: &[&[u8]]) -> Result<SaidMessage, PduTextRefused>
    ensures { Gives message_of_said result (lines_said (map (λ l. l.now) lines.now)) }
{
    match lines {
        [first, others @ ..] => {
            let more = have_words(alloc, others)?;
            let words = words(alloc, first)?;
            read_words(alloc, more, &words)
        }
        [] => Err(PduTextWhy::Words.into()),
    }
}

/// The message that a text says, word by word.
fn read_text(alloc: Global, text: &[u8]) -> Result<SaidMessage, PduTextRefused>
    ensures { Gives message_of_said result (text_said text.now) }
{
    if !is_utf8(text) {
        return Err(PduTextWhy::NotUtf8.into());
    }
    let lines = lines(alloc, text)?;
    read_lines(alloc, &lines)
}

/// The message as which a text reads, or the first rule that the text breaks.
pub fn read_message(alloc: Global, text: &[u8]) -> Result<SaidMessage, PduTextRefused>
    ensures ok { IfOk result (λ m. ReadsMessage text.now (message_of_said m)) }
    ensures err { IfErr result (λ e. IsRefused text.now e) }
{
    read_text(alloc, text)
}
