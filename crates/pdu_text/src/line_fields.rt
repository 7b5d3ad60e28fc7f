//! The values of a row's fields, word by word.

ghost use Rattle.std.specs.Prelude.{◌≡◌, map};
ghost use Rattle.pdu_layout.specs.Table.{rows_of};
ghost use Rattle.pdu_text.specs.Contents.{value_of_said};
ghost use Rattle.pdu_text.specs.Machine.{fields_said};
ghost use Rattle.pdu_text.specs.Reasons.{Gives};

use crate::contents::Said;
use crate::reasons::{PduTextRefused, PduTextWhy};
use crate::word_values::{read_field, size_of, type_after};
use pdu_layout::Field;
use std::alloc::Global;

/// The bytes that a message has after its type code, at most.
const ROOM: usize = 1_023;

/// The values of the fields. `more` tells that a later line has a word.
pub fn read_fields(
    alloc: Global,
    fields: &[Field],
    more: bool,
    words: &[&[u8]],
) -> Result<Vec<Said>, PduTextRefused>
    ensures { Gives (λ v. map value_of_said v.items) result (fields_said (rows_of fields.now) 1023 0 more (map (λ w. w.now) words.now)) }
{
    let mut values = Vec::new(alloc);
    let mut rest = words;
    let mut room = ROOM;
    let mut last = 0;
    for field in fields {
        match rest {
            [word, others @ ..] => {
                let value = read_field(alloc, field, room, last, word)?;
                room = room.saturating_sub(size_of(field.kind, last, &value));
                last = type_after(field.kind, last, &value);
                values.push(value)?;
                rest = others;
            }
            [] => return Err(PduTextRefused::Line {
                why: PduTextWhy::Words,
            }),
        }
    }
    if more || !rest.is_empty() {
        return Err(PduTextRefused::Line {
            why: PduTextWhy::Words,
        });
    }
    Ok(values)
}
