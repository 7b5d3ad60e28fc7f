//! Prints a message.

ghost use Rattle.std.specs.Prelude.{◌≡◌, ◌++◌, ◌∷◌, ◌≤◌, map, length, IfOk, OnOk, string_bytes};
ghost use Rattle.pdu_layout.specs.Parts.{value_of, values_of};
ghost use Rattle.pdu_layout.specs.Table.{rows_of};
ghost use Rattle.pdu_layout.specs.Message.{HasSpelling, message_of};
ghost use Rattle.pdu_text.specs.Printed.{value_text, row_line, line_of_message};
ghost use Rattle.pdu_text.specs.Reading.{ReadsMessage};

use crate::value_texts::put_content;
use dcp_types::OutOfMemory;
use pdu_layout::{Field, FieldContent, Parts, Pdu, parts_of};
use std::alloc::{AllocError, Global};

fn put_field(
    alloc: Global,
    out: &mut String,
    field: &Field,
    content: FieldContent<'_>,
) -> Result<(), AllocError>
    ensures { OnOk result (string_bytes out.new ≡ string_bytes out.old ++ (32 ∷ (field.now.name.now ++ (61 ∷ value_text field.now.kind (value_of content.entry))))) }
{
    let name = field.name;
    write!(out, " {name}=")?;
    put_content(alloc, out, field.kind, content)
}

/// The line of a layout with this name and these fields.
fn print_row(
    alloc: Global,
    name: &str,
    fields: &[Field],
    contents: &[FieldContent<'_>],
) -> Result<String, AllocError>
    requires { length contents.now ≡ length fields.now }
    ensures { IfOk result (λ s. string_bytes s ≡ row_line name.now (rows_of fields.now) (map value_of contents.now)) }
{
    let mut out = String::from_str(alloc, name)?;
    for (i, field) in fields.iter().enumerate() {
        put_field(alloc, &mut out, field, contents[i])?;
    }
    out.push('\n')?;
    Ok(out)
}

/// The line of a message in parts.
fn print_parts(alloc: Global, parts: &Parts<'_>) -> Result<String, AllocError>
    requires { length parts.now.fields.now ≤ 7 }
    ensures { IfOk result (λ s. string_bytes s ≡ row_line parts.now.name.now (rows_of parts.now.fields.now) (values_of parts.now)) }
{
    print_row(
        alloc,
        parts.name,
        parts.fields,
        &parts.contents[..parts.fields.len()],
    )
}

/// The line of a message, with its line feed. It reads back as the message, where that has a spelling.
pub fn print_pdu(alloc: Global, pdu: &Pdu<'_>) -> Result<String, OutOfMemory>
    ensures line { IfOk result (λ s. string_bytes s ≡ line_of_message (message_of pdu.now)) }
    ensures back { HasSpelling (message_of pdu.now) → IfOk result (λ s. ReadsMessage (string_bytes s) (message_of pdu.now)) }
{
    let parts = parts_of(pdu);
    let line = print_parts(alloc, &parts)?;
    Ok(line)
}
