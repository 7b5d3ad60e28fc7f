//! The text of what a field holds.

ghost use Rattle.std.specs.Prelude.{◌≡◌, ◌++◌, OnOk, string_bytes, decimal};
ghost use Rattle.std.specs.Fmt.{signed_decimal};
ghost use Rattle.hex.specs.Hex.{encode_lower};
ghost use Rattle.text_lines.specs.Printed.{ip_word, identity_word};
ghost use Rattle.pdu_layout.specs.Parts.{value_of};
ghost use Rattle.pdu_text.specs.Printed.{state_word, value_text};

use dcp_types::State;
use pdu_layout::{FieldContent, FieldKind};
use std::alloc::{AllocError, Global};
use uuid::Uuid;

/// The name of the state with this code; nothing where no state has it.
#[tactic(auto, unfolding(crate::specs::Printed::state_word))]
fn state_word(code: u128) -> &'static str
    ensures { result.now ≡ state_word code }
{
    if code > 18 {
        return "";
    }
    match State::from_code(code as u8) {
        Some(state) => state.name(),
        None => "",
    }
}

fn put_number(out: &mut String, number: u128) -> Result<(), AllocError>
    ensures { OnOk result (string_bytes out.new ≡ string_bytes out.old ++ decimal number) }
{
    write!(out, "{number}")
}

fn put_signed(out: &mut String, number: i128) -> Result<(), AllocError>
    ensures { OnOk result (string_bytes out.new ≡ string_bytes out.old ++ signed_decimal number) }
{
    write!(out, "{number}")
}

#[tactic(auto, unfolding(text_lines::specs::Printed::ip_word))]
fn put_ip(out: &mut String, ip: u128) -> Result<(), AllocError>
    ensures { OnOk result (string_bytes out.new ≡ string_bytes out.old ++ ip_word ip) }
{
    let first = ip / 16_777_216;
    let second = ip / 65_536 % 256;
    let third = ip / 256 % 256;
    let fourth = ip % 256;
    write!(out, "{first}.{second}.{third}.{fourth}")
}

fn put_text(out: &mut String, text: &str) -> Result<(), AllocError>
    ensures { OnOk result (string_bytes out.new ≡ string_bytes out.old ++ text.now) }
{
    write!(out, "{text}")
}

fn put_identity(out: &mut String, identity: u128) -> Result<(), AllocError>
    ensures { OnOk result (string_bytes out.new ≡ string_bytes out.old ++ identity_word identity) }
{
    let mut buffer = Uuid::encode_buffer();
    let text = Uuid::from_u128(identity)
        .hyphenated()
        .encode_lower(&mut buffer);
    put_text(out, text)
}

fn put_bytes(alloc: Global, out: &mut String, bytes: &[u8]) -> Result<(), AllocError>
    ensures { OnOk result (string_bytes out.new ≡ string_bytes out.old ++ encode_lower bytes.now) }
{
    let digits = hex::encode(alloc, bytes)?;
    out.push_str(digits.as_str())
}

/// Puts what a field of this kind holds at the end of a text.
pub fn put_content(
    alloc: Global,
    out: &mut String,
    kind: FieldKind,
    content: FieldContent<'_>,
) -> Result<(), AllocError>
    ensures { OnOk result (string_bytes out.new ≡ string_bytes out.old ++ value_text kind (value_of content.entry)) }
{
    match content {
        FieldContent::Number(number) => match kind {
            FieldKind::StateCode => out.push_str(state_word(number)),
            FieldKind::Uuid => put_identity(out, number),
            FieldKind::Ip => put_ip(out, number),
            _ => put_number(out, number),
        },
        FieldContent::Signed(number) => put_signed(out, number),
        FieldContent::Bytes(bytes) => put_bytes(alloc, out, bytes),
    }
}
