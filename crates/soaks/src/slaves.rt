//! The lines of one slave.

ghost use Rattle.std.specs.Prelude.{◌≡◌, ◌≤◌, ◌++◌, ◌∷◌, [], codes, decimal, OnOk, string_bytes};
ghost use Rattle.std.specs.List.{flat_map};
ghost use Rattle.text_lines.specs.Printed.{line_of};
ghost use Rattle.soaks.specs.Texts.{counter_words, counting_words, drawn_words, slave_head_words, input_words, model_words, output_words, wire_words};

use std::alloc::AllocError;
use uuid::Uuid;

/// Puts the first lines of slave s: its name, its identity and its address.
#[tactic(auto, unfolding(text_lines::specs::Printed::line_of))]
fn put_names(text: &mut String, s: u32, identity: &str, port: u32) -> Result<(), AllocError>
    ensures { OnOk result (string_bytes text.new ≡ string_bytes text.old ++ line_of (codes "slave" ∷ (codes "s" ++ decimal s) ∷ [])
        ++ line_of (codes "uuid" ∷ identity.now ∷ []) ++ line_of (codes "address" ∷ codes "127.0.0.1" ∷ decimal port ∷ [])) }
{
    write!(
        text,
        "slave s{s}\nuuid {identity}\naddress 127.0.0.1 {port}\n"
    )?;
    Ok(())
}

/// Puts the first lines of slave s, whose identity is its number and whose port follows from it.
fn put_head(text: &mut String, s: u32) -> Result<(), AllocError>
    requires { s ≤ 16 }
    ensures { OnOk result (string_bytes text.new ≡ string_bytes text.old ++ flat_map line_of (slave_head_words s)) }
{
    let mut buffer = Uuid::encode_buffer();
    let identity = Uuid::from_u128(u128::from(s))
        .hyphenated()
        .encode_lower(&mut buffer);
    put_names(text, s, identity, 9_000 + s)?;
    Ok(())
}

/// Puts the line of the model of slave 1.
#[tactic(auto, unfolding(text_lines::specs::Printed::line_of))]
fn put_counting(text: &mut String) -> Result<(), AllocError>
    ensures { OnOk result (string_bytes text.new ≡ string_bytes text.old ++ line_of counting_words) }
{
    text.push_str("model counter 1000\n")
}

/// Puts the line of an input.
#[tactic(auto, unfolding(text_lines::specs::Printed::line_of))]
fn put_input(text: &mut String) -> Result<(), AllocError>
    ensures { OnOk result (string_bytes text.new ≡ string_bytes text.old ++ line_of input_words) }
{
    text.push_str("input 1 int32\n")
}

/// Puts the line of an output.
#[tactic(auto, unfolding(text_lines::specs::Printed::line_of))]
fn put_output(text: &mut String) -> Result<(), AllocError>
    ensures { OnOk result (string_bytes text.new ≡ string_bytes text.old ++ line_of output_words) }
{
    text.push_str("output 2 int32\n")
}

/// Puts the lines of slave 1, which counts.
pub(crate) fn put_counter(text: &mut String) -> Result<(), AllocError>
    ensures { OnOk result (string_bytes text.new ≡ string_bytes text.old ++ flat_map line_of counter_words) }
{
    put_head(text, 1)?;
    put_counting(text)?;
    put_output(text)?;
    Ok(())
}

/// Puts the line of a delay of so many steps.
#[tactic(auto, unfolding(text_lines::specs::Printed::line_of))]
fn put_delay(text: &mut String, steps: u64) -> Result<(), AllocError>
    ensures { OnOk result (string_bytes text.new ≡ string_bytes text.old ++ line_of (codes "model" ∷ codes "delay" ∷ codes "0" ∷ decimal steps ∷ [])) }
{
    write!(text, "model delay 0 {steps}\n")
}

/// Puts the line of the model that the first two draws choose.
#[tactic(auto, unfolding(text_lines::specs::Printed::line_of))]
fn put_model(text: &mut String, a: u64, b: u64) -> Result<(), AllocError>
    ensures { OnOk result (string_bytes text.new ≡ string_bytes text.old ++ line_of (model_words a b)) }
{
    match a % 4 {
        0 => text.push_str("model lag 0 16384\n"),
        1 => put_delay(text, 1 + b % 8),
        2 => text.push_str("model limiter -400 400\n"),
        _ => text.push_str("model deadband 5\n"),
    }
}

/// Puts the lines of slave s, which is not the first, by its first two draws.
pub(crate) fn put_drawn(text: &mut String, s: u32, a: u64, b: u64) -> Result<(), AllocError>
    requires { s ≤ 16 }
    ensures { OnOk result (string_bytes text.new ≡ string_bytes text.old ++ flat_map line_of (drawn_words s a b)) }
{
    put_head(text, s)?;
    put_model(text, a, b)?;
    put_input(text)?;
    put_output(text)?;
    Ok(())
}

/// Puts the wire into slave s of so many slaves, by its third draw.
#[tactic(auto, unfolding(text_lines::specs::Printed::line_of))]
pub(crate) fn put_wire(text: &mut String, slaves: u32, s: u32, c: u64) -> Result<(), AllocError>
    requires { 1 ≤ slaves }
    ensures { OnOk result (string_bytes text.new ≡ string_bytes text.old ++ line_of (wire_words slaves s c)) }
{
    let from = 1 + c % u64::from(slaves);
    write!(text, "wire s{from} 0 s{s} 0\n")?;
    Ok(())
}
