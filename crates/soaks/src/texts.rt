//! The text of a number's scenario.

ghost use Rattle.std.specs.Prelude.{◌≡◌, ◌≤◌, ◌+◌, ◌++◌, ◌∷◌, [], codes, decimal, OnOk, IfOk, map, string_bytes};
ghost use Rattle.std.specs.List.{flat_map, range_with_len};
ghost use Rattle.text_lines.specs.Printed.{line_of};
ghost use Rattle.soaks.specs.Texts.{chaos_words, drawn_at, opening_words, master_words, soak_text, wired_at};

use crate::draws::{after_slave, draw, generator_step};
use crate::slaves::{put_counter, put_drawn, put_wire};
use dcp_types::OutOfMemory;
use std::alloc::{AllocError, Global};

/// Puts the line of the steps.
#[tactic(auto, unfolding(text_lines::specs::Printed::line_of))]
fn put_steps(text: &mut String, steps: u32) -> Result<(), AllocError>
    ensures { OnOk result (string_bytes text.new ≡ string_bytes text.old ++ line_of (codes "steps" ∷ decimal steps ∷ [])) }
{
    write!(text, "steps {steps}\n")
}

/// Puts the line of the master's address.
#[tactic(auto, unfolding(text_lines::specs::Printed::line_of))]
fn put_master(text: &mut String) -> Result<(), AllocError>
    ensures { OnOk result (string_bytes text.new ≡ string_bytes text.old ++ line_of master_words) }
{
    text.push_str("master 127.0.0.1 9000\n")
}

/// Puts the first two lines: the steps, and the master's address.
fn put_first(text: &mut String, steps: u32) -> Result<(), AllocError>
    ensures { OnOk result (string_bytes text.new ≡ string_bytes text.old ++ flat_map line_of (opening_words steps)) }
{
    put_steps(text, steps)?;
    put_master(text)?;
    Ok(())
}

/// Puts the lines of all slaves behind the first, of which there are so many.
fn put_slaves(text: &mut String, number: u32, later: u32) -> Result<(), AllocError>
    requires { later ≤ 15 }
    ensures { OnOk result (string_bytes text.new ≡ string_bytes text.old ++ flat_map line_of (flat_map (drawn_at number) (range_with_len 0 later))) }
{
    let mut x = u64::from(number);
    for place in 0..later {
        let a = generator_step(x);
        put_drawn(text, place + 2, draw(a), draw(generator_step(a)))?;
        x = after_slave(x);
    }
    Ok(())
}

/// Puts the wires into all slaves behind the first.
fn put_wires(text: &mut String, number: u32, later: u32) -> Result<(), AllocError>
    requires { later ≤ 15 }
    ensures { OnOk result (string_bytes text.new ≡ string_bytes text.old ++ flat_map line_of (map (wired_at number (later + 1)) (range_with_len 0 later))) }
{
    let mut x = u64::from(number);
    for place in 0..later {
        x = after_slave(x);
        put_wire(text, later + 1, place + 2, draw(x))?;
    }
    Ok(())
}

/// Puts the last line: chance begins at the number.
#[tactic(auto, unfolding(text_lines::specs::Printed::line_of))]
fn put_chaos(text: &mut String, number: u32) -> Result<(), AllocError>
    ensures { OnOk result (string_bytes text.new ≡ string_bytes text.old ++ line_of (chaos_words number)) }
{
    write!(text, "chaos {number} 0 100 100\n")
}

/// The text of the number's scenario: 2 to 16 slaves over 200 to 500 steps, of which slave 1 counts and
/// each other one has a model and a wire that are drawn, in a network that repeats and holds messages.
pub fn soak_text(alloc: Global, number: u32) -> Result<String, OutOfMemory>
    ensures { IfOk result (λ text. string_bytes text ≡ soak_text number) }
{
    let later = 1 + number % 15;
    let mut text = String::new(alloc);
    put_first(&mut text, 200 + number % 301)?;
    put_counter(&mut text)?;
    put_slaves(&mut text, number, later)?;
    put_wires(&mut text, number, later)?;
    put_chaos(&mut text, number)?;
    Ok(text)
}
