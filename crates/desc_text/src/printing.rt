//! Prints a description.

ghost use Rattle.std.specs.Prelude.{◌≡◌, ◌++◌, ◌∷◌, [], codes, decimal, map, IfOk, OnOk, string_bytes};
ghost use Rattle.std.specs.Fmt.{signed_decimal};
ghost use Rattle.std.specs.List.{flat_map};
ghost use Rattle.fixed_models.specs.Kinds.{kind_word};
ghost use Rattle.text_lines.specs.Printed.{ip_word, identity_word, line_of};
ghost use Rattle.desc_text.specs.Canonical.{canonical, port_words, spaced};
ghost use Rattle.slave_desc.specs.Descriptions.{IsDesc};
ghost use Rattle.desc_text.specs.Reads.{ReadsAsDesc};

use dcp_types::{Address, OutOfMemory};
use fixed_models::Kind;
use slave_desc::{Port, SlaveDesc};
use std::alloc::{AllocError, Global};
use uuid::Uuid;

#[tactic(auto, unfolding(text_lines::specs::Printed::line_of))]
fn put_name(out: &mut String, name: &str) -> Result<(), AllocError>
    ensures { OnOk result (string_bytes out.new ≡ string_bytes out.old ++ line_of (codes "slave" ∷ name.now ∷ [])) }
{
    write!(out, "slave {name}\n")
}

#[tactic(auto, unfolding(text_lines::specs::Printed::line_of))]
fn put_uuid_text(out: &mut String, text: &str) -> Result<(), AllocError>
    ensures { OnOk result (string_bytes out.new ≡ string_bytes out.old ++ line_of (codes "uuid" ∷ text.now ∷ [])) }
{
    write!(out, "uuid {text}\n")
}

fn put_uuid(out: &mut String, uuid: u128) -> Result<(), AllocError>
    ensures { OnOk result (string_bytes out.new ≡ string_bytes out.old ++ line_of (codes "uuid" ∷ identity_word uuid ∷ [])) }
{
    let mut buffer = Uuid::encode_buffer();
    let text = Uuid::from_u128(uuid).hyphenated().encode_lower(&mut buffer);
    put_uuid_text(out, text)
}

#[tactic(auto, unfolding(text_lines::specs::Printed::line_of, text_lines::specs::Printed::ip_word))]
fn put_address(out: &mut String, address: Address) -> Result<(), AllocError>
    ensures { OnOk result (string_bytes out.new ≡ string_bytes out.old ++ line_of (codes "address" ∷ ip_word address.ip ∷ decimal address.port ∷ [])) }
{
    let a = address.ip / 16_777_216;
    let b = address.ip / 65_536 % 256;
    let c = address.ip / 256 % 256;
    let d = address.ip % 256;
    let port = address.port;
    write!(out, "address {a}.{b}.{c}.{d} {port}\n")
}

fn put_parameters(out: &mut String, parameters: &[i64]) -> Result<(), AllocError>
    ensures { OnOk result (string_bytes out.new ≡ string_bytes out.old ++ flat_map spaced parameters.now) }
{
    for parameter in parameters {
        write!(out, " {parameter}")?;
    }
    Ok(())
}

fn put_model(out: &mut String, kind: Kind, parameters: &[i64]) -> Result<(), AllocError>
    ensures { OnOk result (string_bytes out.new ≡ string_bytes out.old ++ line_of (codes "model" ∷ kind_word kind ∷ map signed_decimal parameters.now)) }
{
    let word = kind.word();
    write!(out, "model {word}")?;
    put_parameters(out, parameters)?;
    write!(out, "\n")?;
    Ok(())
}

#[tactic(auto, unfolding(text_lines::specs::Printed::line_of))]
fn put_busy(out: &mut String, turns: u32) -> Result<(), AllocError>
    ensures { OnOk result (string_bytes out.new ≡ string_bytes out.old ++ line_of (codes "busy" ∷ decimal turns ∷ [])) }
{
    write!(out, "busy {turns}\n")
}

#[tactic(auto, unfolding(text_lines::specs::Printed::line_of))]
fn put_heartbeat(out: &mut String, turns: u32) -> Result<(), AllocError>
    ensures { OnOk result (string_bytes out.new ≡ string_bytes out.old ++ line_of (codes "heartbeat" ∷ decimal turns ∷ [])) }
{
    write!(out, "heartbeat {turns}\n")
}

#[tactic(auto, unfolding(text_lines::specs::Printed::line_of))]
fn put_resolution(out: &mut String, numerator: u32, denominator: u32) -> Result<(), AllocError>
    ensures { OnOk result (string_bytes out.new ≡ string_bytes out.old ++ line_of (codes "resolution" ∷ decimal numerator ∷ decimal denominator ∷ [])) }
{
    write!(out, "resolution {numerator} {denominator}\n")
}

#[tactic(auto, unfolding(text_lines::specs::Printed::line_of))]
fn put_port(out: &mut String, key: &str, port: Port) -> Result<(), AllocError>
    ensures { OnOk result (string_bytes out.new ≡ string_bytes out.old ++ line_of (port_words key.now port)) }
{
    let vr = port.vr;
    let word = port.kind.word();
    write!(out, "{key} {vr} {word}\n")
}

fn put_ports(out: &mut String, key: &str, ports: &[Port]) -> Result<(), AllocError>
    ensures { OnOk result (string_bytes out.new ≡ string_bytes out.old ++ flat_map line_of (map (port_words key.now) ports.now)) }
{
    for port in ports {
        put_port(out, key, *port)?;
    }
    Ok(())
}

/// The canonical text: one line a key in a fixed order, then the inputs and the outputs, each key present,
/// single spaces, numbers without leading zeros. It reads back as the description, where its parts are in
/// range, as those of a description that was read are.
pub fn print_desc(alloc: Global, desc: &SlaveDesc) -> Result<String, OutOfMemory>
    ensures text { IfOk result (λ s. string_bytes s ≡ canonical desc.now) }
    ensures back { IsDesc desc.now → IfOk result (λ s. ReadsAsDesc (string_bytes s) desc.now) }
{
    let mut out = String::new(alloc);
    put_name(&mut out, desc.name.as_str())?;
    put_uuid(&mut out, desc.uuid)?;
    put_address(&mut out, desc.address)?;
    put_model(&mut out, desc.kind, desc.parameters.as_slice())?;
    put_busy(&mut out, desc.busy)?;
    put_heartbeat(&mut out, desc.heartbeat)?;
    put_resolution(&mut out, desc.numerator, desc.denominator)?;
    put_ports(&mut out, "input", desc.inputs.as_slice())?;
    put_ports(&mut out, "output", desc.outputs.as_slice())?;
    Ok(out)
}
