//! What a line says.

ghost use Rattle.std.specs.Prelude.{◌≡◌, map};
ghost use Rattle.text_lines.specs.Outcomes.{Gives};
ghost use Rattle.desc_text.specs.Items.{port, resolution, parameters_said, model, item_of};

use crate::keys::Key;
use crate::words::{data_type_of, kind_of};
use dcp_types::{Address, Name};
use fixed_models::Kind;
use slave_desc::{Parameters, Port};
use std::alloc::Global;
use text_lines::{
    LineRefused, TextWhy, address, identity, int64, name, number_from, one_word, two_words,
};

/// What a line of a description says.
#[derive(Debug, Drop)]
pub enum Item {
    Slave(Name),
    Uuid(u128),
    Address(Address),
    Model(Kind, Parameters),
    Busy(u32),
    Heartbeat(u32),
    Resolution(u32, u32),
    Input(Port),
    Output(Port),
}

fn port(args: &[&[u8]]) -> Result<Port, TextWhy>
    ensures { result ≡ port (map (λ w. w.now) args.now) }
{
    let (vr, kind) = two_words(args)?;
    let vr = number_from(0, u64::MAX, vr)?;
    let kind = data_type_of(kind).ok_or(TextWhy::UnsupportedType)?;
    Ok(Port { vr, kind })
}

fn resolution(args: &[&[u8]]) -> Result<(u32, u32), TextWhy>
    ensures { result ≡ resolution (map (λ w. w.now) args.now) }
{
    let (numerator, denominator) = two_words(args)?;
    let numerator = number_from(1, u32::MAX as u64, numerator)?;
    let denominator = number_from(1, u32::MAX as u64, denominator)?;
    Ok((numerator as u32, denominator as u32))
}

fn parameters(alloc: Global, args: &[&[u8]]) -> Result<Parameters, LineRefused>
    ensures { Gives (λ n. n) result (parameters_said (map (λ w. w.now) args.now)) }
{
    let mut numbers = Vec::new(alloc);
    for word in args {
        numbers.push(int64(word)?)?;
    }
    Ok(Parameters::from_vec(numbers))
}

fn model(alloc: Global, args: &[&[u8]]) -> Result<Item, LineRefused>
    ensures { Gives (λ i. i) result (model (map (λ w. w.now) args.now)) }
{
    match args {
        [kind, rest @ ..] => {
            let kind = kind_of(kind).ok_or(TextWhy::UnknownModel)?;
            let parameters = parameters(alloc, rest)?;
            Ok(Item::Model(kind, parameters))
        }
        [] => Err(LineRefused::Why(TextWhy::Words)),
    }
}

/// What a line of this key and these words after it says: the number of words is judged first, then
/// each word from the left.
pub fn item_of(alloc: Global, key: Key, args: &[&[u8]]) -> Result<Item, LineRefused>
    ensures { Gives (λ i. i) result (item_of key (map (λ w. w.now) args.now)) }
{
    match key {
        Key::Slave => {
            let name = name(alloc, one_word(args)?)?;
            Ok(Item::Slave(name))
        }
        Key::Uuid => {
            let uuid = identity(one_word(args)?)?;
            Ok(Item::Uuid(uuid))
        }
        Key::Address => {
            let address = address(alloc, args)?;
            Ok(Item::Address(address))
        }
        Key::Model => model(alloc, args),
        Key::Busy => {
            let turns = number_from(0, 50, one_word(args)?)?;
            Ok(Item::Busy(turns as u32))
        }
        Key::Heartbeat => {
            let turns = number_from(0, 100_000, one_word(args)?)?;
            Ok(Item::Heartbeat(turns as u32))
        }
        Key::Resolution => {
            let (numerator, denominator) = resolution(args)?;
            Ok(Item::Resolution(numerator, denominator))
        }
        Key::Input => {
            let port = port(args)?;
            Ok(Item::Input(port))
        }
        Key::Output => {
            let port = port(args)?;
            Ok(Item::Output(port))
        }
    }
}
