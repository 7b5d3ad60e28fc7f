//! What the lines of a head say.

ghost use Rattle.std.specs.Prelude.{◌≡◌, ◌==◌, ◌≤◌, map};
ghost use Rattle.text_lines.specs.Outcomes.{Gives};
ghost use Rattle.scenario_text.specs.Heads.{least_head, greatest_head, number_item, protocol_of, head_item, item_key, is_said, number_in, master_of_head, protocol_in, first_said};

use crate::keys::HeadKey;
use dcp_types::{Address, Items, Protocol};
use std::alloc::Global;
use text_lines::{LineRefused, TextWhy, address, number_from, one_word};

/// What a line of the head says.
#[derive(Clone, Copy, Debug, PartialEq, Eq)]
pub enum HeadItem {
    Number(HeadKey, u32),
    Master(Address),
    Protocol(Protocol),
}

/// What the lines of a head say, in order.
pub type HeadItems = Items<HeadItem>;

fn least(key: HeadKey) -> u32
    ensures { result ≡ least_head key }
{
    match key {
        HeadKey::Steps => 0,
        HeadKey::StepTries => 2,
        _ => 1,
    }
}

fn greatest(key: HeadKey) -> u32
    ensures value { result ≡ greatest_head key }
    ensures small { greatest_head key ≤ 100000 }
{
    match key {
        HeadKey::Steps => 100_000,
        HeadKey::Runs => 100,
        HeadKey::Tries => 20,
        HeadKey::StepTries => 20,
        _ => 1000,
    }
}

fn number_item(key: HeadKey, args: &[&[u8]]) -> Result<HeadItem, TextWhy>
    ensures { result ≡ number_item key (map (λ w. w.now) args.now) }
{
    let word = one_word(args)?;
    let number = number_from(least(key) as u64, greatest(key) as u64, word)?;
    Ok(HeadItem::Number(key, number as u32))
}

fn protocol_of(word: &[u8]) -> Result<Protocol, TextWhy>
    ensures { result ≡ protocol_of word.now }
{
    if word == b"udp".as_slice() {
        return Ok(Protocol::Udp);
    }
    if word == b"tcp".as_slice() {
        return Ok(Protocol::Tcp);
    }
    Err(TextWhy::BadNumber)
}

/// What a line of this key and these words says.
pub fn head_item(alloc: Global, key: HeadKey, args: &[&[u8]]) -> Result<HeadItem, LineRefused>
    ensures { Gives (λ i. i) result (head_item key (map (λ w. w.now) args.now)) }
{
    match key {
        HeadKey::Master => {
            let master = address(alloc, args)?;
            Ok(HeadItem::Master(master))
        }
        HeadKey::Protocol => {
            let word = one_word(args)?;
            let protocol = protocol_of(word)?;
            Ok(HeadItem::Protocol(protocol))
        }
        _ => {
            let item = number_item(key, args)?;
            Ok(item)
        }
    }
}

impl HeadItem {
    fn key(self) -> HeadKey
        ensures { result ≡ item_key self }
    {
        match self {
            HeadItem::Number(key, _) => key,
            HeadItem::Master(_) => HeadKey::Master,
            HeadItem::Protocol(_) => HeadKey::Protocol,
        }
    }

    fn number(self, key: HeadKey) -> Option<u32>
        ensures { result ≡ number_in key self }
    {
        match self {
            HeadItem::Number(own, number) => number_at(own, number, key),
            _ => None,
        }
    }

    fn master(self) -> Option<Address>
        ensures { result ≡ master_of_head self }
    {
        match self {
            HeadItem::Master(master) => Some(master),
            _ => None,
        }
    }

    fn protocol(self) -> Option<Protocol>
        ensures { result ≡ protocol_in self }
    {
        match self {
            HeadItem::Protocol(protocol) => Some(protocol),
            _ => None,
        }
    }
}

fn number_at(own: HeadKey, number: u32, key: HeadKey) -> Option<u32>
    ensures { result ≡ number_in key (HeadItem.Number own number) }
{
    if own.code() == key.code() {
        Some(number)
    } else {
        None
    }
}

/// Whether a line of this key came.
pub fn is_said(key: HeadKey, said: &[HeadItem]) -> bool
    ensures { result ≡ is_said key said.now }
{
    said.iter().any(|item| item.key().code() == key.code())
}

/// The number that the line of this key says.
pub fn number_said(key: HeadKey, said: &[HeadItem]) -> Option<u32>
    ensures { result ≡ first_said (number_in key) said.now }
{
    for item in said {
        if let Some(number) = item.number(key) {
            return Some(number);
        }
    }
    None
}

/// The address that the line `master` says.
pub fn master_said(said: &[HeadItem]) -> Option<Address>
    ensures { result ≡ first_said master_of_head said.now }
{
    for item in said {
        if let Some(master) = item.master() {
            return Some(master);
        }
    }
    None
}

/// The transport that the line `protocol` says.
pub fn protocol_said(said: &[HeadItem]) -> Option<Protocol>
    ensures { result ≡ first_said protocol_in said.now }
{
    for item in said {
        if let Some(protocol) = item.protocol() {
            return Some(protocol);
        }
    }
    None
}
