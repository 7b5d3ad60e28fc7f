//! A block that is filled line by line.

ghost use Rattle.std.specs.Prelude.{◌≡◌, ◌==◌, [], map, IfErr, OnOk, is_some, None, Some};
ghost use Rattle.std.specs.List.{list_any};
ghost use Rattle.desc_text.specs.Judging.{begins, why_key, why_port};

use crate::items::{Item, item_of};
use crate::keys::{Key, key_of};
use dcp_types::{Address, Name, OutOfMemory};
use fixed_models::{Kind, has_ports, takes};
use slave_desc::{Parameters, Port, Ports, SlaveDesc};
use std::alloc::Global;
use text_lines::{LineRefused, TextWhy, is_skipped, is_utf8, words};

/// What the lines of a block so far say. `new` has no line; `take_line` takes one; `finish` gives the
/// description at the end of the block. A reader of larger texts that has a line's words and key of its
/// own takes them by `take_keyed`.
#[derive(Debug, Drop)]
pub struct Partial {
    pub name: Option<Name>,
    pub uuid: Option<u128>,
    pub address: Option<Address>,
    pub model: Option<(Kind, Parameters)>,
    pub busy: Option<u32>,
    pub heartbeat: Option<u32>,
    pub resolution: Option<(u32, u32)>,
    pub inputs: Ports,
    pub outputs: Ports,
}

fn begins(key: Key) -> bool
    ensures { result ≡ begins key }
{
    match key {
        Key::Slave => true,
        _ => false,
    }
}

/// What is wrong with a key alone, where it came before or not, and a name did or not.
pub fn check_key(again: bool, named: bool, key: Key) -> Option<TextWhy>
    ensures { result ≡ why_key again named key }
{
    if again {
        Some(TextWhy::Repeated)
    } else if !begins(key) && !named {
        Some(TextWhy::Missing)
    } else {
        None
    }
}

fn has_vr(ports: &[Port], vr: u64) -> bool
    ensures { result ≡ list_any (λ p. p.vr == vr) ports.now }
{
    ports.iter().any(|p| p.vr == vr)
}

fn check_port(before: &[Port], port: Port) -> Option<TextWhy>
    ensures { result ≡ why_port before.now port }
{
    if has_vr(before, port.vr) {
        Some(TextWhy::Repeated)
    } else if before.len() >= 8 {
        Some(TextWhy::Limit)
    } else {
        None
    }
}

impl Partial {
    ghost use Rattle.desc_text.specs.Machine.{has, put_item, why_held, take_keyed, take_words, take_line, finished, nothing};
    ghost use Rattle.text_lines.specs.Outcomes.{Steps};

    /// No line.
    pub fn new(alloc: Global) -> Partial
        ensures { result ≡ nothing }
    {
        Partial {
            name: None,
            uuid: None,
            address: None,
            model: None,
            busy: None,
            heartbeat: None,
            resolution: None,
            inputs: Ports::from_vec(Vec::new(alloc)),
            outputs: Ports::from_vec(Vec::new(alloc)),
        }
    }

    /// Whether a key that comes once came.
    pub fn has(&self, key: Key) -> bool
        ensures { result ≡ has self.now key }
    {
        match key {
            Key::Slave => self.name.is_some(),
            Key::Uuid => self.uuid.is_some(),
            Key::Address => self.address.is_some(),
            Key::Model => self.model.is_some(),
            Key::Busy => self.busy.is_some(),
            Key::Heartbeat => self.heartbeat.is_some(),
            Key::Resolution => self.resolution.is_some(),
            Key::Input => false,
            Key::Output => false,
        }
    }

    /// What is wrong with an item after the lines so far.
    pub fn check(&self, item: &Item) -> Option<TextWhy>
        ensures { result ≡ why_held self.now item.now }
    {
        match item {
            Item::Input(port) => check_port(self.inputs.as_slice(), *port),
            Item::Output(port) => check_port(self.outputs.as_slice(), *port),
            Item::Model(kind, parameters) => {
                if takes(*kind, parameters.as_slice()) {
                    None
                } else {
                    Some(TextWhy::Parameters)
                }
            }
            _ => None,
        }
    }

    /// Puts what a line says. After want of memory the block is as it was.
    pub fn put(&mut self, item: Item) -> Result<(), OutOfMemory>
        ensures put { OnOk result (self.new ≡ put_item self.old item) }
        ensures kept { IfErr result (λ _. self.new ≡ self.old) }
    {
        match item {
            Item::Slave(name) => self.name = Some(name),
            Item::Uuid(uuid) => self.uuid = Some(uuid),
            Item::Address(address) => self.address = Some(address),
            Item::Model(kind, parameters) => self.model = Some((kind, parameters)),
            Item::Busy(turns) => self.busy = Some(turns),
            Item::Heartbeat(turns) => self.heartbeat = Some(turns),
            Item::Resolution(numerator, denominator) => {
                self.resolution = Some((numerator, denominator))
            }
            Item::Input(port) => self.inputs.push(port)?,
            Item::Output(port) => self.outputs.push(port)?,
        }
        Ok(())
    }

    fn take_words(&mut self, alloc: Global, words: &[&[u8]]) -> Result<(), LineRefused>
        ensures taken { Steps result self.new (take_words self.old (map (λ w. w.now) words.now)) }
        ensures kept { IfErr result (λ _. self.new ≡ self.old) }
    {
        match words {
            [key, args @ ..] => match key_of(key) {
                Some(key) => self.take_keyed(alloc, key, args),
                None => Err(LineRefused::Why(TextWhy::UnknownKey)),
            },
            [] => Ok(()),
        }
    }

    /// Takes a line of this key and these words after it. After an error the block is as it was.
    pub fn take_keyed(&mut self, alloc: Global, key: Key, args: &[&[u8]]) -> Result<(), LineRefused>
        ensures taken { Steps result self.new (take_keyed self.old (Some key) (map (λ w. w.now) args.now)) }
        ensures kept { IfErr result (λ _. self.new ≡ self.old) }
    {
        if let Some(why) = check_key(self.has(key), self.name.is_some(), key) {
            return Err(LineRefused::Why(why));
        }
        let item = item_of(alloc, key, args)?;
        if let Some(why) = self.check(&item) {
            return Err(LineRefused::Why(why));
        }
        self.put(item)?;
        Ok(())
    }

    /// Takes a line. After an error the block is as it was.
    pub fn take_line(&mut self, alloc: Global, line: &[u8]) -> Result<(), LineRefused>
        ensures taken { Steps result self.new (take_line self.old line.now) }
        ensures kept { IfErr result (λ _. self.new ≡ self.old) }
    {
        if !is_utf8(line) {
            return Err(LineRefused::Why(TextWhy::NotUtf8));
        }
        let words = words(alloc, line)?;
        if is_skipped(&words) {
            return Ok(());
        }
        self.take_words(alloc, &words)
    }

    /// The description, at the end of the block: `Missing` where a required key is absent, else `Ports`
    /// where the kind does not have so many inputs and outputs.
    pub fn finish(self) -> Result<SlaveDesc, TextWhy>
        ensures { result ≡ finished self }
    {
        let Partial {
            name,
            uuid,
            address,
            model,
            busy,
            heartbeat,
            resolution,
            inputs,
            outputs,
        } = self;
        let name = name.ok_or(TextWhy::Missing)?;
        let uuid = uuid.ok_or(TextWhy::Missing)?;
        let address = address.ok_or(TextWhy::Missing)?;
        let (kind, parameters) = model.ok_or(TextWhy::Missing)?;
        if outputs.as_slice().is_empty() {
            return Err(TextWhy::Missing);
        }
        if !has_ports(kind, inputs.as_slice().len(), outputs.as_slice().len()) {
            return Err(TextWhy::Ports);
        }
        let (numerator, denominator) = resolution.unwrap_or((1, 1000));
        Ok(SlaveDesc {
            name,
            uuid,
            address,
            kind,
            parameters,
            busy: busy.unwrap_or(0),
            heartbeat: heartbeat.unwrap_or(0),
            numerator,
            denominator,
            inputs,
            outputs,
        })
    }
}
