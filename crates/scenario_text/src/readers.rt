//! What the lines so far say, and what the next line does to it.

ghost use Rattle.std.specs.Prelude.{◌≡◌, ◌==◌, ◌&&◌, map, Some};
ghost use Rattle.std.specs.List.{list_any};
ghost use Rattle.std.specs.Str.{bytes_eq};
ghost use Rattle.text_lines.specs.Outcomes.{Gives, Steps};
ghost use Rattle.scenario_text.specs.Clashes.{why_name, why_address, is_chaos};
ghost use Rattle.scenario_text.specs.Said.{is_master, same_address};
ghost use Rattle.scenario_text.specs.Heads.{steps_said, runs_said, limits_said};

use crate::collected::{Collected, Links};
use crate::heads::{
    HeadItem, HeadItems, head_item, is_said, master_said, number_said, protocol_said,
};
use crate::keys::{AnyKey, HeadKey, LinkKey, any_key};
use crate::link_words::{is_named, link_of};
use dcp_types::{Address, Limits, Protocol};
use desc_text::{Item, Key, Partial, check_key, item_of};
use scenario::{Scenario, Slaves, is_too_much};
use slave_desc::SlaveDesc;
use std::alloc::Global;
use std::mem;
use text_lines::{LineRefused, TextWhy, is_skipped, is_utf8, words};

/// What the lines so far say. The block is open where it has a name.
#[derive(Debug, Drop)]
pub struct Reader {
    /// The section of the last line: 0 is the head, 1 the slaves, 2 the links.
    section: u8,
    head: HeadItems,
    slaves: Slaves,
    block: Partial,
    links: Collected,
}

fn same_address(a: Address, b: Address) -> bool
    ensures { result ≡ same_address a b }
{
    a.ip == b.ip && a.port == b.port
}

fn has_name(slaves: &[SlaveDesc], name: &[u8]) -> bool
    ensures { result ≡ list_any (λ s. bytes_eq s.name name.now) slaves.now }
{
    slaves.iter().any(|s| is_named(s, name))
}

fn has_address(slaves: &[SlaveDesc], address: Address) -> bool
    ensures { result ≡ list_any (λ s. same_address s.address address) slaves.now }
{
    slaves.iter().any(|s| same_address(s.address, address))
}

fn check_name(slaves: &[SlaveDesc], name: &[u8]) -> Option<TextWhy>
    ensures { result ≡ why_name slaves.now name.now }
{
    if has_name(slaves, name) {
        Some(TextWhy::Repeated)
    } else if slaves.len() >= 16 {
        Some(TextWhy::Limit)
    } else {
        None
    }
}

fn is_master(master: Option<Address>, address: Address) -> bool
    ensures { result ≡ is_master master address }
{
    match master {
        Some(master) => same_address(master, address),
        None => false,
    }
}

fn check_address(master: Option<Address>, slaves: &[SlaveDesc], address: Address) -> Option<TextWhy>
    ensures { result ≡ why_address master slaves.now address }
{
    if is_master(master, address) {
        Some(TextWhy::SameAddress)
    } else if has_address(slaves, address) {
        Some(TextWhy::SameAddress)
    } else {
        None
    }
}

fn steps_said(said: &[HeadItem]) -> u32
    ensures { result ≡ steps_said said.now }
{
    number_said(HeadKey::Steps, said).unwrap_or(0)
}

fn runs_said(said: &[HeadItem]) -> u32
    ensures { result ≡ runs_said said.now }
{
    number_said(HeadKey::Runs, said).unwrap_or(1)
}

fn limits_said(said: &[HeadItem]) -> Limits
    ensures { result ≡ limits_said said.now }
{
    Limits {
        turn_limit: number_said(HeadKey::TurnLimit, said).unwrap_or(50),
        tries: number_said(HeadKey::Tries, said).unwrap_or(4),
        watch_turns: number_said(HeadKey::WatchTurns, said).unwrap_or(20),
        state_limit: number_said(HeadKey::StateLimit, said).unwrap_or(200),
        retry_turns: number_said(HeadKey::RetryTurns, said).unwrap_or(20),
        data_turns: number_said(HeadKey::DataTurns, said).unwrap_or(20),
        step_tries: number_said(HeadKey::StepTries, said).unwrap_or(3),
    }
}

fn is_chaos(key: LinkKey) -> bool
    ensures { result ≡ is_chaos key }
{
    match key {
        LinkKey::Chaos => true,
        _ => false,
    }
}

impl Reader {
    ghost use Rattle.scenario_text.specs.Clashes.{why_among};
    ghost use Rattle.scenario_text.specs.Machine.{reader_at_start, close_head, close_block, close_slaves, closes, take_head, take_scenario_block, take_link, act_on_key, take_scenario_keyed, take_scenario_words, take_scenario_line, scenario_finished};

    /// What no lines say. It takes no memory.
    pub fn new(alloc: Global) -> Reader
        ensures { result ≡ reader_at_start }
    {
        Reader {
            section: 0,
            head: HeadItems::new(alloc),
            slaves: Slaves::new(alloc),
            block: Partial::new(alloc),
            links: Collected::new(alloc),
        }
    }

    fn close_head(&self) -> Result<(), LineRefused>
        ensures { Steps result self.now (close_head self.now) }
    {
        let said = self.head.as_slice();
        if !(is_said(HeadKey::Steps, said) && is_said(HeadKey::Master, said)) {
            return Err(LineRefused::Why(TextWhy::Missing));
        }
        Ok(())
    }

    fn close_block(&mut self, alloc: Global) -> Result<(), LineRefused>
        ensures { Steps result self.new (close_block self.old) }
    {
        if self.block.name.is_some() {
            if self.slaves.is_full() {
                return Err(LineRefused::Why(TextWhy::Limit));
            }
            let block = mem::replace(&mut self.block, Partial::new(alloc));
            let slave = block.finish()?;
            self.slaves.push(slave)?;
        }
        Ok(())
    }

    fn close_slaves(&self) -> Result<(), LineRefused>
        ensures { Steps result self.now (close_slaves self.now) }
    {
        let slaves = self.slaves.as_slice();
        if slaves.is_empty() {
            return Err(LineRefused::Why(TextWhy::Missing));
        }
        let said = self.head.as_slice();
        if is_too_much(slaves, steps_said(said), runs_said(said)) {
            return Err(LineRefused::Why(TextWhy::Limit));
        }
        Ok(())
    }

    fn closes(&mut self, alloc: Global, ends_block: bool, section: u8) -> Result<(), LineRefused>
        ensures { Steps result self.new (closes self.old ends_block section) }
    {
        if self.section == 0 && 0 < section {
            self.close_head()?;
        }
        if ends_block {
            self.close_block(alloc)?;
        }
        if self.section < 2 && section == 2 {
            self.close_slaves()?;
        }
        self.section = section;
        Ok(())
    }

    fn check_among(&self, item: &Item) -> Option<TextWhy>
        ensures { result ≡ why_among self.now.head self.now.slaves item.now }
    {
        match item {
            Item::Slave(name) => check_name(self.slaves.as_slice(), name.as_str().as_bytes()),
            Item::Address(address) => {
                check_address(
                    master_said(self.head.as_slice()),
                    self.slaves.as_slice(),
                    *address,
                )
            }
            _ => None,
        }
    }

    fn take_head(&mut self, alloc: Global, key: HeadKey, args: &[&[u8]]) -> Result<(), LineRefused>
        ensures { Steps result self.new (take_head self.old key (map (λ w. w.now) args.now)) }
    {
        if is_said(key, self.head.as_slice()) {
            return Err(LineRefused::Why(TextWhy::Repeated));
        }
        let item = head_item(alloc, key, args)?;
        self.head.push(item)?;
        Ok(())
    }

    fn take_block(&mut self, alloc: Global, key: Key, args: &[&[u8]]) -> Result<(), LineRefused>
        ensures { Steps result self.new (take_scenario_block self.old key (map (λ w. w.now) args.now)) }
    {
        if let Some(why) = check_key(self.block.has(key), self.block.name.is_some(), key) {
            return Err(LineRefused::Why(why));
        }
        let item = item_of(alloc, key, args)?;
        if let Some(why) = self.block.check(&item) {
            return Err(LineRefused::Why(why));
        }
        if let Some(why) = self.check_among(&item) {
            return Err(LineRefused::Why(why));
        }
        self.block.put(item)?;
        Ok(())
    }

    fn take_link(&mut self, alloc: Global, key: LinkKey, args: &[&[u8]]) -> Result<(), LineRefused>
        ensures { Steps result self.new (take_link self.old key (map (λ w. w.now) args.now)) }
    {
        if is_chaos(key) && self.links.links().net.chaos.is_some() {
            return Err(LineRefused::Why(TextWhy::Repeated));
        }
        let slaves = self.slaves.as_slice();
        let link = link_of(slaves, runs_said(self.head.as_slice()), key, args)?;
        if let Some(why) = self.links.check(alloc, slaves, link)? {
            return Err(LineRefused::Why(why));
        }
        let links = mem::replace(&mut self.links, Collected::new(alloc));
        self.links = links.with(link)?;
        Ok(())
    }

    fn act(&mut self, alloc: Global, key: AnyKey, args: &[&[u8]]) -> Result<(), LineRefused>
        ensures { Steps result self.new (act_on_key self.old key (map (λ w. w.now) args.now)) }
    {
        match key {
            AnyKey::Head(key) => self.take_head(alloc, key, args),
            AnyKey::Block(key) => self.take_block(alloc, key, args),
            AnyKey::Link(key) => self.take_link(alloc, key, args),
        }
    }

    fn take_keyed(&mut self, alloc: Global, key: AnyKey, args: &[&[u8]]) -> Result<(), LineRefused>
        ensures { Steps result self.new (take_scenario_keyed self.old (Some key) (map (λ w. w.now) args.now)) }
    {
        if key.section() < self.section {
            return Err(LineRefused::Why(TextWhy::Order));
        }
        self.closes(alloc, key.closes_block(), key.section())?;
        self.act(alloc, key, args)
    }

    fn take_words(&mut self, alloc: Global, words: &[&[u8]]) -> Result<(), LineRefused>
        ensures { Steps result self.new (take_scenario_words self.old (map (λ w. w.now) words.now)) }
    {
        match words {
            [key, args @ ..] => match any_key(key) {
                Some(key) => self.take_keyed(alloc, key, args),
                None => Err(LineRefused::Why(TextWhy::UnknownKey)),
            },
            [] => Ok(()),
        }
    }

    /// Takes a line. After a refusal the value is of no use.
    pub fn take_line(&mut self, alloc: Global, line: &[u8]) -> Result<(), LineRefused>
        ensures { Steps result self.new (take_scenario_line self.old line.now) }
    {
        if !is_utf8(line) {
            return Err(LineRefused::Why(TextWhy::NotUtf8));
        }
        let words = words(alloc, line)?;
        if is_skipped(&words) {
            return Ok(());
        }
        self.take_words(alloc, &words)
    }

    /// The scenario, at the end of the text.
    pub fn finish(mut self, alloc: Global) -> Result<Scenario, LineRefused>
        ensures { Gives (λ s. s) result (scenario_finished self) }
    {
        self.closes(alloc, true, 2)?;
        let Reader {
            section: _,
            head,
            slaves,
            block: _,
            links,
        } = self;
        let said = head.as_slice();
        // A head that closed has the line.
        let master = master_said(said).unwrap_or(Address { ip: 0, port: 0 });
        let steps = steps_said(said);
        let micro = number_said(HeadKey::Micro, said).unwrap_or(1);
        let runs = runs_said(said);
        let protocol = protocol_said(said).unwrap_or(Protocol::Udp);
        let limits = limits_said(said);
        let Links {
            wires,
            settings,
            every,
            reruns,
            net,
        } = links.into_links();
        Ok(Scenario {
            steps,
            micro,
            runs,
            protocol,
            master,
            limits,
            slaves,
            wires,
            settings,
            every,
            reruns,
            net,
        })
    }
}
