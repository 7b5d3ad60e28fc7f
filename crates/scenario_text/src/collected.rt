//! What the lines of the links so far say, and what is wrong with the next one among them.

ghost use Rattle.std.specs.Prelude.{◌≡◌, ◌==◌, ◌&&◌, List, [], OnOk, IfOk};
ghost use Rattle.std.specs.List.{list_any};
ghost use Rattle.desc_text.specs.Machine.{longer};
ghost use Rattle.scenario.specs.Lookups.{type_at};
ghost use Rattle.scenario.specs.Wiring.{same_input};
ghost use Rattle.scenario_text.specs.Checks.{why_wire, why_change, why_setting, why_rerun, why_every, why_net, why_link};
ghost use Rattle.scenario_text.specs.Said.{set_in, rerun_in};
ghost use Rattle.scenario.specs.Settings.{takes_at};
ghost use Rattle.scenario_text.specs.LastSettings.{SameSettings, IsLastRun};
ghost use Rattle.scenario.specs.declared.scenarios.Rerun.{Rerun};

use crate::latest::LatestSettings;
use crate::link_words::LinkLine;
use dcp_types::OutOfMemory;
use fixed_models::takes;
use scenario::{
    Chaos, Every, Intervals, NetLines, NetPlan, Rerun, Reruns, Setting, Settings, Wire, Wires,
    change_all, inputs_at, outputs_at, parameters_at, slave_at, type_at,
};
use slave_desc::SlaveDesc;
use std::alloc::Global;
use std::marker::Model;
use text_lines::TextWhy;

/// What the lines of the links so far say.
#[derive(Debug, Drop)]
pub struct Links {
    pub wires: Wires,
    pub settings: Settings,
    pub every: Intervals,
    pub reruns: Reruns,
    pub net: NetPlan,
}

/// What the lines of the links so far say, as contracts see it. Beside it stands what judging the
/// next line needs of the settings, so that it takes no longer where there are many.
#[derive(Debug, Drop)]
pub struct Collected {
    links: Links,
    /// What the settings before the first run come to.
    first: LatestSettings,
    /// What those before later runs come to.
    later: LatestSettings,
    /// The last of these runs; 0 where there is none.
    last_run: u32,
}

impl Model for Collected {
    ghost use Rattle.scenario_text.specs.declared.collected.Links.{Links};

    ghost Value = { Links };

    ghost use Rattle.scenario_text.specs.LastSettings.{IsKept};

    ghost view = { λ n. n.links };

    ghost invariant = { λ n. IsKept n.links n.first n.later n.last_run };
}

fn has_wire_into(wires: &[Wire], wire: Wire) -> bool
    ensures { result ≡ list_any (λ v. same_input v wire) wires.now }
{
    wires.iter().any(|v| v.has_same_input(wire))
}

fn goes(wire: Wire, from: u8, to: u8) -> bool
    ensures { result ≡ ((wire.from == from) && (wire.to == to)) }
{
    wire.from == from && wire.to == to
}

fn has_wire_between(wires: &[Wire], from: u8, to: u8) -> bool
    ensures { result ≡ list_any (λ w. (w.from == from) && (w.to == to)) wires.now }
{
    wires.iter().any(|w| goes(*w, from, to))
}

fn is_of_pair(every: Every, from: u8, to: u8) -> bool
    ensures { result ≡ ((every.from == from) && (every.to == to)) }
{
    every.from == from && every.to == to
}

fn has_interval(intervals: &[Every], from: u8, to: u8) -> bool
    ensures { result ≡ list_any (λ e. (e.from == from) && (e.to == to)) intervals.now }
{
    intervals.iter().any(|e| is_of_pair(*e, from, to))
}

fn check_wire(slaves: &[SlaveDesc], wires: &[Wire], wire: Wire) -> Option<TextWhy>
    ensures { result ≡ why_wire slaves.now wires.now wire }
{
    let out = type_at(outputs_at(slaves, wire.from), wire.out);
    let into = type_at(inputs_at(slaves, wire.to), wire.into);
    if out != into {
        Some(TextWhy::TypeMismatch)
    } else if has_wire_into(wires, wire) {
        Some(TextWhy::TwoWires)
    } else {
        None
    }
}

fn takes_at(slaves: &[SlaveDesc], slave: u8, parameters: &[i64]) -> bool
    ensures { result ≡ takes_at slaves.now slave parameters.now }
{
    match slave_at(slaves, slave) {
        Some(slave) => takes(slave.kind, parameters),
        None => false,
    }
}

fn set_said(link: LinkLine) -> Option<Setting>
    ensures { result ≡ set_in link }
{
    match link {
        LinkLine::Set(setting) => Some(setting),
        _ => None,
    }
}

fn rerun_said(link: LinkLine) -> Option<Rerun>
    ensures { result ≡ rerun_in link }
{
    match link {
        LinkLine::RerunSet(rerun) => Some(rerun),
        _ => None,
    }
}

/// Adds a setting, if there is one.
fn put_if(latest: &mut LatestSettings, setting: Option<Setting>) -> Result<(), OutOfMemory>
    ensures { OnOk result (SameSettings latest.new (longer latest.old setting)) }
{
    if let Some(setting) = setting {
        latest.put(setting)?;
    }
    Ok(())
}

/// The last run, after one more setting before a later run, if there is one.
fn last_run_with(last: u32, rerun: Option<Rerun>) -> u32
    ensures { (reruns : List Rerun) → IsLastRun last reruns → IsLastRun result (longer reruns rerun) }
{
    match rerun {
        Some(rerun) => last.max(rerun.run),
        None => last,
    }
}

fn check_every(links: &Links, every: Every) -> Option<TextWhy>
    ensures { result ≡ why_every links.now every }
{
    if has_interval(links.every.as_slice(), every.from, every.to) {
        Some(TextWhy::Repeated)
    } else if has_wire_between(links.wires.as_slice(), every.from, every.to) {
        None
    } else {
        Some(TextWhy::NoWire)
    }
}

fn check_net(links: &Links) -> Option<TextWhy>
    ensures { result ≡ why_net links.now }
{
    if links.net.lines.as_slice().len() >= 64 {
        Some(TextWhy::Limit)
    } else {
        None
    }
}

impl Links {
    ghost use Rattle.scenario_text.specs.Collecting.{no_links, put_link};

    /// No links. It takes no memory.
    pub fn new(alloc: Global) -> Links
        ensures { result ≡ no_links }
    {
        Links {
            wires: Wires::new(alloc),
            settings: Settings::new(alloc),
            every: Intervals::new(alloc),
            reruns: Reruns::new(alloc),
            net: NetPlan {
                lines: NetLines::new(alloc),
                chaos: None,
            },
        }
    }

    /// Adds what a line says. After want of memory the value is of no use.
    pub fn put(&mut self, link: LinkLine) -> Result<(), OutOfMemory>
        ensures { OnOk result (self.new ≡ put_link self.old link) }
    {
        match link {
            LinkLine::Wire(wire) => self.wires.push(wire)?,
            LinkLine::Set(setting) => self.settings.push(setting)?,
            LinkLine::RerunSet(rerun) => self.reruns.push(rerun)?,
            LinkLine::Every(every) => self.every.push(every)?,
            LinkLine::Net(line) => self.net.lines.push(line)?,
            LinkLine::Chaos(chaos) => self.put_chaos(chaos),
        }
        Ok(())
    }

    fn put_chaos(&mut self, chaos: Chaos)
        ensures { self.new ≡ put_link self.old (LinkLine.Chaos chaos) }
    {
        self.net.chaos = Some(chaos);
    }
}

impl Collected {
    ghost use Rattle.scenario_text.specs.Collecting.{no_links, put_link};

    /// No links. It takes no memory.
    pub fn new(alloc: Global) -> Collected
        ensures { result ≡ no_links }
    {
        Collected {
            links: Links::new(alloc),
            first: LatestSettings::new(alloc),
            later: LatestSettings::new(alloc),
            last_run: 0,
        }
    }

    pub fn links(&self) -> &Links
        ensures { result.now ≡ self.now }
    {
        &self.links
    }

    pub fn into_links(self) -> Links
        ensures { result ≡ self }
    {
        self.links
    }

    /// What is wrong with a setting after all settings before it.
    fn check_change(
        &self,
        alloc: Global,
        slaves: &[SlaveDesc],
        setting: Setting,
    ) -> Result<Option<TextWhy>, OutOfMemory>
        ensures { IfOk result (λ o. o ≡ why_change slaves.now self.now setting) }
    {
        let slave = setting.slave;
        let mut parameters = Vec::from_slice(alloc, parameters_at(slaves, slave))?;
        change_all(&mut parameters, slave, self.first.as_slice());
        change_all(&mut parameters, slave, self.later.as_slice());
        setting.change(slave, &mut parameters);
        if takes_at(slaves, slave, parameters.as_slice()) {
            Ok(None)
        } else {
            Ok(Some(TextWhy::Parameters))
        }
    }

    fn check_setting(
        &self,
        alloc: Global,
        slaves: &[SlaveDesc],
        setting: Setting,
    ) -> Result<Option<TextWhy>, OutOfMemory>
        ensures { IfOk result (λ o. o ≡ why_setting slaves.now self.now setting) }
    {
        if !self.links.reruns.as_slice().is_empty() {
            return Ok(Some(TextWhy::Order));
        }
        self.check_change(alloc, slaves, setting)
    }

    fn check_rerun(
        &self,
        alloc: Global,
        slaves: &[SlaveDesc],
        rerun: Rerun,
    ) -> Result<Option<TextWhy>, OutOfMemory>
        ensures { IfOk result (λ o. o ≡ why_rerun slaves.now self.now rerun) }
    {
        if rerun.run < self.last_run {
            return Ok(Some(TextWhy::Order));
        }
        self.check_change(alloc, slaves, rerun.setting())
    }

    /// What is wrong with the whole line that says this, after the lines of the links before it.
    pub fn check(
        &self,
        alloc: Global,
        slaves: &[SlaveDesc],
        link: LinkLine,
    ) -> Result<Option<TextWhy>, OutOfMemory>
        ensures { IfOk result (λ o. o ≡ why_link slaves.now self.now link) }
    {
        match link {
            LinkLine::Wire(wire) => Ok(check_wire(slaves, self.links.wires.as_slice(), wire)),
            LinkLine::Set(setting) => self.check_setting(alloc, slaves, setting),
            LinkLine::RerunSet(rerun) => self.check_rerun(alloc, slaves, rerun),
            LinkLine::Every(every) => Ok(check_every(&self.links, every)),
            LinkLine::Net(_) => Ok(check_net(&self.links)),
            LinkLine::Chaos(_) => Ok(None),
        }
    }

    /// The links with what one more line says. It takes `self`, since what is kept beside the links
    /// no longer fits them where memory runs out in between.
    pub fn with(self, link: LinkLine) -> Result<Collected, OutOfMemory>
        ensures { IfOk result (λ c. c ≡ put_link self link) }
    {
        let Collected {
            mut links,
            mut first,
            mut later,
            last_run,
        } = self;
        put_if(&mut first, set_said(link))?;
        let rerun = rerun_said(link);
        put_if(&mut later, rerun.map(Rerun::setting))?;
        let last_run = last_run_with(last_run, rerun);
        links.put(link)?;
        Ok(Collected {
            links,
            first,
            later,
            last_run,
        })
    }
}
