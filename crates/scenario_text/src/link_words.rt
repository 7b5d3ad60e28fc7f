//! What the lines of the links say, after the slaves.

ghost use Rattle.std.specs.Prelude.{◌≡◌, ◌<◌, ◌≤◌, map, length, IfSome};
ghost use Rattle.std.specs.Str.{bytes_eq};
ghost use Rattle.scenario_text.specs.Links.{place_of, number_of_slave, index_of, end_of, hex_value, type_of, wire_of, setting_of, rerun_of, every_of, message_named, drop_of, copy_of, hold_of, chaos_of, link_of};
ghost use Rattle.scenario.specs.Lookups.{outputs_at, inputs_at, parameters_at};

use crate::keys::LinkKey;
use dcp_types::is_name;
use scenario::{Chaos, Every, NetLine, Rerun, Setting, Wire, inputs_at, outputs_at, parameters_at};
use slave_desc::SlaveDesc;
use text_lines::{TextWhy, four_words, int64, number, number_from, three_words};

/// What a line of the links says.
#[derive(Clone, Copy, Debug, PartialEq, Eq)]
pub enum LinkLine {
    Wire(Wire),
    Set(Setting),
    RerunSet(Rerun),
    Every(Every),
    Net(NetLine),
    Chaos(Chaos),
}

/// Whether a slave has this name.
pub fn is_named(slave: &SlaveDesc, word: &[u8]) -> bool
    ensures { result ≡ bytes_eq slave.now.name word.now }
{
    slave.name.as_str().as_bytes() == word
}

fn place_of(slaves: &[SlaveDesc], word: &[u8]) -> Option<usize>
    ensures place { result ≡ place_of slaves.now word.now }
    ensures within { IfSome result (λ n. n < length slaves.now) }
{
    slaves.iter().position(|s| is_named(s, word))
}

/// The number of the slave that has this name, from 1.
fn slave_of(slaves: &[SlaveDesc], word: &[u8]) -> Result<u8, TextWhy>
    requires { length slaves.now ≤ 16 }
    ensures { result ≡ number_of_slave slaves.now word.now }
{
    if !is_name(word) {
        return Err(TextWhy::BadName);
    }
    match place_of(slaves, word) {
        Some(place) => Ok((place + 1) as u8),
        None => Err(TextWhy::UnknownSlave),
    }
}

/// A port or a parameter by its number, of `count`.
fn index_of(count: usize, word: &[u8]) -> Result<u8, TextWhy>
    ensures { result ≡ index_of count word.now }
{
    let index = number(word).ok_or(TextWhy::BadNumber)?;
    if index < count as u128 && index < 256 {
        Ok(index as u8)
    } else {
        Err(TextWhy::UnknownPort)
    }
}

/// An end by its number: 0 for the master, and slaves from 1.
fn end_of(count: usize, word: &[u8]) -> Result<u8, TextWhy>
    requires { count ≤ 16 }
    ensures { result ≡ end_of count word.now }
{
    let end = number(word).ok_or(TextWhy::BadNumber)?;
    if end <= count as u128 {
        Ok(end as u8)
    } else {
        Err(TextWhy::UnknownSlave)
    }
}

fn hex_value(byte: u8) -> Option<u8>
    ensures value { result ≡ hex_value byte }
    ensures small { IfSome result (λ n. n < 16) }
{
    if 48 <= byte && byte <= 57 {
        return Some(byte - 48);
    }
    if 65 <= byte && byte <= 70 {
        return Some(byte - 55);
    }
    if 97 <= byte && byte <= 102 {
        return Some(byte - 87);
    }
    None
}

/// The type code that two hexadecimal digits are.
fn type_of(word: &[u8]) -> Result<u8, TextWhy>
    ensures { result ≡ type_of word.now }
{
    match word {
        [high, low] => {
            let high = hex_value(*high).ok_or(TextWhy::BadNumber)?;
            let low = hex_value(*low).ok_or(TextWhy::BadNumber)?;
            Ok(high * 16 + low)
        }
        _ => Err(TextWhy::BadNumber),
    }
}

fn wire_of(slaves: &[SlaveDesc], args: &[&[u8]]) -> Result<Wire, TextWhy>
    requires { length slaves.now ≤ 16 }
    ensures { result ≡ wire_of slaves.now (map (λ w. w.now) args.now) }
{
    let (from, out, to, into) = four_words(args)?;
    let from = slave_of(slaves, from)?;
    let out = index_of(outputs_at(slaves, from).len(), out)?;
    let to = slave_of(slaves, to)?;
    let into = index_of(inputs_at(slaves, to).len(), into)?;
    Ok(Wire {
        from,
        out,
        to,
        into,
    })
}

fn setting_of(slaves: &[SlaveDesc], args: &[&[u8]]) -> Result<Setting, TextWhy>
    requires { length slaves.now ≤ 16 }
    ensures { result ≡ setting_of slaves.now (map (λ w. w.now) args.now) }
{
    let (slave, index, value) = three_words(args)?;
    let slave = slave_of(slaves, slave)?;
    let index = index_of(parameters_at(slaves, slave).len(), index)?;
    let value = int64(value)?;
    Ok(Setting {
        slave,
        index,
        value,
    })
}

fn rerun_of(slaves: &[SlaveDesc], runs: u32, args: &[&[u8]]) -> Result<Rerun, TextWhy>
    requires { length slaves.now ≤ 16 }
    ensures { result ≡ rerun_of slaves.now runs (map (λ w. w.now) args.now) }
{
    let (run, slave, index, value) = four_words(args)?;
    let run = number_from(2, runs as u64, run)?;
    let slave = slave_of(slaves, slave)?;
    let index = index_of(parameters_at(slaves, slave).len(), index)?;
    let value = int64(value)?;
    Ok(Rerun {
        run: run as u32,
        slave,
        index,
        value,
    })
}

fn every_of(slaves: &[SlaveDesc], args: &[&[u8]]) -> Result<Every, TextWhy>
    requires { length slaves.now ≤ 16 }
    ensures { result ≡ every_of slaves.now (map (λ w. w.now) args.now) }
{
    let (from, to, q) = three_words(args)?;
    let from = slave_of(slaves, from)?;
    let to = slave_of(slaves, to)?;
    let q = number_from(1, 1000, q)?;
    Ok(Every {
        from,
        to,
        q: q as u32,
    })
}

/// The messages that a net line is about: an end, a type code, and which of them.
fn message_of(
    count: usize,
    end: &[u8],
    type_id: &[u8],
    nth: &[u8],
) -> Result<(u8, u8, u32), TextWhy>
    requires { count ≤ 16 }
    ensures { result ≡ message_named count end.now type_id.now nth.now }
{
    let end = end_of(count, end)?;
    let type_id = type_of(type_id)?;
    let nth = number_from(0, 1_000_000, nth)?;
    Ok((end, type_id, nth as u32))
}

fn drop_of(count: usize, args: &[&[u8]]) -> Result<NetLine, TextWhy>
    requires { count ≤ 16 }
    ensures { result ≡ drop_of count (map (λ w. w.now) args.now) }
{
    let (end, type_id, nth) = three_words(args)?;
    let (end, type_id, nth) = message_of(count, end, type_id, nth)?;
    Ok(NetLine::Drop { end, type_id, nth })
}

fn copy_of(count: usize, args: &[&[u8]]) -> Result<NetLine, TextWhy>
    requires { count ≤ 16 }
    ensures { result ≡ copy_of count (map (λ w. w.now) args.now) }
{
    let (end, type_id, nth, lag) = four_words(args)?;
    let (end, type_id, nth) = message_of(count, end, type_id, nth)?;
    let lag = number_from(1, 1000, lag)?;
    Ok(NetLine::Copy {
        end,
        type_id,
        nth,
        lag: lag as u32,
    })
}

fn hold_of(count: usize, args: &[&[u8]]) -> Result<NetLine, TextWhy>
    requires { count ≤ 16 }
    ensures { result ≡ hold_of count (map (λ w. w.now) args.now) }
{
    let (end, type_id, nth, lag) = four_words(args)?;
    let (end, type_id, nth) = message_of(count, end, type_id, nth)?;
    let lag = number_from(1, 1000, lag)?;
    Ok(NetLine::Hold {
        end,
        type_id,
        nth,
        lag: lag as u32,
    })
}

fn chaos_of(args: &[&[u8]]) -> Result<Chaos, TextWhy>
    ensures { result ≡ chaos_of (map (λ w. w.now) args.now) }
{
    let (start, drop, repeat, hold) = four_words(args)?;
    let start = number_from(0, u64::MAX, start)?;
    let drop = number_from(0, 1000, drop)?;
    let repeat = number_from(0, 1000, repeat)?;
    let hold = number_from(0, 1000, hold)?;
    Ok(Chaos {
        start,
        drop: drop as u32,
        repeat: repeat as u32,
        hold: hold as u32,
    })
}

/// What a line of this key and these words says.
pub fn link_of(
    slaves: &[SlaveDesc],
    runs: u32,
    key: LinkKey,
    args: &[&[u8]],
) -> Result<LinkLine, TextWhy>
    requires { length slaves.now ≤ 16 }
    ensures { result ≡ link_of slaves.now runs key (map (λ w. w.now) args.now) }
{
    match key {
        LinkKey::Wire => {
            let wire = wire_of(slaves, args)?;
            Ok(LinkLine::Wire(wire))
        }
        LinkKey::Set => {
            let setting = setting_of(slaves, args)?;
            Ok(LinkLine::Set(setting))
        }
        LinkKey::RerunSet => {
            let rerun = rerun_of(slaves, runs, args)?;
            Ok(LinkLine::RerunSet(rerun))
        }
        LinkKey::Every => {
            let every = every_of(slaves, args)?;
            Ok(LinkLine::Every(every))
        }
        LinkKey::Drop => {
            let line = drop_of(slaves.len(), args)?;
            Ok(LinkLine::Net(line))
        }
        LinkKey::Copy => {
            let line = copy_of(slaves.len(), args)?;
            Ok(LinkLine::Net(line))
        }
        LinkKey::Hold => {
            let line = hold_of(slaves.len(), args)?;
            Ok(LinkLine::Net(line))
        }
        LinkKey::Chaos => {
            let chaos = chaos_of(args)?;
            Ok(LinkLine::Chaos(chaos))
        }
    }
}
