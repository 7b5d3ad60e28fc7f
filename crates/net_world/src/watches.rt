//! The lines of the plan, each with how many messages of its end and type code were sent.

ghost use Rattle.std.specs.Prelude.{◌≡◌, ◌≤◌, ◌<◌, ◌+◌, ◌^◌, length, map, IfOk};
ghost use Rattle.std.specs.List.{All};
ghost use Rattle.std.specs.Option.{option_map};
ghost use Rattle.dcp_net.specs.Firsts.{first_that};
ghost use Rattle.net_world.specs.Lines.{end_named, line_code, nth_named};
ghost use Rattle.net_world.specs.Messages.{is_end, is_from_end};
ghost use Rattle.net_world.specs.Watches.{watch_counted, unseen, line_watched, watch_names};

use dcp_types::Address;
use scenario::NetLine;
use std::alloc::{AllocError, Global};

/// A line of the plan, and how many messages of its end and type code were sent.
#[derive(Clone, Copy, Debug)]
pub struct Watch {
    pub line: NetLine,
    pub seen: u64,
}

/// What a line names: an end, a type code, and which of its messages, or every one where `nth` is 0.
#[derive(Clone, Copy, Debug)]
struct Subject {
    end: u8,
    type_id: u8,
    nth: u32,
}

/// What this line names.
fn subject_of(line: NetLine) -> Subject
    ensures { result ≡ record { end = end_named line; type_id = line_code line; nth = nth_named line } }
{
    match line {
        NetLine::Drop { end, type_id, nth }
        | NetLine::Copy {
            end,
            type_id,
            nth,
            ..
        }
        | NetLine::Hold {
            end,
            type_id,
            nth,
            ..
        } => Subject { end, type_id, nth },
    }
}

/// Whether this address is that of the end with this number.
fn is_end(all: &[Address], end: u8, from: Address) -> bool
    ensures { result ≡ is_end all.now end from }
{
    match all.get(usize::from(end)) {
        Some(place) => *place == from,
        None => false,
    }
}

/// Whether the message has the end and the type code that the line names.
fn is_from_end(line: NetLine, all: &[Address], from: Address, bytes: &[u8]) -> bool
    requires { 1 ≤ length bytes.now }
    ensures { result ≡ is_from_end all.now (end_named line) (line_code line) from bytes.now }
{
    let subject = subject_of(line);
    is_end(all, subject.end, from) && bytes[0] == subject.type_id
}

/// Whether the line names the message that is sent now.
fn line_names(watch: Watch, all: &[Address], from: Address, bytes: &[u8]) -> bool
    requires { 1 ≤ length bytes.now }
    ensures { result ≡ watch_names all.now from bytes.now watch }
{
    let nth = subject_of(watch.line).nth;
    is_from_end(watch.line, all, from, bytes) && (nth == 0 || watch.seen == u64::from(nth - 1))
}

/// The line that applies to the message that is sent now: the first that names it.
pub fn line_for(watches: &[Watch], all: &[Address], from: Address, bytes: &[u8]) -> Option<NetLine>
    requires { 1 ≤ length bytes.now }
    ensures { result ≡ option_map line_watched (first_that (watch_names all.now from bytes.now) watches.now) }
{
    for watch in watches {
        if line_names(*watch, all, from, bytes) {
            return Some(watch.line);
        }
    }
    None
}

/// The line with the message counted that is sent now.
fn watch_counted(watch: Watch, all: &[Address], from: Address, bytes: &[u8]) -> Watch
    requires filled { 1 ≤ length bytes.now }
    requires few { watch.seen + 1 < 2 ^ 64 }
    ensures { result ≡ watch_counted all.now from bytes.now watch }
{
    if is_from_end(watch.line, all, from, bytes) {
        return Watch {
            line: watch.line,
            seen: watch.seen + 1,
        };
    }
    watch
}

/// Counts the message that is sent now.
pub fn count(watches: &mut [Watch], all: &[Address], from: Address, bytes: &[u8])
    requires filled { 1 ≤ length bytes.now }
    requires few { All (λ watch. watch.seen + 1 < 2 ^ 64) watches.old }
    ensures { watches.new ≡ map (watch_counted all.now from bytes.now) watches.old }
{
    for watch in watches.iter_mut() {
        *watch = watch_counted(*watch, all, from, bytes);
    }
}

/// The lines of a plan, before any message.
pub fn watched(alloc: Global, lines: &[NetLine]) -> Result<Vec<Watch>, AllocError>
    ensures { IfOk result (λ watches. watches.items ≡ map unseen lines.now) }
{
    let mut watches = Vec::with_capacity(alloc, lines.len())?;
    for line in lines {
        watches.push(Watch {
            line: *line,
            seen: 0,
        })?;
    }
    Ok(watches)
}
