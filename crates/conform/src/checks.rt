//! The check of a slave's entries.

ghost use Rattle.std.specs.Prelude.{◌≡◌, ◌≤◌, ◌<◌, ◌+◌, ◌^◌, ◌++◌, ◌∷◌, [], List, length, Some, IfOk, take, MatchOption};
ghost use Rattle.dcp_ends.specs.declared.entries.LogEntry.{LogEntry};
ghost use Rattle.dcp_ends.specs.declared.entries.LogEntry.TheVariants.{Sent, Got, Idle, Turn};
ghost use Rattle.dcp_ends.specs.Logs.{event_at};
ghost use Rattle.dcp_record.specs.EntryRefs.{entry_told};
ghost use Rattle.scenario.specs.Lookups.{slave_at};
ghost use Rattle.scenario.specs.Sound.{IsScenario, IsSlave};
ghost use Rattle.slave_desc.specs.Descriptions.{IsDesc};
ghost use Rattle.slave_desc.specs.declared.descriptions.SlaveDesc.{SlaveDesc};
ghost use Rattle.conform.specs.Checks.{Judges};
ghost use Rattle.conform.specs.Following.{HasFollowed, Followed};

use crate::answers::{BadWhy, Conformance};
use crate::followers::Follower;
use dcp_record::{Entries, EntryRef};
use dcp_types::{Address, OutOfMemory};
use scenario::{Scenario, slave_at};
use slave_core::same_address;
use std::alloc::Global;

/// Goes on past a Sent.
fn follow_sent(
    follower: &mut Follower<'_>,
    from: Address,
    to: Address,
    bytes: &[u8],
) -> Option<BadWhy>
    ensures { (d : SlaveDesc) (before : List LogEntry) → IsDesc d → HasFollowed follower.old d before → Followed d before (Sent from to bytes.now) follower.new result }
{
    if !same_address(from, follower.address()) {
        return None;
    }
    if follower.on_sent(to, bytes) {
        None
    } else {
        Some(BadWhy::Send)
    }
}

/// Goes on past a Got.
fn follow_got(
    follower: &mut Follower<'_>,
    at: Address,
    from: Address,
    bytes: &[u8],
) -> Option<BadWhy>
    ensures { (d : SlaveDesc) (before : List LogEntry) → IsDesc d → HasFollowed follower.old d before → Followed d before (Got at from bytes.now) follower.new result }
{
    if !same_address(at, follower.address()) {
        return None;
    }
    if !follower.may_end() {
        return Some(BadWhy::Missing);
    }
    follower.on_gram(from, bytes);
    None
}

/// Goes on past an Idle.
fn follow_idle(follower: &mut Follower<'_>, at: Address) -> Option<BadWhy>
    ensures { (d : SlaveDesc) (before : List LogEntry) → IsDesc d → HasFollowed follower.old d before → Followed d before (Idle at) follower.new result }
{
    if !same_address(at, follower.address()) {
        return None;
    }
    if !follower.may_end() {
        return Some(BadWhy::Missing);
    }
    follower.close();
    None
}

/// Goes on past a Turn.
fn follow_turn(follower: &mut Follower<'_>, at: Address) -> Option<BadWhy>
    ensures { (d : SlaveDesc) (before : List LogEntry) → IsDesc d → HasFollowed follower.old d before → Followed d before (Turn at) follower.new result }
{
    if !same_address(at, follower.address()) {
        return None;
    }
    if !follower.may_end() {
        return Some(BadWhy::Missing);
    }
    follower.on_turn();
    None
}

/// Goes on past one entry. Answers why it may not come.
fn follow(follower: &mut Follower<'_>, entry: &EntryRef<'_>) -> Option<BadWhy>
    ensures { (d : SlaveDesc) (before : List LogEntry) → IsDesc d → HasFollowed follower.old d before → Followed d before (entry_told entry.now) follower.new result }
{
    match entry {
        EntryRef::Sent { from, to, bytes } => follow_sent(follower, *from, *to, bytes),
        EntryRef::Got { at, from, bytes } => follow_got(follower, *at, *from, bytes),
        EntryRef::Idle { at } => follow_idle(follower, *at),
        EntryRef::Turn { at } => follow_turn(follower, *at),
    }
}

/// One more where an entry is an event of the end at this address.
fn counted(events: u64, entry: &EntryRef<'_>, place: Address) -> u64
    requires { events + 1 < 2 ^ 64 }
    ensures { result ≡ events + length (event_at place (entry_told entry.now)) }
{
    match entry {
        EntryRef::Got { at, .. } if same_address(place, *at) => events + 1,
        EntryRef::Turn { at } if same_address(place, *at) => events + 1,
        _ => events,
    }
}

/// Goes through the entries with a slave to which nothing has come.
fn go_through(follower: &mut Follower<'_>, entries: &Entries<'_>) -> Conformance
    ensures { (d : SlaveDesc) → IsDesc d → HasFollowed follower.old d [] → Judges d entries.now result }
{
    let place = follower.address();
    let mut cursor = entries.cursor();
    let mut events = 0;
    'entries: while !cursor.is_at_end() {
        let at = cursor.at();
        let Some(entry) = cursor.next() else {
            unreachable!();
        };
        match follow(follower, &entry) {
            Some(why) => {
                return Conformance::Bad {
                    entry: at as u64,
                    why,
                };
            }
            None => events = counted(events, &entry, place),
        }
    }
    if follower.may_end() {
        Conformance::Follows { events }
    } else {
        Conformance::Bad {
            entry: cursor.at() as u64,
            why: BadWhy::Missing,
        }
    }
}

/// Checks the entries of a slave of a scenario, by its number from 1, whose model need not be the one of the
/// scenario: whether such a slave may have them, and else where they break and why. Only making the follower
/// takes memory.
pub fn check(
    alloc: Global,
    scenario: &Scenario,
    slave: u8,
    entries: &Entries<'_>,
) -> Result<Conformance, OutOfMemory>
    requires scenario { IsScenario scenario.now }
    requires slave { IsSlave scenario.now.slaves slave }
    ensures { (d : SlaveDesc) → slave_at scenario.now.slaves slave ≡ Some d → IfOk result (λ answer. Judges d entries.now answer) }
{
    let Some(desc) = slave_at(scenario.slaves.as_slice(), slave) else {
        unreachable!();
    };
    let mut follower = Follower::new(alloc, desc)?;
    Ok(go_through(&mut follower, entries))
}
