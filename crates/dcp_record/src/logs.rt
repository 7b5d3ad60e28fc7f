//! The log of a trace, read where it stands.

ghost use Rattle.std.specs.Prelude.{◌≡◌, ◌<◌, ◌≤◌, ◌+◌, ◌^◌, length, Some, IfOk, IfErr, IfSome, IfNone, MatchBool};
ghost use Rattle.std.specs.List.{slice_get};
ghost use Rattle.dcp_record.specs.Cuts.{AreEntries, BadEntry};
ghost use Rattle.dcp_record.specs.EntryRefs.{entry_told};

use crate::entries_in::{cut_entry, fault_at};
use crate::entry_refs::EntryRef;
use crate::faults::TraceFault;
use crate::told_logs::ToldLog;
use std::marker::Model;

/// The log of a trace, in the bytes of the trace: it takes no memory. Contracts see the list of its entries.
#[derive(Drop)]
pub struct Entries<'a> {
    bytes: &'a [u8],
    count: usize,
    told: ToldLog,
}

impl<'a> Model for Entries<'a> {
    ghost use Rattle.std.specs.Prelude.{List};
    ghost use Rattle.dcp_ends.specs.declared.entries.LogEntry.{LogEntry};
    ghost use Rattle.dcp_record.specs.Places.{IsLogIn};

    ghost Value = { List LogEntry };

    ghost view = { λ e. e.told.entries };

    ghost invariant = { λ e. IsLogIn e.bytes.now e.count e.told.entries };
}

/// A place in a log that is gone through from its first entry to its last. Contracts see the log, and how
/// many of its entries are behind.
#[derive(Drop)]
pub struct EntryCursor<'a> {
    rest: &'a [u8],
    at: usize,
    told: ToldLog,
}

impl<'a> Model for EntryCursor<'a> {
    ghost use Rattle.dcp_record.specs.Places.{IsLeftFrom, LogPlace};

    ghost Value = { LogPlace };

    ghost view = { λ c. record { entries = c.told.entries; at = c.at } };

    ghost invariant = { λ c. IsLeftFrom c.rest.now c.told.entries c.at };
}

impl<'a> Entries<'a> {
    /// How many entries there are.
    pub fn len(&self) -> usize
        ensures { result ≡ length self.now }
    {
        self.count
    }

    /// The place before the first entry.
    pub fn cursor(&self) -> EntryCursor<'a>
        ensures { result ≡ record { entries = self.now; at = 0 } }
    {
        first_place(self.bytes, &self.told)
    }
}

/// The place before the first of these entries, whose bytes these are.
pub fn first_place<'a>(bytes: &'a [u8], told: &ToldLog) -> EntryCursor<'a>
    requires all { AreEntries bytes.now told.now.entries }
    requires few { length told.now.entries < 2 ^ 64 }
    ensures { result ≡ record { entries = told.now.entries; at = 0 } }
{
    EntryCursor {
        rest: bytes,
        at: 0,
        told: told.again(),
    }
}

impl<'a> EntryCursor<'a> {
    /// How many entries are behind: the place, from 0, of the entry that is next.
    pub fn at(&self) -> usize
        ensures at { result ≡ self.now.at }
        ensures within { self.now.at ≤ length self.now.entries }
        ensures few { length self.now.entries < 2 ^ 64 }
    {
        self.at
    }

    /// Whether all entries are behind.
    pub fn is_at_end(&self) -> bool
        ensures { MatchBool result (self.now.at ≡ length self.now.entries) (self.now.at < length self.now.entries) }
    {
        self.rest.is_empty()
    }

    /// The next entry, which is then behind; none where all are.
    pub fn next(&mut self) -> Option<EntryRef<'a>>
        ensures here { IfSome result (λ entry. slice_get self.old.entries self.old.at ≡ Some (entry_told entry)) }
        ensures behind { IfSome result (λ _. self.new ≡ record { entries = self.old.entries; at = self.old.at + 1 }) }
        ensures end { IfNone result (self.old.at ≡ length self.old.entries) }
        ensures stays { IfNone result (self.new ≡ self.old) }
    {
        let (tag, after) = self.rest.split_first()?;
        let Ok((entry, rest)) = cut_entry(*tag, after) else {
            unreachable!();
        };
        self.rest = rest;
        self.at += 1;
        Some(entry)
    }
}

/// The entries to the end of these bytes. Places are counted from `start` bytes before them.
pub fn cut_entries(start: usize, bytes: &[u8]) -> Result<Entries<'_>, TraceFault>
    requires { start + length bytes.now < 2 ^ 64 }
    ensures ok { IfOk result (λ entries. AreEntries bytes.now entries) }
    ensures err { IfErr result (λ fault. BadEntry start bytes.now fault.at fault.why) }
{
    let mut told = ToldLog::new();
    let mut count = 0;
    let mut rest = bytes;
    'entries: while let Some((tag, after)) = rest.split_first() {
        match cut_entry(*tag, after) {
            Ok((entry, next)) => {
                told = told.then(&entry);
                count += 1;
                rest = next;
            }
            Err(why) => {
                let at = start + (bytes.len() - rest.len());
                return Err(fault_at(why, at, rest));
            }
        }
    }
    Ok(Entries { bytes, count, told })
}
