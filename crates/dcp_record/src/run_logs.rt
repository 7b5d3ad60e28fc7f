//! A log as it grows, in the bytes that a trace has of it.

ghost use Rattle.std.specs.Prelude.{◌≡◌, ◌≤◌, ◌+◌, List, [], ◌∷◌, ◌++◌, All, length, vec_len, vec_capacity, OnOk};
ghost use Rattle.std.specs.Int.{to_le_bytes, w16};
ghost use Rattle.dcp_ends.specs.declared.entries.LogEntry.TheVariants.{Sent, Got, Idle, Turn};
ghost use Rattle.dcp_record.specs.Places.{gots_in};
ghost use Rattle.dcp_record.specs.Traces.{IsRecordable, address_bytes, payload_bytes, all_entry_bytes};

use crate::entry_refs::EntryRef;
use crate::logs::{EntryCursor, first_place};
use crate::told_logs::ToldLog;
use dcp_types::Address;
use std::alloc::{AllocError, Global};
use std::marker::Model;

/// How many bytes the longest entry has: a tag, two addresses, a length, and 1,025 bytes.
const LONGEST: usize = 1_040;

/// The log of a run, kept as a trace spells it. Contracts see the list of its entries, and for how many more
/// bytes there is room.
#[derive(Drop)]
pub struct RunLog {
    bytes: Vec<u8>,
    gots: u64,
    told: ToldLog,
}

impl Model for RunLog {
    ghost use Rattle.std.specs.Prelude.{◌-◌, vec_len, vec_capacity};
    ghost use Rattle.dcp_record.specs.Places.{IsCountedLog, LogSoFar};

    ghost Value = { LogSoFar };

    ghost view = { λ l. record { entries = l.told.entries; room = vec_capacity l.bytes - vec_len l.bytes } };

    ghost invariant = { λ l. IsCountedLog l.bytes.items l.gots l.told.entries };
}

impl RunLog {
    /// No entry, and no memory yet.
    pub fn new(alloc: Global) -> RunLog
        ensures { result.entries ≡ [] }
    {
        RunLog {
            bytes: Vec::new(alloc),
            gots: 0,
            told: ToldLog::new(),
        }
    }

    /// Takes the memory for any one entry more, if it is not there.
    #[inline]
    pub fn make_room(&mut self) -> Result<(), AllocError>
        ensures room { OnOk result (1040 ≤ self.new.room) }
        ensures entries { self.new.entries ≡ self.old.entries }
    {
        self.bytes.reserve(LONGEST)
    }

    /// An end sent 1 to 1,024 bytes.
    #[inline]
    pub fn push_sent(&mut self, from: Address, to: Address, bytes: &[u8])
        requires room { 1040 ≤ self.old.room }
        requires low { 1 ≤ length bytes.now }
        requires high { length bytes.now ≤ 1024 }
        ensures { self.new.entries ≡ self.old.entries ++ Sent from to bytes.now ∷ [] }
    {
        append_exchange(&mut self.bytes, 1, from, to, bytes);
        self.told = self.told.then(&EntryRef::Sent { from, to, bytes });
    }

    /// An end got at most 1,025 bytes.
    #[inline]
    pub fn push_got(&mut self, at: Address, from: Address, bytes: &[u8])
        requires room { 1040 ≤ self.old.room }
        requires high { length bytes.now ≤ 1025 }
        ensures { self.new.entries ≡ self.old.entries ++ Got at from bytes.now ∷ [] }
    {
        append_exchange(&mut self.bytes, 2, at, from, bytes);
        self.gots += 1;
        self.told = self.told.then(&EntryRef::Got { at, from, bytes });
    }

    /// An end found nothing.
    #[inline]
    pub fn push_idle(&mut self, at: Address)
        requires { 1040 ≤ self.old.room }
        ensures { self.new.entries ≡ self.old.entries ++ Idle at ∷ [] }
    {
        append(&mut self.bytes, &place_head(3, at));
        self.told = self.told.then(&EntryRef::Idle { at });
    }

    /// An end had its turn.
    #[inline]
    pub fn push_turn(&mut self, at: Address)
        requires { 1040 ≤ self.old.room }
        ensures { self.new.entries ≡ self.old.entries ++ Turn at ∷ [] }
    {
        append(&mut self.bytes, &place_head(4, at));
        self.told = self.told.then(&EntryRef::Turn { at });
    }

    /// How many datagrams were got.
    pub fn gots(&self) -> u64
        ensures { result ≡ gots_in self.now.entries }
    {
        self.gots
    }

    /// The place before the first entry.
    pub fn cursor(&self) -> EntryCursor<'_>
        ensures { result ≡ record { entries = self.now.entries; at = 0 } }
    {
        first_place(self.bytes.as_slice(), &self.told)
    }

    /// The bytes that a trace has of this log. All that an entry says fits them.
    pub fn as_bytes(&self) -> &[u8]
        ensures bytes { result.now ≡ all_entry_bytes self.now.entries }
        ensures recordable { All IsRecordable self.now.entries }
    {
        self.bytes.as_slice()
    }
}

/// Appends a piece for which there is room.
#[inline(always)]
fn append(bytes: &mut Vec<u8>, piece: &[u8])
    requires { vec_len bytes.old + length piece.now ≤ vec_capacity bytes.old }
    ensures items { bytes.new.items ≡ bytes.old.items ++ piece.now }
    ensures len { vec_len bytes.new ≡ vec_len bytes.old + length piece.now }
    ensures capacity { vec_capacity bytes.old ≤ vec_capacity bytes.new }
{
    match bytes.extend_from_slice(piece) {
        Ok(()) => {}
        Err(_) => unreachable!(),
    }
}

/// Appends a tag, two addresses, and at most 1,025 bytes behind their length.
#[inline(always)]
fn append_exchange(bytes: &mut Vec<u8>, tag: u8, first: Address, second: Address, payload: &[u8])
    requires room { vec_len bytes.old + 1040 ≤ vec_capacity bytes.old }
    requires high { length payload.now ≤ 1025 }
    ensures { bytes.new.items ≡ bytes.old.items ++ ((tag ∷ []) ++ address_bytes first ++ address_bytes second ++ payload_bytes payload.now) }
{
    append(
        bytes,
        &exchange_head(tag, first, second, payload.len() as u16),
    );
    append(bytes, payload);
}

/// A tag, two addresses and a length.
#[inline(always)]
fn exchange_head(tag: u8, first: Address, second: Address, len: u16) -> [u8; 15]
    ensures { result ≡ (tag ∷ []) ++ address_bytes first ++ address_bytes second ++ to_le_bytes w16 len }
{
    let ip = first.ip.to_le_bytes();
    let port = first.port.to_le_bytes();
    let other_ip = second.ip.to_le_bytes();
    let other_port = second.port.to_le_bytes();
    let size = len.to_le_bytes();
    [
        tag,
        ip[0],
        ip[1],
        ip[2],
        ip[3],
        port[0],
        port[1],
        other_ip[0],
        other_ip[1],
        other_ip[2],
        other_ip[3],
        other_port[0],
        other_port[1],
        size[0],
        size[1],
    ]
}

/// A tag and an address.
#[inline(always)]
fn place_head(tag: u8, at: Address) -> [u8; 7]
    ensures { result ≡ (tag ∷ []) ++ address_bytes at }
{
    let ip = at.ip.to_le_bytes();
    let port = at.port.to_le_bytes();
    [tag, ip[0], ip[1], ip[2], ip[3], port[0], port[1]]
}
