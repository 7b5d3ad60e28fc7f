//! What the master keeps.

ghost use Rattle.std.specs.Prelude.{◌≡◌, ◌≤◌, false, length, map};
ghost use Rattle.master_core.specs.Apart.{AreSlavesApart};

use crate::rows::Rows;
use crate::stages::Schedule;
use conversation::Conversation;
use dcp_types::{Address, Limits};
use master_spec::{Report, Slave};
use outboxes::Outbox;

/// A master sends so many messages at most after one event: two to each slave, since a turn can end a
/// phase and begin the next one.
const MASTER_SENDS: usize = 32;

/// The messages that a master is to send after one event.
pub(crate) type MasterOutbox = Outbox<MASTER_SENDS>;

/// A conversation with a slave, and the outputs of the present phase once they have come.
#[derive(Debug, Drop)]
pub(crate) struct Talk {
    /// It has at most 8 outputs.
    pub slave: Slave,
    pub conversation: Conversation,
    /// The bytes of all its outputs, and then what was there before.
    pub outputs: [u8; 64],
    ghost few: { length slave.types ≤ 8 },
    ghost quiet: { conversation.is_due ≡ false },
}

/// The master. It is driven as an end: `on_gram` and `on_turn` are its events; `outgoing` is what the
/// newest event sends, and `clear_outgoing` says that it was sent. Only then may the next event come.
/// `report`, `rows`, `row_values`, `row` and `turns` tell at any time how far it has come, and `is_over`
/// whether there is a report. Only `new` takes memory.
#[derive(Debug, Drop)]
pub struct MasterCore {
    pub(crate) address: Address,
    pub(crate) limits: Limits,
    /// One for each slave, in order: at most 16.
    pub(crate) talks: Vec<Talk>,
    /// The place of the talk whose slave spoke newest. Slaves mostly speak one after the other, so that the
    /// next datagram is of this one or of the one behind it.
    pub(crate) spoke: usize,
    /// How many phases have begun.
    pub(crate) phase: u32,
    pub(crate) schedule: Schedule,
    pub(crate) rows: Rows,
    pub(crate) report: Option<Report>,
    pub(crate) turns: u64,
    pub(crate) out: MasterOutbox,
    ghost few: { length talks.items ≤ 16 },
    ghost apart: { AreSlavesApart (map (λ t. t.slave) talks.items) },
}
