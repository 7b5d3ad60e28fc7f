//! What a text of a talk says: a slave, and what comes to it.

ghost use Rattle.std.specs.Prelude.{◌≡◌, ◌++◌, ◌∷◌, [], OnOk, OnErr};

use dcp_ends::Bytes;
use dcp_types::OutOfMemory;
use slave_desc::SlaveDesc;
use std::alloc::Global;
use std::marker::Model;

/// What comes to the slave: a turn, or a message of its master.
#[derive(Debug, Drop)]
pub enum TalkEvent {
    Turn,
    /// The bytes of the message, 1 to 1,024.
    Message(Bytes),
}

/// Events in order, the oldest first.
#[derive(Debug, Drop)]
pub struct TalkEvents {
    items: Vec<TalkEvent>,
}

impl Model for TalkEvents {
    ghost use Rattle.std.specs.Prelude.{List};
    ghost use Rattle.talk_text.specs.declared.events.TalkEvent.{TalkEvent};

    ghost Value = { List TalkEvent };

    ghost view = { λ e. e.items.items };
}

impl TalkEvents {
    /// No event.
    pub fn new(alloc: Global) -> TalkEvents
        ensures { result ≡ [] }
    {
        TalkEvents {
            items: Vec::new(alloc),
        }
    }

    pub fn as_slice(&self) -> &[TalkEvent]
        ensures { result.now ≡ self.now }
    {
        self.items.as_slice()
    }

    /// Puts an event at the end; for want of memory the list stays as it was.
    pub fn push(&mut self, event: TalkEvent) -> Result<(), OutOfMemory>
        ensures ok { OnOk result (self.new ≡ self.old ++ event ∷ []) }
        ensures err { OnErr result (self.new ≡ self.old) }
    {
        self.items.push(event)?;
        Ok(())
    }
}

/// A slave, and what comes to it.
#[derive(Debug, Drop)]
pub struct Talk {
    pub desc: SlaveDesc,
    pub events: TalkEvents,
}
