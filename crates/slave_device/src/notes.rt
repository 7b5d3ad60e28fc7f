//! Entries for the log, and the notices of those that are sent at once.

ghost use Rattle.std.specs.Prelude.{◌≡◌, ◌<◌, ◌≤◌, ◌+◌, ◌++◌, ◌∷◌, [], length};
ghost use Rattle.dcp_types.specs.Codes.{state_code};
ghost use Rattle.slave_spec.specs.Transport.{notice_sends};
ghost use Rattle.slave_spec.specs.Plants.{Plant};
ghost use Rattle.slave_spec.specs.Requests.{note, noted_all, notices};
ghost use Rattle.slave_device.specs.Devices.{DeviceFor};

use crate::devices::Device;
use dcp_types::Address;
use slave_core::{SlaveOutbox, put_noted};
use slave_log::{Noted, SlaveLog};
use slave_spec::{LogRemark, Wired};

/// Notes an entry, and puts its notice where it is to be sent.
fn note(log: &mut SlaveLog, step: u32, entry: LogRemark, to: Address, id: u8, out: &mut SlaveOutbox)
    requires room { length out.old < 21 }
    requires category { (1 ≤ entry.category) × (entry.category ≤ 3) }
    requires level { (1 ≤ entry.level) × (entry.level ≤ 3) }
    ensures log { log.new ≡ noted_all log.old step (entry ∷ []) }
    ensures out { out.new ≡ out.old ++ notice_sends to id (notices log.old step (entry ∷ [])) }
{
    if let Noted::Send { line } = log.note(entry.category, entry.level, entry.code, step) {
        put_noted(to, id, &line, out);
    }
}

impl<W: Wired> Device<W> {
    /// Notes an entry with the steps taken now.
    pub(crate) fn enter_note(
        &mut self,
        category: u8,
        level: u8,
        code: u8,
        to: Address,
        id: u8,
        out: &mut SlaveOutbox,
    )
        requires room { length out.old < 21 }
        requires category { (1 ≤ category) × (category ≤ 3) }
        requires level { (1 ≤ level) × (level ≤ 3) }
        ensures stands { (p : Plant) → DeviceFor W.stands self.old p → DeviceFor W.stands self.new (record p { log = noted_all p.log p.steps (note category level code ∷ []) }) }
        ensures out { (p : Plant) → DeviceFor W.stands self.old p → out.new ≡ out.old ++ notice_sends to id (notices p.log p.steps (note category level code ∷ [])) }
        ensures count { length out.new ≤ length out.old + 1 }
        ensures same { self.new.works ≡ self.old.works }
    {
        let entry = LogRemark {
            category,
            level,
            code,
        };
        note(&mut self.log, self.steps, entry, to, id, out);
    }

    /// Notes the state that a turn has reached.
    pub(crate) fn note_state(&mut self, master: Address, id: u8, out: &mut SlaveOutbox)
        requires { length out.old < 21 }
        ensures stands { (p : Plant) → DeviceFor W.stands self.old p → DeviceFor W.stands self.new (record p { log = noted_all p.log p.steps (note 1 2 (state_code p.state) ∷ []) }) }
        ensures out { (p : Plant) → DeviceFor W.stands self.old p → out.new ≡ out.old ++ notice_sends master id (notices p.log p.steps (note 1 2 (state_code p.state) ∷ [])) }
        ensures setup { self.new.works.setup ≡ self.old.works.setup }
    {
        self.enter_note(1, 2, self.state.code(), master, id, out);
    }
}
