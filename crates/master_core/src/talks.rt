//! One conversation, and what it sends.

ghost use Rattle.std.specs.Prelude.{◌≡◌, ◌<◌, ◌≤◌, ◌+◌, ◌++◌, false, length, take, Some, IfSome, MatchOption};
ghost use Rattle.std.specs.List.{flat_map};
ghost use Rattle.scenario.specs.Sound.{IsLimits};
ghost use Rattle.dcp_types.specs.declared.limits.Limits.{Limits};
ghost use Rattle.master_spec.specs.Marks.{Turned, Begun};
ghost use Rattle.master_spec.specs.Course as course;
ghost use Rattle.conversation.specs.Standing.{due_of};
ghost use Rattle.dcp_ends.specs.Logs.{same_address};
ghost use Rattle.master_spec.specs.News.{news_of};
ghost use Rattle.master_core.specs.Stages as stages;
ghost use Rattle.master_core.specs.Sends.{sends_to};
ghost use Rattle.master_core.specs.Talking.{TalkStandsAt, IsFreshTalk, IsNow, Now, at_stage};

use crate::records::{MasterOutbox, Talk};
use crate::sizes::payload_size;
use crate::stages::Schedule;
use conversation::{Conversation, hear};
use dcp_types::{Address, Limits};
use master_spec::Slave;

/// Puts the bytes of a message behind the others, where there are some.
fn put_some(to: Address, message: &[u8], out: &mut MasterOutbox)
    requires room { length out.old < 32 }
    requires few { length message.now ≤ 1024 }
    ensures sends { out.new ≡ out.old ++ sends_to to message.now }
    ensures room { length out.new ≤ length out.old + 1 }
{
    if !message.is_empty() {
        out.put_bytes(to, message);
    }
}

/// What is due to a slave goes out.
fn send_due(conversation: &mut Conversation, to: Address, out: &mut MasterOutbox)
    requires { length out.old < 32 }
    ensures cleared { conversation.new ≡ record conversation.old { is_due = false } }
    ensures sends { out.new ≡ out.old ++ flat_map (sends_to to) (due_of conversation.old) }
    ensures room { length out.new ≤ length out.old + 1 }
{
    if let Some(bytes) = conversation.due() {
        put_some(to, bytes, out);
    }
    conversation.clear_due();
}

/// Puts the payload to the front of the room, where there is one.
fn put_taken(room: &mut [u8; 64], taken: Option<&[u8]>)
    requires { IfSome taken (λ payload. length payload.now ≤ 64) }
    ensures { MatchOption taken.entry (room.new ≡ room.old) (λ payload. take (length payload.now) room.new ≡ payload.now) }
{
    if let Some(payload) = taken {
        room[..payload.len()].copy_from_slice(payload);
    }
}

impl Talk {
    /// A conversation with a slave, in which nothing has happened.
    pub fn new(slave: Slave, limits: Limits) -> Talk
        requires few { length slave.types ≤ 8 }
        requires limits { IsLimits limits }
        ensures slave { result.slave ≡ slave }
        ensures fresh { IsFreshTalk limits result }
    {
        let conversation = Conversation::new(slave.id, limits);
        Talk {
            slave,
            conversation,
            outputs: [0; 64],
        }
    }

    /// The slave begins the present phase.
    pub fn begin(&mut self, schedule: &Schedule, out: &mut MasterOutbox)
        requires { length out.old < 32 }
        ensures stands { (limits : Limits) (now : Now) (talk : course.CourseTalk) → TalkStandsAt limits now self.old talk → TalkStandsAt limits (at_stage schedule.now.steps schedule.now.stage) self.new (course.marked limits talk (Some (Begun (stages.job_at schedule.now.steps schedule.now.stage talk.slave.script)))) }
        ensures sends { (limits : Limits) (now : Now) (talk : course.CourseTalk) → TalkStandsAt limits now self.old talk → out.new ≡ out.old ++ course.sends_after limits talk (Some (Begun (stages.job_at schedule.now.steps schedule.now.stage talk.slave.script))) }
        ensures room { length out.new ≤ length out.old + 1 }
        ensures slave { self.new.slave ≡ self.old.slave }
    {
        let task = schedule.task(self.slave.script.uuid);
        let list = schedule.list(&self.slave.script);
        self.conversation.begin(task, list);
        send_due(&mut self.conversation, self.slave.address, out);
    }

    /// The master has its turn. `settled` tells that no slave was going when it began.
    pub fn turn(&mut self, settled: bool, out: &mut MasterOutbox)
        requires { length out.old < 32 }
        ensures stands { (limits : Limits) (now : Now) (talk : course.CourseTalk) → TalkStandsAt limits now self.old talk → TalkStandsAt limits now self.new (course.marked limits talk (Some (Turned settled))) }
        ensures sends { (limits : Limits) (now : Now) (talk : course.CourseTalk) → TalkStandsAt limits now self.old talk → out.new ≡ out.old ++ course.sends_after limits talk (Some (Turned settled)) }
        ensures room { length out.new ≤ length out.old + 1 }
        ensures slave { self.new.slave ≡ self.old.slave }
    {
        self.conversation.on_turn(settled);
        send_due(&mut self.conversation, self.slave.address, out);
    }

    /// A datagram has come from the slave.
    pub fn hear(&mut self, schedule: &Schedule, bytes: &[u8], out: &mut MasterOutbox)
        requires { length out.old < 32 }
        ensures stands { (limits : Limits) (now : Now) (talk : course.CourseTalk) → TalkStandsAt limits now self.old talk → IsNow schedule.now now → TalkStandsAt limits now self.new (course.marked limits talk (course.mark_for talk.slave talk.marks (news_of bytes.now))) }
        ensures sends { (limits : Limits) (now : Now) (talk : course.CourseTalk) → TalkStandsAt limits now self.old talk → IsNow schedule.now now → out.new ≡ out.old ++ course.sends_after limits talk (course.mark_for talk.slave talk.marks (news_of bytes.now)) }
        ensures room { length out.new ≤ length out.old + 1 }
        ensures slave { self.new.slave ≡ self.old.slave }
    {
        let size = payload_size(self.slave.types.as_slice());
        let list = schedule.list(&self.slave.script);
        let taken = hear(&mut self.conversation, size, list, bytes);
        put_taken(&mut self.outputs, taken);
        send_due(&mut self.conversation, self.slave.address, out);
    }

    /// Whether a datagram from this address concerns the slave.
    pub fn is_of(&self, from: Address) -> bool
        ensures { result ≡ same_address from self.now.slave.address }
    {
        from.ip == self.slave.address.ip && from.port == self.slave.address.port
    }
}
