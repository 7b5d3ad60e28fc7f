//! Turns: the heartbeat, the steps of the model, and the states that a slave passes.

ghost use Rattle.std.specs.Prelude.{◌≡◌, ◌≤◌, ◌<◌, ◌+◌, ◌++◌, ◌∷◌, [], length};
ghost use Rattle.slave_spec.specs.Transport.{send, notice_message, notice_sends, turned_sends, Changed};
ghost use Rattle.slave_spec.specs.Plants.{Plant};
ghost use Rattle.slave_spec.specs.Requests.{note};
ghost use Rattle.slave_spec.specs.Sound.{IsSoundPlant};
ghost use Rattle.slave_spec.specs.Turns.{act, is_missed, sent_after, turned, reached};
ghost use Rattle.slave_spec.specs.Turns as turns;
ghost use Rattle.slave_device.specs.Devices.{DeviceFor, Acts};

use crate::acts::Act;
use crate::devices::Device;
use dcp_types::{Address, FaultCode, State};
use slave_core::{SlaveOutbox, put_changed};
use slave_spec::{LogRemark, Wired};
use slave_states::{is_passing, next_on_turn};

/// Whether the initial outputs are sent, after a state and what was so before.
fn sent_after(state: State, before: bool) -> bool
    ensures { result ≡ sent_after state before }
{
    match state {
        State::SendingI => true,
        _ => before,
    }
}

impl<W: Wired> Device<W> {
    /// Whether a heartbeat is missed, after so many turns without a request.
    fn is_missed(&self, quiet: u32) -> bool
        ensures { (p : Plant) → DeviceFor W.stands self.now p → result ≡ is_missed self.now.works.setup.desc p.state quiet }
    {
        let heartbeat = self.works.setup.desc.heartbeat;
        let is_spared = matches!(
            self.state,
            State::Stopped | State::ErrorHandling | State::ErrorResolved
        );
        heartbeat > 0 && heartbeat <= quiet && !is_spared
    }

    /// What a turn does; a step that is due is taken by the model.
    #[tactic(auto, unfolding(slave_spec::specs::Turns::act))]
    pub(crate) fn act(&mut self, quiet: u32) -> Act
        ensures stands { (p : Plant) → DeviceFor W.stands self.old p → Acts W.stands self.new p result (act self.old.works.setup quiet p) }
        ensures setup { self.new.works.setup ≡ self.old.works.setup }
    {
        if self.is_missed(quiet) {
            return Act::Fault(FaultCode::HeartbeatMissed);
        }
        match self.state {
            State::Initializing => {
                let mut values = [0; 8];
                match self.outputs(&mut values) {
                    Ok(_) => Act::Pass,
                    Err(code) => Act::Fault(code),
                }
            }
            State::Computing if self.busy_left > 0 => Act::Wait(self.busy_left - 1),
            State::Computing => {
                let inputs = self.wiring.inputs();
                if inputs.len() != self.works.setup.desc.inputs.as_slice().len() {
                    return Act::Stay;
                }
                match self.works.model.step(inputs, self.works.setup.micro) {
                    Ok(()) => Act::Step,
                    Err(code) => Act::Fault(code),
                }
            }
            _ => {
                if is_passing(self.state) {
                    Act::Pass
                } else {
                    Act::Stay
                }
            }
        }
    }

    /// Tells the state that was reached.
    fn tell(&self, master: Address, id: u8, out: &mut SlaveOutbox)
        requires { length out.old < 21 }
        ensures out { (p : Plant) → DeviceFor W.stands self.now p → out.new ≡ out.old ++ send master (notice_message id (Changed p.state)) ∷ [] }
        ensures count { length out.new ≡ length out.old + 1 }
    {
        put_changed(master, id, self.state, out);
    }

    /// Tells the state that was reached, and notes first what has led to it.
    fn reach_by(&mut self, first: LogRemark, master: Address, id: u8, out: &mut SlaveOutbox)
        requires out { out.old ≡ [] }
        requires category { (1 ≤ first.category) × (first.category ≤ 3) }
        requires level { (1 ≤ first.level) × (first.level ≤ 3) }
        ensures after { (p : Plant) → DeviceFor W.stands self.old p → DeviceFor W.stands self.new (reached [] (first ∷ []) p).after }
        ensures sends { (p : Plant) → DeviceFor W.stands self.old p → out.new ≡ turned_sends master id (reached [] (first ∷ []) p) }
        ensures setup { self.new.works.setup ≡ self.old.works.setup }
    {
        self.tell(master, id, out);
        self.enter_note(first.category, first.level, first.code, master, id, out);
        self.note_state(master, id, out);
    }

    /// Falls into the error state.
    pub(crate) fn fall(&mut self, code: FaultCode, master: Address, id: u8, out: &mut SlaveOutbox)
        requires { out.old ≡ [] }
        ensures after { (p : Plant) → DeviceFor W.stands self.old p → DeviceFor W.stands self.new (turned self.old.works.setup p (turns.Fault code)).after }
        ensures sends { (p : Plant) → DeviceFor W.stands self.old p → out.new ≡ turned_sends master id (turned self.old.works.setup p (turns.Fault code)) }
        ensures setup { self.new.works.setup ≡ self.old.works.setup }
    {
        self.state = State::ErrorHandling;
        self.fault = Some(code);
        let first = LogRemark {
            category: 3,
            level: 1,
            code: code.code() as u8,
        };
        self.reach_by(first, master, id, out);
    }

    /// Counts the step that the model has taken.
    pub(crate) fn advance(&mut self, master: Address, id: u8, out: &mut SlaveOutbox)
        requires { out.old ≡ [] }
        ensures after { (p : Plant) → DeviceFor W.stands self.old p → DeviceFor W.stands self.new (reached [] (note 2 3 0 ∷ []) (record p { state = State.Computed; steps = turns.counted p.steps })).after }
        ensures sends { (p : Plant) → DeviceFor W.stands self.old p → out.new ≡ turned_sends master id (reached [] (note 2 3 0 ∷ []) (record p { state = State.Computed; steps = turns.counted p.steps })) }
        ensures setup { self.new.works.setup ≡ self.old.works.setup }
    {
        self.state = State::Computed;
        self.steps = self.steps.saturating_add(1);
        let first = LogRemark {
            category: 2,
            level: 3,
            code: 0,
        };
        self.reach_by(first, master, id, out);
    }

    /// Enters the state that the slave passes to.
    fn reach(&mut self, master: Address, id: u8, out: &mut SlaveOutbox)
        requires { length out.old ≤ 17 }
        ensures after { (p : Plant) → DeviceFor W.stands self.old p → DeviceFor W.stands self.new (turned self.old.works.setup p turns.Pass).after }
        ensures sends { (p : Plant) → DeviceFor W.stands self.old p → out.new ≡ out.old ++ notice_sends master id (turned self.old.works.setup p turns.Pass).notices }
        ensures setup { self.new.works.setup ≡ self.old.works.setup }
    {
        let sent = sent_after(self.state, self.outputs_sent);
        let next = next_on_turn(self.state, 0);
        self.outputs_sent = sent;
        self.state = next;
        self.tell(master, id, out);
        self.note_state(master, id, out);
    }

    /// Passes on to the next state, where data messages are sent first in a sending one.
    pub(crate) fn pass_on(&mut self, master: Address, id: u8, out: &mut SlaveOutbox)
        requires { out.old ≡ [] }
        ensures after { (p : Plant) → DeviceFor W.stands self.old p → DeviceFor W.stands self.new (turned self.old.works.setup p turns.Pass).after }
        ensures sends { (p : Plant) → DeviceFor W.stands self.old p → IsSoundPlant p → out.new ≡ turned_sends master id (turned self.old.works.setup p turns.Pass) }
        ensures setup { self.new.works.setup ≡ self.old.works.setup }
    {
        self.send_outputs(out);
        self.reach(master, id, out);
    }
}
