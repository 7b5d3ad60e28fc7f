//! Answers to the requests that were taken.

ghost use Rattle.std.specs.Prelude.{◌≡◌, ◌∷◌, []};
ghost use Rattle.dcp_types.specs.Codes.{state_code};
ghost use Rattle.slave_spec.specs.Transport.{Ack, Nack, is_last};
ghost use Rattle.slave_spec.specs.Plants.{Plant};
ghost use Rattle.slave_spec.specs.Requests.{answers, note, answered_with, refused_notes};
ghost use Rattle.slave_core.specs.Standing.{answering};
ghost use Rattle.slave_device.specs.Devices.{DeviceFor};

use crate::changes::is_deregister;
use crate::devices::Device;
use dcp_types::{Address, ErrorCode, State};
use pdu_layout::{Cfg, Inf, Stc};
use slave_core::{SlaveOutbox, put_ack, put_entries, put_error, put_nack, put_state};
use slave_spec::{Asked, SlaveRequest, Wired};

impl<W: Wired> Device<W> {
    /// Answers a question.
    #[tactic(auto, unfolding(slave_spec::specs::Requests::refusal, slave_spec::specs::Requests::accepted, slave_spec::specs::Requests::answer))]
    pub(crate) fn inform(
        &mut self,
        from: Address,
        request: &SlaveRequest,
        asked: &Inf,
        next: u16,
        out: &mut SlaveOutbox,
    )
        requires { out.old ≡ [] }
        ensures after { (p : Plant) → DeviceFor W.stands self.old p → DeviceFor W.stands self.new (answers self.old.works.setup (Asked.Question asked.now) p).after }
        ensures sends { (p : Plant) → DeviceFor W.stands self.old p → out.new ≡ answering from request.now next (answers self.old.works.setup (Asked.Question asked.now) p) }
        ensures setup { self.new.works.setup ≡ self.old.works.setup }
    {
        let seq = request.number;
        let sender = request.receiver;
        match asked {
            Inf::State => put_state(from, seq, sender, self.state, out),
            Inf::Error => {
                let code = match self.fault {
                    Some(fault) => fault.code(),
                    None => 0,
                };
                put_error(from, seq, sender, code, out);
            }
            Inf::Log {
                category,
                max_entries,
            } => {
                if *category < 1 || *category > 3 {
                    put_nack(from, seq, sender, next, ErrorCode::ValueRange.code(), out);
                    return;
                }
                let mut room = [0; 1020];
                let length = self.log.fetch(*category, *max_entries, &mut room);
                put_entries(from, seq, sender, &room[..length], out);
            }
        }
    }

    /// Refuses a taken request, and notes that where inputs were missing.
    fn refuse(
        &mut self,
        from: Address,
        request: &SlaveRequest,
        next: u16,
        code: ErrorCode,
        out: &mut SlaveOutbox,
    )
        requires { out.old ≡ [] }
        ensures after { (p : Plant) → DeviceFor W.stands self.old p → DeviceFor W.stands self.new (answered_with (Nack code) (refused_notes code) p).after }
        ensures sends { (p : Plant) → DeviceFor W.stands self.old p → out.new ≡ answering from request.now next (answered_with (Nack code) (refused_notes code) p) }
        ensures setup { self.new.works.setup ≡ self.old.works.setup }
    {
        let sender = request.receiver;
        put_nack(from, request.number, sender, next, code.code(), out);
        if matches!(code, ErrorCode::InputsMissing) {
            self.enter_note(2, 2, 8, from, sender, out);
        }
    }

    /// Acknowledges a change of state, and notes it.
    fn accept_change(
        &mut self,
        from: Address,
        request: &SlaveRequest,
        next: u16,
        out: &mut SlaveOutbox,
    )
        requires { out.old ≡ [] }
        ensures after { (p : Plant) → DeviceFor W.stands self.old p → DeviceFor W.stands self.new (answered_with Ack (note 1 3 (state_code p.state) ∷ []) p).after }
        ensures sends { (p : Plant) → DeviceFor W.stands self.old p → out.new ≡ answering from request.now next (answered_with Ack (note 1 3 (state_code p.state) ∷ []) p) }
        ensures setup { self.new.works.setup ≡ self.old.works.setup }
    {
        let sender = request.receiver;
        put_ack(from, request.number, sender, out);
        self.enter_note(1, 3, self.state.code(), from, sender, out);
    }

    /// Answers a request for a change of state, and whether the session has ended with it.
    #[tactic(auto, unfolding(slave_spec::specs::Requests::answer))]
    pub(crate) fn answer_change(
        &mut self,
        from: Address,
        request: &SlaveRequest,
        named: State,
        body: &Stc,
        next: u16,
        out: &mut SlaveOutbox,
    ) -> bool
        requires { out.old ≡ [] }
        ensures after { (p : Plant) → DeviceFor W.stands self.old p → DeviceFor W.stands self.new (answers self.old.works.setup (Asked.Change named body.now) p).after }
        ensures sends { (p : Plant) → DeviceFor W.stands self.old p → out.new ≡ answering from request.now next (answers self.old.works.setup (Asked.Change named body.now) p) }
        ensures last { (p : Plant) → DeviceFor W.stands self.old p → result ≡ is_last (Asked.Change named body.now) (answers self.old.works.setup (Asked.Change named body.now) p).answer }
        ensures setup { self.new.works.setup ≡ self.old.works.setup }
    {
        match self.change(named, body) {
            Ok(()) => {
                self.accept_change(from, request, next, out);
                is_deregister(body)
            }
            Err(code) => {
                self.refuse(from, request, next, code, out);
                false
            }
        }
    }

    /// Answers a setting.
    #[tactic(auto, unfolding(slave_spec::specs::Requests::answer))]
    pub(crate) fn answer_setting(
        &mut self,
        from: Address,
        request: &SlaveRequest,
        body: &Cfg,
        next: u16,
        out: &mut SlaveOutbox,
    )
        requires { out.old ≡ [] }
        ensures after { (p : Plant) → DeviceFor W.stands self.old p → DeviceFor W.stands self.new (answers self.old.works.setup (Asked.Setting body.now) p).after }
        ensures sends { (p : Plant) → DeviceFor W.stands self.old p → out.new ≡ answering from request.now next (answers self.old.works.setup (Asked.Setting body.now) p) }
        ensures setup { self.new.works.setup ≡ self.old.works.setup }
    {
        match self.set(body) {
            Ok(()) => put_ack(from, request.number, request.receiver, out),
            Err(code) => self.refuse(from, request, next, code, out),
        }
    }
}
