//! A slave that is followed through its entries.

ghost use Rattle.std.specs.Prelude.{◌≡◌, ◌<◌, ◌≤◌, ◌++◌, ◌∷◌, [], List, ℕ, length, take, true, IsTrue, IsFalse, ◌+◌, slice_get, Some, IfOk, IfSome, IfNone, MatchBool, MatchOption};
ghost use Rattle.dcp_ends.specs.Events.{Event, Gram, Tick, Send};
ghost use Rattle.slave_desc.specs.declared.descriptions.SlaveDesc.{SlaveDesc};
ghost use Rattle.slave_desc.specs.Descriptions.{IsDesc};
ghost use Rattle.slave_spec.specs.Changes.{output, ids};
ghost use Rattle.slave_spec.specs.declared.words.Session.TheVariants.{During};
ghost use Rattle.slave_spec.specs.Heard.{heard, Asks, Brings};
ghost use Rattle.slave_spec.specs.Transport.{Exchange, fate_in, send, answer_message, Nack, expected, after_heard};
ghost use Rattle.slave_spec.specs.Requests.{register_refusal};
ghost use Rattle.slave_spec.specs.Turns.{is_missed, is_sending_state};
ghost use Rattle.slave_states.specs.Transitions.{next_on_turn};
ghost use Rattle.slave_core.specs.Core.{bytes_again};
ghost use Rattle.slave_spec.specs.Foreign.{ForeignState, ForeignPlant, foreign, foreign_fresh, after_answer, AreNotices, Stays, may_turn, model_faults, passed};
ghost use Rattle.slave_spec.specs.Standpoints.{Within, MayGoOn};
ghost use Rattle.dcp_types.specs.declared.addresses.Address.{Address};
ghost use Rattle.dcp_types.specs.declared.states.State.{State};
ghost use Rattle.slave_spec.specs.declared.words.SlaveRequest.{SlaveRequest};
ghost use Rattle.conform.specs.Plants.{ForeignFor};
ghost use Rattle.conform.specs.Standing.{StandsBetween, StandsWithin, no_choice, awaited_for, AwaitsAnswer, IsTaken, IsOver, HasOne, HasData, AwaitsModel, IsMessageHead, is_model, awaited_in, may_end, state_notice, turned_to};
ghost use Rattle.conform.specs.Sending.{ids_from, goes_out};
ghost use Rattle.conform.specs.Asking.{settled, is_entries};

use crate::asking::ask;
use crate::faults::Faults;
use crate::matching::{find_out, is_begun, is_out};
use crate::meanings::Meaning;
use crate::notices::is_told;
use crate::plants::ForeignDevice;
use crate::sending::OUTPUTS;
use dcp_types::{Address, ErrorCode, FaultCode, OutOfMemory, State};
use pdu_layout::Stc;
use seq_window::{next, place};
use slave_core::{
    Hearing, KeptAnswer, SlaveOutbox, hear, is_register, placed, placed_late, put_changed,
    put_nack, same_address, session_with,
};
use slave_desc::SlaveDesc;
use slave_device::Wiring;
use slave_spec::{Asked, Fate, Session, SlaveRequest};
use slave_states::{is_passing, next_on_turn};
use std::alloc::Global;

/// The place in the outbox of the message that is awaited, or of the first of two.
const FIRST: usize = 0;

/// The place in the outbox of the second message.
const SECOND: usize = 1;

/// What is to come of the slave's event under way. The messages that it waits for stand in the outbox.
#[derive(Clone, Copy, Debug, PartialEq, Eq)]
pub(crate) enum Awaited {
    /// No event is under way: nothing may be sent.
    Closed,
    /// All came but notices of log entries.
    Notices,
    /// One message; the slave stands where it leads.
    Message,
    /// One of these answers.
    Answer(Meaning),
    /// The notice of INITIALIZED, or of a fault.
    Initializing,
    /// The notice of COMPUTED, or of a fault, or nothing.
    Computing,
    /// The data message of the output id with this place, and those after it; then the message in the outbox,
    /// and the slave stands where that leads.
    Data { target: u8 },
}

/// A slave of a description, followed through its entries: where the transport of such a slave stands, what
/// is known of its machine, and what may come of the event under way.
///
/// `on_gram` and `on_turn` begin an event, while `may_end` says that none is under way or the one before may
/// be over; `close` ends it; `on_sent` says whether a message may come now. Where the slave was free to
/// choose, its messages tell what it chose, so the follower keeps one state.
#[derive(Drop)]
pub(crate) struct Follower<'a> {
    desc: &'a SlaveDesc,
    session: Session,
    /// The number of the next request.
    expected: u16,
    /// The answer to the newest request that was taken.
    kept: KeptAnswer,
    /// The turns since that request.
    quiet: u32,
    plant: ForeignDevice,
    awaited: Awaited,
    out: SlaveOutbox,
}

/// Whether this is a state that the model may leave by a fault.
fn is_model(state: State) -> bool
    ensures { result ≡ is_model state }
{
    matches!(state, State::Initializing | State::Computing)
}

/// Whether data is sent in a state.
fn is_sending(state: State) -> bool
    ensures { result ≡ is_sending_state state }
{
    matches!(state, State::SendingI | State::SendingD)
}

/// What is awaited in a state that the model may leave by a fault.
fn awaited_in(state: State) -> Awaited
    ensures { result ≡ awaited_in state }
{
    match state {
        State::Initializing => Awaited::Initializing,
        _ => Awaited::Computing,
    }
}

/// Whether the answer may be one with entries.
fn is_entries(meaning: Meaning) -> bool
    ensures { result ≡ is_entries meaning }
{
    matches!(meaning, Meaning::Entries)
}

impl<'a> Follower<'a> {
    /// A slave to which nothing has come. It takes all the memory that it needs.
    pub(crate) fn new(alloc: Global, desc: &'a SlaveDesc) -> Result<Follower<'a>, OutOfMemory>
        requires { IsDesc desc.now }
        ensures stands { IfOk result (λ f. StandsBetween f desc.now foreign_fresh) }
        ensures closed { IfOk result (λ f. f.awaited ≡ Awaited.Closed) }
    {
        let wiring = Wiring::new(alloc, desc)?;
        let out = SlaveOutbox::new(alloc)?;
        Ok(Follower {
            desc,
            session: Session::Before,
            expected: 0,
            kept: KeptAnswer::new(),
            quiet: 0,
            plant: ForeignDevice {
                state: State::Alive,
                steps: 0,
                outputs_sent: false,
                wiring,
                faults: Faults::None,
                logs: false,
            },
            awaited: Awaited::Closed,
            out,
        })
    }

    /// Where the slave is found.
    pub(crate) fn address(&self) -> Address
        ensures { result ≡ self.now.desc.now.address }
    {
        self.desc.address
    }

    /// Whether the event under way may be over.
    pub(crate) fn may_end(&self) -> bool
        ensures { result ≡ may_end self.now.awaited }
    {
        matches!(
            self.awaited,
            Awaited::Closed | Awaited::Notices | Awaited::Computing
        )
    }

    /// No event is under way any more.
    pub(crate) fn close(&mut self)
        ensures { self.new ≡ record self.old { awaited = Awaited.Closed } }
    {
        self.awaited = Awaited::Closed;
    }

    /// Why a register is refused that would begin a session; None where it is taken.
    fn refuses(&self, asked: &Asked) -> Option<ErrorCode>
        ensures { result ≡ register_refusal self.now.desc.now.uuid asked.now }
    {
        match asked {
            Asked::Change {
                named,
                request: Stc::Register {
                    uuid,
                    op_mode,
                    major,
                    minor,
                },
            } => {
                if named.code() != State::Alive.code() {
                    Some(ErrorCode::WrongState)
                } else if *uuid != self.desc.uuid {
                    Some(ErrorCode::UuidMismatch)
                } else if *major != 1 || *minor != 0 {
                    Some(ErrorCode::Version)
                } else if *op_mode != 2 {
                    Some(ErrorCode::OpMode)
                } else {
                    None
                }
            }
            _ => None,
        }
    }

    /// What happens to a request.
    fn fate(&self, from: Address, request: &SlaveRequest) -> Fate
        ensures { (served : List Exchange) → self.now.expected ≡ expected served → result ≡ fate_in (foreign self.now.desc.now no_choice) self.now.session served from request.now }
    {
        match self.session {
            Session::Before => {
                if !is_register(&request.asked) || request.number != 0 {
                    return Fate::Dropped;
                }
                match self.refuses(&request.asked) {
                    Some(code) => Fate::Refused(code),
                    None => Fate::Taken,
                }
            }
            Session::During { master, id } => {
                if same_address(from, master) && request.receiver == id {
                    placed(place(request.number, self.expected))
                } else {
                    Fate::Dropped
                }
            }
            Session::After { master, id } => {
                if same_address(from, master) && request.receiver == id {
                    placed_late(place(request.number, self.expected))
                } else {
                    Fate::Dropped
                }
            }
        }
    }

    /// A request has come that is refused and not taken.
    fn refuse(&mut self, from: Address, request: &SlaveRequest, code: ErrorCode)
        requires { self.old.out ≡ [] }
        ensures out { self.new.out ≡ send from (answer_message request.now self.old.expected (Nack code)) ∷ [] }
        ensures same { self.new ≡ record self.old { out = self.new.out; awaited = Awaited.Message } }
    {
        put_nack(
            from,
            request.number,
            request.receiver,
            self.expected,
            code.code(),
            &mut self.out,
        );
        self.awaited = Awaited::Message;
    }

    /// The request has come again that was taken last.
    fn repeat(&mut self, from: Address)
        requires { self.old.out ≡ [] }
        ensures out { self.new.out ≡ bytes_again from self.old.kept }
        ensures same { self.new ≡ record self.old { out = self.new.out; awaited = awaited_for self.new.out } }
    {
        let bytes = self.kept.as_slice();
        if bytes.is_empty() {
            self.awaited = Awaited::Notices;
        } else {
            self.out.put_bytes(from, bytes);
            self.awaited = Awaited::Message;
        }
    }

    /// A request has come that is taken.
    fn take(&mut self, from: Address, request: &SlaveRequest) -> Meaning
        requires { self.old.out ≡ [] }
        ensures awaits { (x : ForeignState) → StandsBetween self.old self.old.desc.now x → AwaitsAnswer self.new result self.old.desc.now x from request.now }
        ensures awaited { self.new.awaited ≡ Awaited.Answer result }
    {
        let next = next(self.expected);
        let parameters = self.desc.parameters.as_slice().len();
        let meaning = ask(
            &mut self.plant,
            parameters,
            from,
            request,
            next,
            &mut self.out,
        );
        let ends = matches!(meaning, Meaning::Last);
        self.expected = next;
        self.quiet = 0;
        self.session = session_with(self.session, from, request.receiver, ends);
        self.awaited = Awaited::Answer(meaning);
        meaning
    }

    /// A request has come.
    fn on_request(&mut self, from: Address, request: &SlaveRequest)
        requires { self.old.out ≡ [] }
        ensures { (d : SlaveDesc) (x : ForeignState) (bytes : List ℕ) → heard bytes ≡ Asks request.now → StandsBetween self.old d x → StandsWithin self.new d x (Gram from bytes) [] }
    {
        match self.fate(from, request) {
            Fate::Dropped => self.awaited = Awaited::Notices,
            Fate::Refused(code) => self.refuse(from, request, code),
            Fate::Repeated => self.repeat(from),
            Fate::Taken => {
                self.take(from, request);
            }
        }
    }

    /// A data message has come; it is heeded while the session lasts.
    fn on_data(&mut self, from: Address, number: u16, id: u16, payload: &[u8])
        ensures stands { (d : SlaveDesc) (x : ForeignState) → StandsBetween self.old d x → StandsBetween self.new d (after_heard (foreign d no_choice) x from (Brings number id payload.now)) }
        ensures awaited { self.new.awaited ≡ Awaited.Notices }
    {
        if let Session::During { .. } = self.session {
            self.plant.bring(from, number, id, payload);
        }
        self.awaited = Awaited::Notices;
    }

    /// A datagram has come, while no event is under way.
    pub(crate) fn on_gram(&mut self, from: Address, bytes: &[u8])
        ensures { (d : SlaveDesc) (x : ForeignState) → StandsBetween self.old d x → StandsWithin self.new d x (Gram from bytes.now) [] }
    {
        self.out.clear();
        match hear(bytes) {
            Hearing::Asks(request) => self.on_request(from, &request),
            Hearing::Brings {
                number,
                id,
                payload,
            } => self.on_data(from, number, id, payload),
            Hearing::Nothing => self.awaited = Awaited::Notices,
        }
    }

    /// Whether a heartbeat is missed.
    fn is_missed(&self) -> bool
        ensures { (d : SlaveDesc) (y : ForeignState) → StandsBetween self.now d y → result ≡ is_missed d y.inner.state y.quiet }
    {
        let heartbeat = self.desc.heartbeat;
        let is_spared = matches!(
            self.plant.state,
            State::Stopped | State::ErrorHandling | State::ErrorResolved
        );
        heartbeat > 0 && heartbeat <= self.quiet && !is_spared
    }

    /// How many outputs there are, of which there are 8 at most.
    fn outputs(&self) -> usize
        ensures few { result ≤ 8 }
        ensures same { length self.now.desc.now.outputs ≤ 8 → result ≡ length self.now.desc.now.outputs }
    {
        let count = self.desc.outputs.as_slice().len();
        if count > OUTPUTS { OUTPUTS } else { count }
    }

    /// Data messages from this place on, or else the message in the outbox.
    fn await_data(&mut self, from: usize)
        ensures { (d : SlaveDesc) (x y : ForeignState) (event : Event) (gone : List Send) (s : Send) → IsDesc d → StandsBetween self.old d y → self.old.out ≡ s ∷ []
            → HasData d x event gone (ids_from from y.inner.wires.changes y.inner.steps) s y → StandsWithin self.new d x event gone }
    {
        let outputs = self.outputs();
        match self.plant.next_due(from, outputs) {
            Some(target) => {
                self.awaited = Awaited::Data {
                    target: target as u8,
                };
            }
            None => self.awaited = Awaited::Message,
        }
    }

    /// A missed heartbeat is told.
    fn miss(&mut self, master: Address, id: u8)
        requires { self.old.out ≡ [] }
        ensures stands { (d : SlaveDesc) (y : ForeignState) → StandsBetween self.old d y
            → StandsBetween self.new d (record y { inner = record y.inner { state = State.ErrorHandling; faults = FaultCode.HeartbeatMissed ∷ [] } }) }
        ensures out { self.new.out ≡ state_notice master id State.ErrorHandling ∷ [] }
        ensures awaited { self.new.awaited ≡ Awaited.Message }
    {
        self.plant.fall(Faults::One(FaultCode::HeartbeatMissed));
        put_changed(master, id, State::ErrorHandling, &mut self.out);
        self.awaited = Awaited::Message;
    }

    /// The next state is told, or that of a fault.
    fn await_model(&mut self, master: Address, id: u8)
        requires { self.old.out ≡ [] }
        ensures out { self.new.out ≡ state_notice master id (next_on_turn self.old.plant.state 0) ∷ state_notice master id State.ErrorHandling ∷ [] }
        ensures same { self.new ≡ record self.old { out = self.new.out } }
    {
        let next = next_on_turn(self.plant.state, 0);
        put_changed(master, id, next, &mut self.out);
        put_changed(master, id, State::ErrorHandling, &mut self.out);
    }

    /// The next state is told.
    fn pass_on(&mut self, master: Address, id: u8)
        requires { self.old.out ≡ [] }
        ensures stands { (d : SlaveDesc) (y : ForeignState) → StandsBetween self.old d y → StandsBetween self.new d (record y { inner = passed y.inner }) }
        ensures out { (d : SlaveDesc) (y : ForeignState) → StandsBetween self.old d y → self.new.out ≡ state_notice master id (passed y.inner).state ∷ [] }
        ensures awaited { self.new.awaited ≡ Awaited.Message }
    {
        self.plant.pass();
        put_changed(master, id, self.plant.state, &mut self.out);
        self.awaited = Awaited::Message;
    }

    /// What a turn sends.
    fn await_turn(&mut self, master: Address, id: u8)
        requires { self.old.out ≡ [] }
        ensures { (d : SlaveDesc) (x : ForeignState) → IsDesc d → x.session ≡ During master id → StandsBetween self.old d (turned_to x x.inner) → StandsWithin self.new d x Tick [] }
    {
        if self.is_missed() {
            self.miss(master, id);
            return;
        }
        if is_model(self.plant.state) {
            self.await_model(master, id);
            self.awaited = awaited_in(self.plant.state);
            return;
        }
        if is_sending(self.plant.state) {
            self.pass_on(master, id);
            self.await_data(0);
            return;
        }
        if is_passing(self.plant.state) {
            self.pass_on(master, id);
            return;
        }
        self.awaited = Awaited::Notices;
    }

    /// The slave has a turn, while no event is under way.
    pub(crate) fn on_turn(&mut self)
        ensures { (d : SlaveDesc) (x : ForeignState) → IsDesc d → StandsBetween self.old d x → StandsWithin self.new d x Tick [] }
    {
        self.out.clear();
        match self.session {
            Session::During { master, id } => {
                self.quiet = self.quiet.saturating_add(1);
                self.await_turn(master, id);
            }
            Session::Before => self.awaited = Awaited::Notices,
            Session::After { .. } => self.awaited = Awaited::Notices,
        }
    }

    /// Whether this is a notice of a log entry that may come.
    fn is_notice(&self, to: Address, bytes: &[u8]) -> bool
        ensures { (d : SlaveDesc) (y : ForeignState) → StandsBetween self.now d y
            → MatchBool result (AreNotices y (record { to = to; bytes = bytes.now } ∷ [])) (AreNotices y (record { to = to; bytes = bytes.now } ∷ []) → ⊥) }
    {
        is_told(self.session, self.plant.logs, to, bytes)
    }

    /// The answer with this place is the one that was sent.
    fn settle(&mut self, meaning: Meaning, i: usize, bytes: &[u8])
        requires { length bytes.now ≤ 1024 }
        ensures { self.new ≡ record self.old { plant = settled meaning i self.old.plant; kept = bytes.now; awaited = Awaited.Notices } }
    {
        match meaning {
            Meaning::Logging if i == SECOND => self.plant.logs = true,
            Meaning::Fault => self.plant.faults = self.plant.faults.at(i),
            _ => {}
        }
        self.kept.set(bytes);
        self.awaited = Awaited::Notices;
    }

    /// One of the answers was sent that are awaited.
    fn on_answer(&mut self, meaning: Meaning, to: Address, bytes: &[u8]) -> bool
        ensures { (d : SlaveDesc) (x : ForeignState) (event : Event) (from : Address) (r : SlaveRequest) → IsTaken d x event from r → AwaitsAnswer self.old meaning d x from r
            → MatchBool result (StandsWithin self.new d x event (record { to = to; bytes = bytes.now } ∷ [])) (MayGoOn d (Within x event (record { to = to; bytes = bytes.now } ∷ [])) → ⊥) }
    {
        match find_out(&self.out, to, bytes) {
            Some(i) => {
                self.settle(meaning, i, bytes);
                true
            }
            None => {
                if !is_entries(meaning) {
                    return false;
                }
                if !is_begun(&self.out, SECOND, to, bytes) {
                    return false;
                }
                self.settle(Meaning::Entries, SECOND, bytes);
                true
            }
        }
    }

    /// A notice of a log entry was sent.
    fn on_notice(&mut self, to: Address, bytes: &[u8]) -> bool
        ensures { (d : SlaveDesc) (x y : ForeignState) (event : Event) (gone : List Send) → StandsBetween self.old d y → IsOver d x event gone y
            → MatchBool result (StandsWithin self.new d x event (gone ++ record { to = to; bytes = bytes.now } ∷ [])) (MayGoOn d (Within x event (gone ++ record { to = to; bytes = bytes.now } ∷ [])) → ⊥) }
    {
        self.awaited = Awaited::Notices;
        self.is_notice(to, bytes)
    }

    /// The message was sent that is awaited.
    fn on_message(&mut self, to: Address, bytes: &[u8]) -> bool
        ensures { (d : SlaveDesc) (x y : ForeignState) (event : Event) (gone : List Send) (s : Send) → StandsBetween self.old d y → self.old.out ≡ s ∷ [] → HasOne d x event gone s y
            → MatchBool result (StandsWithin self.new d x event (gone ++ record { to = to; bytes = bytes.now } ∷ [])) (MayGoOn d (Within x event (gone ++ record { to = to; bytes = bytes.now } ∷ [])) → ⊥) }
    {
        self.awaited = Awaited::Notices;
        is_out(&self.out, FIRST, to, bytes)
    }

    /// The notice of a state was sent that the model may leave by a fault. Where this is a pause, nothing may
    /// be sent too.
    fn on_model(&mut self, may_stay: bool, to: Address, bytes: &[u8]) -> bool
        ensures { (d : SlaveDesc) (x : ForeignState) (event : Event) (state : State) → is_model state ≡ true → may_stay ≡ may_turn state Stays → AwaitsModel self.old state d x event
            → MatchBool result (StandsWithin self.new d x event (record { to = to; bytes = bytes.now } ∷ [])) (MayGoOn d (Within x event (record { to = to; bytes = bytes.now } ∷ [])) → ⊥) }
    {
        self.awaited = Awaited::Notices;
        if is_out(&self.out, FIRST, to, bytes) {
            self.plant.pass();
            return true;
        }
        if is_out(&self.out, SECOND, to, bytes) {
            let faults = Faults::of_model(self.plant.state);
            self.plant.fall(faults);
            return true;
        }
        if !may_stay {
            return false;
        }
        self.is_notice(to, bytes)
    }

    /// A data message was sent.
    fn on_parcel(&mut self, target: u8, to: Address, bytes: &[u8]) -> bool
        ensures { (d : SlaveDesc) (x y : ForeignState) (event : Event) (gone : List Send) (s : Send) (id : ℕ) → IsDesc d → StandsBetween self.old d y → self.old.out ≡ s ∷ []
            → slice_get (ids output y.inner.wires.changes) target ≡ Some id → goes_out y.inner.wires.changes y.inner.steps id ≡ true
            → HasData d x event gone (id ∷ ids_from (target + 1) y.inner.wires.changes y.inner.steps) s y
            → MatchBool result (StandsWithin self.new d x event (gone ++ record { to = to; bytes = bytes.now } ∷ [])) (MayGoOn d (Within x event (gone ++ record { to = to; bytes = bytes.now } ∷ [])) → ⊥) }
    {
        let outputs = self.outputs();
        let at = target as usize;
        if !self.plant.is_data(at, outputs, to, bytes) {
            return false;
        }
        self.await_data(at + 1);
        true
    }

    /// The slave has sent a message. Answers whether it may.
    pub(crate) fn on_sent(&mut self, to: Address, bytes: &[u8]) -> bool
        ensures within { (d : SlaveDesc) (x : ForeignState) (event : Event) (gone : List Send) → IsDesc d → StandsWithin self.old d x event gone
            → MatchBool result (StandsWithin self.new d x event (gone ++ record { to = to; bytes = bytes.now } ∷ [])) (MayGoOn d (Within x event (gone ++ record { to = to; bytes = bytes.now } ∷ [])) → ⊥) }
        ensures closed { self.old.awaited ≡ Awaited.Closed → IsFalse result }
    {
        match self.awaited {
            Awaited::Closed => false,
            Awaited::Notices => self.on_notice(to, bytes),
            Awaited::Message => self.on_message(to, bytes),
            Awaited::Answer(meaning) => self.on_answer(meaning, to, bytes),
            Awaited::Initializing => self.on_model(false, to, bytes),
            Awaited::Computing => self.on_model(true, to, bytes),
            Awaited::Data { target } => self.on_parcel(target, to, bytes),
        }
    }
}
