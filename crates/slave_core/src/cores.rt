//! One slave.

ghost use Rattle.std.specs.Prelude.{◌≡◌, ◌++◌, ◌∷◌, [], List, IfOk};
ghost use Rattle.dcp_ends.specs.Events.{Event};
ghost use Rattle.slave_spec.specs.Heard.{Asks, Brings};
ghost use Rattle.slave_spec.specs.Transport.{SlaveState, Exchange, fate_in, send, answer_message, Nack, after_request, request_sends, after_heard, heard_sends, after_turn, turn_sends, expected};
ghost use Rattle.slave_spec.specs.Plants.{Plant, start_plant};
ghost use Rattle.slave_spec.specs.Slaves.{machine, state_after, steps_after, fault_after, quiet_after};
ghost use Rattle.slave_spec.specs.Sound.{IsSoundPlant};
ghost use Rattle.slave_core.specs.Core.{CoreStands, CoreStandsFor, bytes_again};

use crate::fates::{is_register, placed, placed_late, same_address, session_with};
use crate::hearing::{Hearing, hear};
use crate::inner::Inner;
use crate::kept::KeptAnswer;
use crate::messages::{SlaveOutbox, put_nack};
use dcp_ends::End;
use dcp_types::{Address, ErrorCode, FaultCode, OutOfMemory, State};
use seq_window::{next, place};
use slave_spec::{Asked, Fate, Session, SlaveRequest};
use std::alloc::Global;

/// A slave whose error is resolved is over after so many turns without a request.
const RESTED: u32 = 1000;

/// One slave: an end of the protocol, made of the transport and of the machine under it. The transport
/// drops what is not for it, places each request by its number, gives the kept answer to a repeated
/// one, and counts the turns without a request; the machine does all else.
///
/// Its methods have three roles:
///
/// - events in: `on_gram` for a datagram that came, `on_turn` for a turn of the slave. Each wants that
///   nothing is outgoing;
/// - polling out: `outgoing` reads what is to be sent after the event, from number 0 on until it answers
///   None, and `clear_outgoing` gives it up;
/// - readers, at any time and without effect: `state`, `steps_taken`, `fault`, `quiet_turns`, `is_over`,
///   `address`.
///
/// So a loop calls `on_gram` or `on_turn`, then `outgoing` with 0, 1, 2, .., then `clear_outgoing`, and
/// so on until `is_over`. Only `new` takes memory.
#[derive(Drop)]
pub struct SlaveCore<M: Inner> {
    inner: M,
    session: Session,
    /// The number of the next request.
    expected: u16,
    /// The answer to the newest request that was taken.
    kept: KeptAnswer,
    /// The turns since that request.
    quiet: u32,
    out: SlaveOutbox,
}

impl<M: Inner> SlaveCore<M> {
    /// A slave to which nothing has come, over a machine at its start. It takes all the memory that it
    /// needs.
    pub fn new(alloc: Global, inner: M) -> Result<SlaveCore<M>, OutOfMemory>
        requires { M.stands inner (start_plant (M.setup inner)) }
        ensures stands { IfOk result (λ s. CoreStandsFor M.setup M.stands s []) }
        ensures inner { IfOk result (λ s. s.inner ≡ inner) }
        ensures quiet { IfOk result (λ s. s.out ≡ []) }
    {
        let out = SlaveOutbox::new(alloc)?;
        Ok(SlaveCore {
            inner,
            session: Session::Before,
            expected: 0,
            kept: KeptAnswer::new(),
            quiet: 0,
            out,
        })
    }

    /// What happens to a request.
    fn fate(&self, from: Address, request: &SlaveRequest) -> Fate
        ensures { (served : List Exchange) → self.now.expected ≡ expected served → result ≡ fate_in (machine (M.setup self.now.inner)) self.now.session served from request.now }
    {
        match self.session {
            Session::Before => {
                if !is_register(&request.asked) || request.number != 0 {
                    return Fate::Dropped;
                }
                match self.inner.refuses(&request.asked) {
                    Some(code) => Fate::Refused(code),
                    None => Fate::Taken,
                }
            }
            Session::During { master, id } => {
                if same_address(from, master) && request.receiver == id {
                    placed(place(request.number, self.expected))
                } else {
                    Fate::Dropped
                }
            }
            Session::After { master, id } => {
                if same_address(from, master) && request.receiver == id {
                    placed_late(place(request.number, self.expected))
                } else {
                    Fate::Dropped
                }
            }
        }
    }

    /// Refuses a request without taking it.
    fn refuse(&mut self, from: Address, request: &SlaveRequest, code: ErrorCode)
        requires { self.old.out ≡ [] }
        ensures out { self.new.out ≡ send from (answer_message request.now self.old.expected (Nack code)) ∷ [] }
        ensures same { self.new ≡ record self.old { out = self.new.out } }
    {
        put_nack(
            from,
            request.number,
            request.receiver,
            self.expected,
            code.code(),
            &mut self.out,
        );
    }

    /// Gives the kept answer again.
    fn repeat(&mut self, to: Address)
        requires { self.old.out ≡ [] }
        ensures out { self.new.out ≡ bytes_again to self.old.kept }
        ensures same { self.new ≡ record self.old { out = self.new.out } }
    {
        let bytes = self.kept.as_slice();
        if !bytes.is_empty() {
            self.out.put_bytes(to, bytes);
        }
    }

    /// Takes a request: answers it, keeps the answer, and expects the next one.
    fn take(&mut self, from: Address, request: &SlaveRequest)
        requires { self.old.out ≡ [] }
        ensures stands { (x : SlaveState Plant) → CoreStands M.stands self.old x → CoreStands M.stands self.new (after_request (machine (M.setup self.old.inner)) x from request.now Fate.Taken) }
        ensures sends { (x : SlaveState Plant) → CoreStands M.stands self.old x → self.new.out ≡ request_sends (machine (M.setup self.old.inner)) x from request.now Fate.Taken }
        ensures setup { M.setup self.new.inner ≡ M.setup self.old.inner }
    {
        let next = next(self.expected);
        let ends = self.inner.answer(from, request, next, &mut self.out);
        self.expected = next;
        self.quiet = 0;
        self.session = session_with(self.session, from, request.receiver, ends);
        if let Some((_to, bytes)) = self.out.get(0) {
            self.kept.set(bytes);
        }
    }

    /// A request has come.
    fn on_request(&mut self, from: Address, request: &SlaveRequest)
        requires { self.old.out ≡ [] }
        ensures stands { (x : SlaveState Plant) → CoreStands M.stands self.old x → CoreStands M.stands self.new (after_heard (machine (M.setup self.old.inner)) x from (Asks request.now)) }
        ensures sends { (x : SlaveState Plant) → CoreStands M.stands self.old x → self.new.out ≡ heard_sends (machine (M.setup self.old.inner)) x from (Asks request.now) }
        ensures setup { M.setup self.new.inner ≡ M.setup self.old.inner }
    {
        match self.fate(from, request) {
            Fate::Dropped => {}
            Fate::Refused(code) => self.refuse(from, request, code),
            Fate::Repeated => self.repeat(from),
            Fate::Taken => self.take(from, request),
        }
    }

    /// A data message has come; it is heeded while the session lasts.
    fn on_data(&mut self, from: Address, number: u16, id: u16, payload: &[u8])
        requires { self.old.out ≡ [] }
        ensures stands { (x : SlaveState Plant) → CoreStands M.stands self.old x → CoreStands M.stands self.new (after_heard (machine (M.setup self.old.inner)) x from (Brings number id payload.now)) }
        ensures out { self.new.out ≡ [] }
        ensures setup { M.setup self.new.inner ≡ M.setup self.old.inner }
    {
        if let Session::During { .. } = self.session {
            self.inner.bring(from, number, id, payload);
        }
    }

    /// Has a turn, if it is registered.
    fn pass(&mut self)
        requires { self.old.out ≡ [] }
        ensures stands { (x : SlaveState Plant) → CoreStands M.stands self.old x → CoreStands M.stands self.new (after_turn (machine (M.setup self.old.inner)) x) }
        ensures sends { (x : SlaveState Plant) → CoreStands M.stands self.old x → IsSoundPlant x.inner → self.new.out ≡ turn_sends (machine (M.setup self.old.inner)) x.session x }
        ensures setup { M.setup self.new.inner ≡ M.setup self.old.inner }
    {
        match self.session {
            Session::Before => {}
            Session::During { master, id } => {
                self.quiet = self.quiet.saturating_add(1);
                self.inner.turn(self.quiet, master, id, &mut self.out);
            }
            Session::After { .. } => {}
        }
    }

    /// The state of the slave: ALIVE before it is registered and after its session.
    pub fn state(&self) -> State
        ensures { (events : List Event) → CoreStandsFor M.setup M.stands self.now events → result ≡ state_after (M.setup self.now.inner) events }
    {
        self.inner.state()
    }

    /// The steps taken since the last reset.
    pub fn steps_taken(&self) -> u32
        ensures { (events : List Event) → CoreStandsFor M.setup M.stands self.now events → result ≡ steps_after (M.setup self.now.inner) events }
    {
        self.inner.steps_taken()
    }

    /// The newest fault; none where there was none.
    pub fn fault(&self) -> Option<FaultCode>
        ensures { (events : List Event) → CoreStandsFor M.setup M.stands self.now events → result ≡ fault_after (M.setup self.now.inner) events }
    {
        self.inner.fault()
    }

    /// The turns since the last request that was taken. The count stands still at its last number.
    pub fn quiet_turns(&self) -> u32
        ensures { (events : List Event) → CoreStandsFor M.setup M.stands self.now events → result ≡ quiet_after (M.setup self.now.inner) events }
    {
        self.quiet
    }
}

impl<M: Inner> End for SlaveCore<M> {
    ghost use Rattle.slave_spec.specs.declared.words.SlaveSetup.{SlaveSetup};
    ghost use Rattle.slave_spec.specs.Slaves.{slave_rules_from};
    ghost use Rattle.slave_core.specs.Core.{CoreStandsFor};

    ghost Made = { SlaveSetup };

    ghost made = { λ s. M.setup s.inner };

    ghost stands = { CoreStandsFor M.setup M.stands };

    ghost rules = { λ s. slave_rules_from (M.setup s.inner) };

    ghost outs = { λ s. s.out };

    fn address(&self) -> Address {
        self.inner.address()
    }

    fn on_gram(&mut self, from: Address, bytes: &[u8]) {
        match hear(bytes) {
            Hearing::Asks(request) => self.on_request(from, &request),
            Hearing::Brings {
                number,
                id,
                payload,
            } => self.on_data(from, number, id, payload),
            Hearing::Nothing => {}
        }
    }

    fn on_turn(&mut self) {
        self.pass();
    }

    fn outgoing(&self, i: usize) -> Option<(Address, &[u8])> {
        self.out.get(i)
    }

    fn clear_outgoing(&mut self) {
        self.out.clear();
    }

    fn is_over(&self) -> bool {
        match self.session {
            Session::After { .. } => true,
            _ => self.inner.state().code() == State::ErrorResolved.code() && self.quiet >= RESTED,
        }
    }
}
