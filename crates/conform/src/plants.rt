//! The machine of a slave whose model is not known.

ghost use Rattle.std.specs.Prelude.{◌≡◌, ◌≤◌, ◌<◌, length, Some, None, MatchResult, true};
ghost use Rattle.dcp_types.specs.declared.states.State.{State};
ghost use Rattle.slave_desc.specs.declared.descriptions.SlaveDesc.{SlaveDesc};
ghost use Rattle.slave_log.specs.Shelves as shelves;
ghost use Rattle.slave_spec.specs.Transport.{Ack};
ghost use Rattle.slave_spec.specs.Turns as turns;
ghost use Rattle.slave_spec.specs.Requests.{refusal, accepted, change_refusal, changed_to, plant_reset, is_in_error};
ghost use Rattle.slave_spec.specs.Foreign.{ForeignPlant, setup_for, known_plant, table_refusal, taken_over, foreign_answered, foreign_brings, passed, verdict};
ghost use Rattle.conform.specs.Plants.{ForeignFor, SetTo, faults_of, is_of_wiring};

use crate::faults::Faults;
use dcp_types::{Address, DataType, ErrorCode, State};
use pdu_layout::{Cfg, Stc};
use slave_device::Wiring;
use slave_spec::{Asked, Wired};
use slave_states::{next_on, next_on_turn};

/// What is known of the machine under the transport of a slave.
#[derive(Drop)]
pub(crate) struct ForeignDevice {
    pub(crate) state: State,
    /// The steps taken since the last reset.
    pub(crate) steps: u32,
    /// The initial outputs of this run were sent.
    pub(crate) outputs_sent: bool,
    pub(crate) wiring: Wiring,
    /// The faults of which an answer may name one.
    pub(crate) faults: Faults,
    /// A setting of the log was accepted.
    pub(crate) logs: bool,
}

/// How a setting is answered.
#[derive(Clone, Copy, Debug, PartialEq, Eq)]
pub(crate) enum Setting {
    /// In this one way: accepted, or refused.
    Only(Option<ErrorCode>),
    /// Accepted, or refused as out of range.
    Free,
    /// As by a slave that has no log, or in this way.
    Logging(Option<ErrorCode>),
}

/// Whether these may be set in a log: a category from 1 to 3, or all three by 0; a level from 1 to 3, or
/// none by 0; and mode 0 or 1.
fn is_setting(category: u8, level: u8, mode: u8) -> bool
    ensures { result ≡ shelves.is_setting category level mode }
{
    category <= 3 && level <= 3 && mode <= 1
}

/// Whether the initial outputs are sent after a turn in this state, where `before` tells it of before.
fn sent_after(state: State, before: bool) -> bool
    ensures { result ≡ turns.sent_after state before }
{
    match state {
        State::SendingI => true,
        _ => before,
    }
}

/// Whether a state is one of errors.
fn is_in_error(state: State) -> bool
    ensures { result ≡ is_in_error state }
{
    matches!(state, State::ErrorHandling | State::ErrorResolved)
}

impl ForeignDevice {
    /// What else a change of state wants, where the table of states has a row for it.
    fn objection(&self, request: &Stc) -> Option<ErrorCode>
        ensures { (d : SlaveDesc) (p : ForeignPlant) → ForeignFor self.now d p → result ≡ change_refusal (known_plant d p) request.now }
    {
        match request {
            Stc::Prepare if !self.wiring.complete() => Some(ErrorCode::IncompleteConfig),
            Stc::Run { start_time } if *start_time != 0 => Some(ErrorCode::ValueRange),
            Stc::DoStep { steps } if *steps != 1 || self.steps == u32::MAX => {
                Some(ErrorCode::BadSteps)
            }
            Stc::DoStep { .. } if !self.wiring.ready(self.steps) => Some(ErrorCode::InputsMissing),
            _ => None,
        }
    }

    /// Begins another run.
    fn reset(&mut self, next: State)
        ensures { (d : SlaveDesc) (p : ForeignPlant) (named : State) → ForeignFor self.old d p
            → ForeignFor self.new d (taken_over (Asked.Change named Stc.Reset) p (plant_reset (known_plant d p) next)) }
    {
        self.wiring.restart(self.steps);
        self.steps = 0;
        self.outputs_sent = false;
        self.state = next;
    }

    /// Enters the state that an accepted request leads to.
    fn enter(&mut self, request: &Stc, next: State)
        ensures { (d : SlaveDesc) (p : ForeignPlant) (named : State) → ForeignFor self.old d p
            → ForeignFor self.new d (taken_over (Asked.Change named request.now) p (changed_to (setup_for d) (known_plant d p) request.now next)) }
    {
        match request {
            Stc::Reset => self.reset(next),
            _ => self.state = next,
        }
    }

    /// Changes the state as it is asked to, or refuses that and changes nothing.
    #[tactic(auto, unfolding(slave_spec::specs::Requests::refusal, slave_spec::specs::Requests::accepted))]
    pub(crate) fn change(&mut self, named: State, request: &Stc) -> Option<ErrorCode>
        ensures refused { (d : SlaveDesc) (p : ForeignPlant) → ForeignFor self.old d p → result ≡ table_refusal d p (Asked.Change named request.now) }
        ensures stands { (d : SlaveDesc) (p : ForeignPlant) → ForeignFor self.old d p → ForeignFor self.new d (foreign_answered d p (Asked.Change named request.now) (verdict result)) }
    {
        let next = match next_on(self.state, request, named, self.outputs_sent) {
            Ok(next) => next,
            Err(code) => return Some(code),
        };
        if let Some(code) = self.objection(request) {
            return Some(code);
        }
        self.enter(request, next);
        None
    }

    /// How a parameter is answered of a slave that has so many.
    #[tactic(auto, unfolding(slave_spec::specs::Requests::refusal, slave_spec::specs::Requests::accepted))]
    fn parameter(&self, vr: u64, kind: DataType, value: i128, parameters: usize) -> Setting
        ensures { (d : SlaveDesc) (p : ForeignPlant) → ForeignFor self.now d p → parameters ≡ length d.parameters
            → SetTo d p (Cfg.Parameter vr kind value) result self.now }
    {
        if is_in_error(self.state) {
            return Setting::Only(Some(ErrorCode::InErrorState));
        }
        if self.state.code() != State::Configuration.code() {
            return Setting::Only(Some(ErrorCode::WrongState));
        }
        if vr >= parameters as u64 {
            return Setting::Only(Some(ErrorCode::UnknownVr));
        }
        if kind.code() != DataType::I64.code() {
            return Setting::Only(Some(ErrorCode::TypeMismatch));
        }
        Setting::Free
    }

    /// How a setting of the log is answered.
    #[tactic(auto, unfolding(slave_spec::specs::Requests::refusal, slave_spec::specs::Requests::accepted))]
    fn logging(&self, category: u8, level: u8, mode: u8) -> Setting
        ensures { (d : SlaveDesc) (p : ForeignPlant) → ForeignFor self.now d p → SetTo d p (Cfg.Logging category level mode) result self.now }
    {
        if is_in_error(self.state) {
            return Setting::Only(Some(ErrorCode::InErrorState));
        }
        if self.state.code() != State::Configuration.code() {
            return Setting::Logging(Some(ErrorCode::WrongState));
        }
        if is_setting(category, level, mode) {
            Setting::Logging(None)
        } else {
            Setting::Logging(Some(ErrorCode::ValueRange))
        }
    }

    /// Takes a setting of the wiring, or refuses it and changes nothing.
    #[tactic(auto, unfolding(slave_spec::specs::Requests::refusal, slave_spec::specs::Requests::accepted))]
    fn wire(&mut self, body: &Cfg) -> Result<(), ErrorCode>
        ensures { (d : SlaveDesc) (p : ForeignPlant) → ForeignFor self.old d p → is_of_wiring body.now ≡ true → MatchResult result
            (λ _. (table_refusal d p (Asked.Setting body.now) ≡ None) × ForeignFor self.new d (foreign_answered d p (Asked.Setting body.now) Ack))
            (λ e. (table_refusal d p (Asked.Setting body.now) ≡ Some e) × ForeignFor self.new d p) }
    {
        if is_in_error(self.state) {
            return Err(ErrorCode::InErrorState);
        }
        if matches!(
            body,
            Cfg::Tunable { .. } | Cfg::ParamNet { .. } | Cfg::Scope { .. }
        ) {
            return Err(ErrorCode::NotSupported);
        }
        if self.state.code() != State::Configuration.code() {
            return Err(ErrorCode::WrongState);
        }
        match body {
            Cfg::Parameter { .. } | Cfg::Logging { .. } => Err(ErrorCode::NotSupported),
            _ => self.wiring.apply(body),
        }
    }

    /// Sets what is asked for, where that can be answered in one way.
    pub(crate) fn set(&mut self, body: &Cfg, parameters: usize) -> Setting
        ensures { (d : SlaveDesc) (p : ForeignPlant) → ForeignFor self.old d p → parameters ≡ length d.parameters → SetTo d p body.now result self.new }
    {
        match body {
            Cfg::Parameter { vr, kind, value } => self.parameter(*vr, *kind, *value, parameters),
            Cfg::Logging {
                category,
                level,
                mode,
            } => self.logging(*category, *level, *mode),
            _ => Setting::Only(self.wire(body).err()),
        }
    }

    /// Takes a data message.
    pub(crate) fn bring(&mut self, from: Address, number: u16, id: u16, payload: &[u8])
        ensures { (d : SlaveDesc) (p : ForeignPlant) → ForeignFor self.old d p → ForeignFor self.new d (foreign_brings d from number id payload.now p) }
    {
        let code = self.state.code();
        if code >= State::Prepared.code() && code <= State::SendingD.code() {
            self.wiring.take_data(from, number, id, payload, self.steps);
        }
    }

    /// Passes on to the next state.
    pub(crate) fn pass(&mut self)
        ensures { (d : SlaveDesc) (p : ForeignPlant) → ForeignFor self.old d p → ForeignFor self.new d (passed p) }
    {
        match self.state {
            State::Computing => self.steps = self.steps.saturating_add(1),
            _ => {}
        }
        self.outputs_sent = sent_after(self.state, self.outputs_sent);
        self.state = next_on_turn(self.state, 0);
    }

    /// Falls into the error state, for one of these faults.
    pub(crate) fn fall(&mut self, faults: Faults)
        ensures { (d : SlaveDesc) (p : ForeignPlant) → ForeignFor self.old d p
            → ForeignFor self.new d (record p { state = State.ErrorHandling; faults = faults_of faults }) }
    {
        self.state = State::ErrorHandling;
        self.faults = faults;
    }
}
