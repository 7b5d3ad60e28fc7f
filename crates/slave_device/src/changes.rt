//! Changes of state that the master asks for.

ghost use Rattle.std.specs.Prelude.{◌≡◌, Some, None, MatchResult};
ghost use Rattle.dcp_types.specs.declared.states.State.{State};
ghost use Rattle.slave_spec.specs.Transport.{Ack, is_last};
ghost use Rattle.slave_spec.specs.Plants.{Plant};
ghost use Rattle.slave_spec.specs.Requests.{refusal, accepted, plant_reset, change_refusal, changed_to};
ghost use Rattle.slave_device.specs.Devices.{DeviceFor};

use crate::devices::Device;
use dcp_types::{ErrorCode, State};
use pdu_layout::Stc;
use slave_spec::{Asked, Wired};
use slave_states::next_on;

pub(crate) fn is_deregister(body: &Stc) -> bool
    ensures { (named : State) → result ≡ is_last (Asked.Change named body.now) Ack }
{
    matches!(body, Stc::Deregister)
}

impl<W: Wired> Device<W> {
    /// What else a change of state wants, where the table of states has a row for it.
    fn objection(&self, request: &Stc) -> Option<ErrorCode>
        ensures { (p : Plant) → DeviceFor W.stands self.now p → result ≡ change_refusal p request.now }
    {
        match request {
            Stc::Prepare if !self.wiring.complete() => Some(ErrorCode::IncompleteConfig),
            Stc::Run { start_time } if *start_time != 0 => Some(ErrorCode::ValueRange),
            Stc::DoStep { steps } if *steps != 1 || self.steps == u32::MAX => {
                Some(ErrorCode::BadSteps)
            }
            Stc::DoStep { .. } if !self.wiring.ready(self.steps) => Some(ErrorCode::InputsMissing),
            _ => None,
        }
    }

    /// Begins another run: the parameters and the configuration stay, and the ordinals go on.
    fn reset(&mut self, next: State)
        ensures stands { (p : Plant) → DeviceFor W.stands self.old p → DeviceFor W.stands self.new (plant_reset p next) }
        ensures setup { self.new.works.setup ≡ self.old.works.setup }
    {
        self.wiring.restart(self.steps);
        self.works.model.restart();
        self.steps = 0;
        self.outputs_sent = false;
        self.state = next;
    }

    /// Enters the state that an accepted request leads to.
    fn enter(&mut self, request: &Stc, next: State)
        ensures stands { (p : Plant) → DeviceFor W.stands self.old p → DeviceFor W.stands self.new (changed_to self.old.works.setup p request.now next) }
        ensures setup { self.new.works.setup ≡ self.old.works.setup }
    {
        match request {
            Stc::DoStep { .. } => self.busy_left = self.works.setup.desc.busy,
            Stc::Reset => self.reset(next),
            _ => {}
        }
        self.state = next;
    }

    /// Changes the state as it is asked to, or refuses that and changes nothing.
    #[tactic(auto, unfolding(slave_spec::specs::Requests::refusal, slave_spec::specs::Requests::accepted))]
    pub(crate) fn change(&mut self, named: State, request: &Stc) -> Result<(), ErrorCode>
        ensures stands { (p : Plant) → DeviceFor W.stands self.old p → MatchResult result
            (λ _. (refusal self.old.works.setup p (Asked.Change named request.now) ≡ None) × DeviceFor W.stands self.new (accepted self.old.works.setup p (Asked.Change named request.now)))
            (λ e. (refusal self.old.works.setup p (Asked.Change named request.now) ≡ Some e) × DeviceFor W.stands self.new p) }
        ensures setup { self.new.works.setup ≡ self.old.works.setup }
    {
        let next = match next_on(self.state, request, named, self.outputs_sent) {
            Ok(next) => next,
            Err(code) => return Err(code),
        };
        if let Some(code) = self.objection(request) {
            return Err(code);
        }
        self.enter(request, next);
        Ok(())
    }
}
