//! Settings: parameters, the log, and the wiring.

ghost use Rattle.std.specs.Prelude.{◌≡◌, List, Some, None, MatchResult};
ghost use Rattle.slave_desc.specs.declared.descriptions.SlaveDesc.{SlaveDesc};
ghost use Rattle.slave_spec.specs.Changes.{Change};
ghost use Rattle.slave_spec.specs.Refusals as wiring;
ghost use Rattle.slave_spec.specs.Plants.{Plant};
ghost use Rattle.slave_spec.specs.Requests.{refusal, accepted, parameter_refusal, set_to};
ghost use Rattle.slave_device.specs.Devices.{DeviceFor};

use crate::devices::Device;
use dcp_types::{DataType, ErrorCode, State, fits};
use pdu_layout::Cfg;
use slave_spec::{Asked, Wired};

impl<W: Wired> Device<W> {
    /// Sets a parameter, or refuses that and changes nothing.
    fn set_parameter(&mut self, vr: u64, kind: DataType, value: i128) -> Result<(), ErrorCode>
        ensures stands { (p : Plant) → DeviceFor W.stands self.old p → MatchResult result
            (λ _. (parameter_refusal p.model vr kind value ≡ None) × DeviceFor W.stands self.new (set_to self.old.works.setup p (Cfg.Parameter vr kind value)))
            (λ e. (parameter_refusal p.model vr kind value ≡ Some e) × DeviceFor W.stands self.new p) }
        ensures setup { self.new.works.setup ≡ self.old.works.setup }
    {
        if vr >= self.works.setup.desc.parameters.as_slice().len() as u64 {
            return Err(ErrorCode::UnknownVr);
        }
        if kind.code() != DataType::I64.code() {
            return Err(ErrorCode::TypeMismatch);
        }
        if !fits(DataType::I64, value) {
            return Err(ErrorCode::ValueRange);
        }
        match self.works.model.set(vr as usize, value as i64) {
            Ok(()) => Ok(()),
            Err(_) => Err(ErrorCode::ValueRange),
        }
    }

    /// Sets what is asked for, or refuses that and changes nothing.
    #[tactic(auto, unfolding(slave_spec::specs::Requests::refusal, slave_spec::specs::Requests::accepted))]
    pub(crate) fn set(&mut self, body: &Cfg) -> Result<(), ErrorCode>
        ensures stands { (p : Plant) → DeviceFor W.stands self.old p → MatchResult result
            (λ _. (refusal self.old.works.setup p (Asked.Setting body.now) ≡ None) × DeviceFor W.stands self.new (accepted self.old.works.setup p (Asked.Setting body.now)))
            (λ e. (refusal self.old.works.setup p (Asked.Setting body.now) ≡ Some e) × DeviceFor W.stands self.new p) }
        ensures setup { self.new.works.setup ≡ self.old.works.setup }
    {
        if matches!(self.state, State::ErrorHandling | State::ErrorResolved) {
            return Err(ErrorCode::InErrorState);
        }
        if matches!(
            body,
            Cfg::Tunable { .. } | Cfg::ParamNet { .. } | Cfg::Scope { .. }
        ) {
            return Err(ErrorCode::NotSupported);
        }
        if self.state.code() != State::Configuration.code() {
            return Err(ErrorCode::WrongState);
        }
        match body {
            Cfg::Parameter { vr, kind, value } => self.set_parameter(*vr, *kind, *value),
            Cfg::Logging {
                category,
                level,
                mode,
            } => self.log.configure(*category, *level, *mode),
            Cfg::Clear => {
                self.clear();
                Ok(())
            }
            _ => self.wiring.apply(body),
        }
    }

    /// Forgets the configuration, and takes the parameters of the description.
    #[tactic(auto, unfolding(slave_spec::specs::Refusals::refusal_of_setting))]
    fn clear(&mut self)
        ensures stands { (p : Plant) → DeviceFor W.stands self.old p → DeviceFor W.stands self.new (set_to self.old.works.setup p Cfg.Clear) }
        ensures never { (d : SlaveDesc) (changes : List Change) → wiring.refusal_of_setting d changes Cfg.Clear ≡ None }
        ensures setup { self.new.works.setup ≡ self.old.works.setup }
    {
        self.works
            .model
            .begin(self.works.setup.desc.parameters.as_slice());
        let _ = self.wiring.apply(&Cfg::Clear);
    }
}
