//! What holds of the lists of every plan.

ghost use Rattle.std.specs.Prelude.{◌≡◌, ◌≤◌, ◌<◌, ◌+◌, ◌-◌, ℕ, List, [], None, true, slice_index_or};
ghost use Rattle.dcp_types.specs.declared.states.State.TheVariants.{Configuration};
ghost use Rattle.pdu_layout.specs.declared.messages.Cfg.{Cfg};
ghost use Rattle.slave_desc.specs.declared.descriptions.SlaveDesc.{SlaveDesc};
ghost use Rattle.scenario.specs.declared.scenarios.Scenario.{Scenario};
ghost use Rattle.scenario.specs.Settings.{parameters};
ghost use Rattle.master_spec.specs.Plans.{plan_of};
ghost use Rattle.master_spec.specs.PlanSetup.{setup_list, adjust_list};
ghost use Rattle.slave_spec.specs.Changes.{complete};
ghost use Rattle.slave_spec.specs.declared.words.Asked.TheVariants.{Setting};
ghost use Rattle.slave_spec.specs.declared.words.SlaveSetup.{SlaveSetup};
ghost use Rattle.slave_spec.specs.Transport.{Ack};
ghost use Rattle.slave_spec.specs.Plants.{Plant, model_with};
ghost use Rattle.slave_spec.specs.Requests.{refusal, accepted, answers};
ghost use Rattle.plan_laws.specs.Taking.{IsScenarioSlave, TakesAll, plant_after_all};
ghost use Rattle.plan_laws.specs.Runs.{Happening, TakesAmid, after_amid, lists_until};

/// In CONFIGURATION, whatever it was told before, a slave takes its setup list whole: none of the settings
/// is refused. It then stands in CONFIGURATION still, its wiring is complete, and its model is that of the
/// first run, in its state at first.
pub fn setup_lists_are_taken()
    ensures taken { (sc : Scenario) (s : ℕ) (x : SlaveSetup) (p : Plant) → IsScenarioSlave sc s x.desc → p.state ≡ Configuration → TakesAll x p (setup_list sc s x.desc) }
    ensures stays { (sc : Scenario) (s : ℕ) (x : SlaveSetup) (p : Plant) → IsScenarioSlave sc s x.desc → (plant_after_all x p (setup_list sc s x.desc)).state ≡ p.state }
    ensures complete { (sc : Scenario) (s : ℕ) (x : SlaveSetup) (p : Plant) → IsScenarioSlave sc s x.desc → complete (plant_after_all x p (setup_list sc s x.desc)).wires.changes ≡ true }
    ensures model { (sc : Scenario) (s : ℕ) (x : SlaveSetup) (p : Plant) → IsScenarioSlave sc s x.desc
        → (plant_after_all x p (setup_list sc s x.desc)).model ≡ model_with x.desc (parameters sc s x.desc 1) }
{}

/// In CONFIGURATION, with its parameters of run `r`, a slave takes whole what is set after that run, and then
/// has its parameters of the next; its state and its wiring stay. A model in its state at first is then in it
/// again.
pub fn adjust_lists_are_taken()
    ensures taken { (sc : Scenario) (s : ℕ) (x : SlaveSetup) (p : Plant) (r : ℕ) → IsScenarioSlave sc s x.desc → p.state ≡ Configuration
        → p.model.kind ≡ x.desc.kind → p.model.parameters ≡ parameters sc s x.desc r → TakesAll x p (adjust_list sc r s) }
    ensures stays { (sc : Scenario) (s : ℕ) (x : SlaveSetup) (p : Plant) (r : ℕ) → IsScenarioSlave sc s x.desc
        → p.model.kind ≡ x.desc.kind → p.model.parameters ≡ parameters sc s x.desc r
        → ((plant_after_all x p (adjust_list sc r s)).state ≡ p.state) × ((plant_after_all x p (adjust_list sc r s)).wires ≡ p.wires) }
    ensures parameters { (sc : Scenario) (s : ℕ) (x : SlaveSetup) (p : Plant) (r : ℕ) → IsScenarioSlave sc s x.desc
        → p.model.kind ≡ x.desc.kind → p.model.parameters ≡ parameters sc s x.desc r → (plant_after_all x p (adjust_list sc r s)).model.parameters ≡ parameters sc s x.desc (r + 1) }
    ensures model { (sc : Scenario) (s : ℕ) (x : SlaveSetup) (p : Plant) (r : ℕ) → IsScenarioSlave sc s x.desc
        → p.model ≡ model_with x.desc (parameters sc s x.desc r) → (plant_after_all x p (adjust_list sc r s)).model ≡ model_with x.desc (parameters sc s x.desc (r + 1)) }
{}

/// Run by run: let a slave get its setup list and then, in the order of the runs, what is set after each, and
/// before each of these settings whatever else: turns, data, questions, changes of state, a reset among them.
/// Each setting that comes in CONFIGURATION, where those before it did, is taken. Where the lists before a run
/// lead, the slave has the parameters of that run, and its wiring is complete.
pub fn lists_are_taken_run_by_run()
    ensures taken { (sc : Scenario) (s : ℕ) (x : SlaveSetup) (p : Plant) (happened : ℕ → List Happening) (r : ℕ) → IsScenarioSlave sc s x.desc
        → TakesAmid x p happened 0 (lists_until sc s x.desc r) }
    ensures parameters { (sc : Scenario) (s : ℕ) (x : SlaveSetup) (p : Plant) (happened : ℕ → List Happening) (r : ℕ) → IsScenarioSlave sc s x.desc
        → (after_amid x p happened 0 (lists_until sc s x.desc r)).model.parameters ≡ parameters sc s x.desc (r + 1) }
    ensures complete { (sc : Scenario) (s : ℕ) (x : SlaveSetup) (p : Plant) (happened : ℕ → List Happening) (r : ℕ) → IsScenarioSlave sc s x.desc
        → complete (after_amid x p happened 0 (lists_until sc s x.desc r)).wires.changes ≡ true }
{}

/// A setting that is not refused is acknowledged, nothing is told of it, and it leads where an accepted one
/// does.
pub fn settings_are_acknowledged()
    ensures { (x : SlaveSetup) (p : Plant) (body : Cfg) → refusal x p (Setting body) ≡ None
        → answers x (Setting body) p ≡ record { answer = Ack; notices = []; after = accepted x p (Setting body) } }
{}

/// A plan has these lists: at the place of each slave its setup list, and at the place of each run but the
/// last, there at the place of each slave, what is set after that run.
pub fn plans_have_these_lists()
    ensures setup { (sc : Scenario) (s : ℕ) (d : SlaveDesc) → IsScenarioSlave sc s d → slice_index_or (plan_of sc).setups (s - 1) [] ≡ setup_list sc s d }
    ensures adjust { (sc : Scenario) (s : ℕ) (d : SlaveDesc) (r : ℕ) → IsScenarioSlave sc s d → 1 ≤ r → r < sc.runs
        → slice_index_or (slice_index_or (plan_of sc).adjusts (r - 1) []) (s - 1) [] ≡ adjust_list sc r s }
{}
