//! How many turns a run has.

ghost use Rattle.std.specs.Prelude.{◌≡◌, ◌≤◌, ◌<◌, List, None};
ghost use Rattle.dcp_ends.specs.Events.{Event};
ghost use Rattle.scenario.specs.Sound.{IsLimits, IsScenario};
ghost use Rattle.scenario.specs.declared.scenarios.Scenario.{Scenario};
ghost use Rattle.master_spec.specs.declared.setups.Setup.{Setup};
ghost use Rattle.master_spec.specs.Bound.{bound};
ghost use Rattle.master_spec.specs.Course.{course, master_turns};
ghost use Rattle.master_spec.specs.Setup.{setup_from};

/// While the master has no report it has had fewer turns than its bound, and with a report or without
/// never more: whatever datagrams came, from whomever, and in whatever order.
pub fn setup_reports()
    ensures before { (setup : Setup) (events : List Event) → IsLimits setup.limits → 1 ≤ setup.runs → (course setup events).report ≡ None → master_turns setup events < bound setup }
    ensures always { (setup : Setup) (events : List Event) → IsLimits setup.limits → 1 ≤ setup.runs → master_turns setup events ≤ bound setup }
{}

/// The same for a scenario that a text can give.
pub fn scenario_reports()
    ensures before { (sc : Scenario) → IsScenario sc → (events : List Event) → (course (setup_from sc) events).report ≡ None → master_turns (setup_from sc) events < bound (setup_from sc) }
    ensures always { (sc : Scenario) → IsScenario sc → (events : List Event) → master_turns (setup_from sc) events ≤ bound (setup_from sc) }
{}
