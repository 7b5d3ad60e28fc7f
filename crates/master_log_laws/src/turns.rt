//! The turns of the master in a log, which has its oldest entry first.

ghost use Rattle.std.specs.Prelude.{◌≡◌, ◌≤◌, ◌<◌, ℕ, false, Some, List, reverse, count_by};
ghost use Rattle.dcp_ends.specs.declared.entries.LogEntry.{LogEntry};
ghost use Rattle.dcp_ends.specs.Events.{Rules};
ghost use Rattle.dcp_ends.specs.Logs.{events_at};
ghost use Rattle.rounds.specs.Rounds.{Rounds, has_report};
ghost use Rattle.scenario.specs.Sound.{IsScenario};
ghost use Rattle.scenario.specs.declared.scenarios.Scenario.{Scenario};
ghost use Rattle.master_spec.specs.declared.setups.Setup.{Setup};
ghost use Rattle.master_spec.specs.Bound.{bound};
ghost use Rattle.master_spec.specs.Course.{master_turns};
ghost use Rattle.master_spec.specs.Requests.{is_turn_of};
ghost use Rattle.master_spec.specs.Rules.{is_over_after, master_rules};
ghost use Rattle.master_spec.specs.Setup.{setup_from};
ghost use Rattle.master_log_laws.specs.Bound.Turns.{turns_in};

/// The turns that the master counts are its turns in the log that began without a report.
pub fn turns_are_in_log()
    ensures { (setup : Setup) (log : List LogEntry) → master_turns setup (reverse (events_at setup.address log)) ≡ turns_in setup log }
{}

/// A log after which the master of a scenario has no report has fewer turns of the master than the
/// bound says; and in no log do more of them begin without a report.
pub fn log_reports()
    ensures before { (sc : Scenario) → IsScenario sc → (log : List LogEntry) → is_over_after (setup_from sc) (events_at sc.master log) ≡ false → count_by (is_turn_of sc.master) log < bound (setup_from sc) }
    ensures always { (sc : Scenario) → IsScenario sc → (log : List LogEntry) → turns_in (setup_from sc) log ≤ bound (setup_from sc) }
{}

/// So many whole rounds of a run, after which the master has no report, are fewer than the bound says.
pub fn rounds_are_few()
    ensures { (sc : Scenario) → IsScenario sc → (slaves : List Rules) (n : ℕ) (log : List LogEntry) → Rounds (Some (master_rules sc)) slaves n log
        → has_report (Some (master_rules sc)) log ≡ false → n < bound (setup_from sc) }
{}
