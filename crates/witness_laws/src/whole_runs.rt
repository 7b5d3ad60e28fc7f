//! Runs of small scenarios, written out entry by entry, that meet every premise of the laws of runs.
//!
//! No code stands here; each function is a fact on these runs.

ghost use Rattle.completeness_laws.specs.Timely.{Roomy};
ghost use Rattle.lockstep.specs.Lockstep.{IsReference};
ghost use Rattle.master_spec.specs.declared.causes.Cause.TheVariants.{Faulted};
ghost use Rattle.master_spec.specs.declared.reports.Report.TheVariants.{Failed, Finished};
ghost use Rattle.witness_laws.specs.Runs.Facts.{AsksTwice, EndsWithReport, IsNoTimelyRun, IsTimelyRun, RunsInRounds};
ghost use Rattle.witness_laws.specs.Runs.Fault.{fault_log};
ghost use Rattle.witness_laws.specs.Runs.Late.{late_log};
ghost use Rattle.witness_laws.specs.Runs.Loop.{loop_log};
ghost use Rattle.witness_laws.specs.Runs.References.{faulty_rows, loop_rows, zero_division};
ghost use Rattle.witness_laws.specs.Runs.Scenarios.{faulty, loop};
ghost use Rattle.scenario.specs.Sound.{IsScenario};
ghost use Rattle.std.specs.Prelude.{None, Some};

/// The scenario whose slave is wired to itself is sound and leaves time, and its reference has two rows and no fault.
pub fn the_loop_is_sound()
    ensures sound { IsScenario loop }
    ensures roomy { Roomy loop }
    ensures reference { IsReference loop loop_rows None }
{}

/// The scenario whose slave divides by zero is sound and leaves time, and its reference has one row and that fault.
pub fn the_divider_is_sound()
    ensures sound { IsScenario faulty }
    ensures roomy { Roomy faulty }
    ensures reference { IsReference faulty faulty_rows (Some zero_division) }
{}

/// A run of the first in which nothing is lost or late: it finishes with all rows.
pub fn a_run_finishes()
    ensures run { RunsInRounds loop loop_log }
    ensures timely { IsTimelyRun loop loop_log }
    ensures ends { EndsWithReport loop loop_log (Finished 1) loop_rows }
{}

/// A run of it in which an answer is lost, so that a request is sent again: it is a run and not timely.
pub fn a_run_loses_an_answer()
    ensures run { RunsInRounds loop late_log }
    ensures late { IsNoTimelyRun loop late_log }
    ensures again { AsksTwice loop late_log }
    ensures ends { EndsWithReport loop late_log (Finished 1) loop_rows }
{}

/// A run of the second in which nothing is lost or late: it fails with the fault of the reference.
pub fn a_run_fails()
    ensures run { RunsInRounds faulty fault_log }
    ensures timely { IsTimelyRun faulty fault_log }
    ensures ends { EndsWithReport faulty fault_log (Failed 1 8 (Faulted 18 33)) faulty_rows }
{}
