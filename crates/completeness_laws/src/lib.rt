//! Why a run of a scenario's own ends reports what it reports: over an honest network each cause of a failure has
//! its reason, and where nothing is lost or late, the run reports what the reference gives. In rounds over a network in
//! memory whose plan does nothing to the messages, nothing is lost, and nothing is late where the master is patient.
//!
//! No code stands here; each function is a law.
#![tactic(auto)]

ghost use Rattle.std.specs.Prelude.{reverse};
ghost use Rattle.completeness_laws.specs.AnswerCauses.{FaultsAreOfTheReference, MissedHeartbeatsAreTrue, NeverUnexpected, RefusedInError};
ghost use Rattle.completeness_laws.specs.Completes.{HeartsAreKept, RowsBeforeFault, StepsWait, TimelyReportsReference};
ghost use Rattle.completeness_laws.specs.Honest.{CausesAreHonest};
ghost use Rattle.completeness_laws.specs.Lacking.{QuickSlavesLeaveTime, ShortHeartbeatsDoNot, SlowSlavesDoNot, TimelyLacksNoAnswer};
ghost use Rattle.completeness_laws.specs.Quiet.{OneRequestWaits, QuietLooksTakeAll, QuietNetsLoseNothing, SlavesSendLittle};
ghost use Rattle.completeness_laws.specs.Rounded.{NoneAskedAgain, QuietIsTimely, RoundsBringAll};
ghost use Rattle.completeness_laws.specs.Small.{small_setup, in_time, unreported, late_answer, late_data};
ghost use Rattle.completeness_laws.specs.Timely.{Timely};
ghost use Rattle.completeness_laws.specs.Undelivered.{OutputsWereUnshown, ReportedEnded, StuckWereBusy, UnansweredWereUnheard};

/// No answer of a slave is one that does not fit what was asked.
pub fn never_unexpected()
    ensures { NeverUnexpected }
{}

/// A slave refuses nothing but in an error state, in which it stands because it missed a heartbeat; inputs that are
/// missing for a step are another cause.
pub fn refused_in_error()
    ensures { RefusedInError }
{}

/// Where a slave reports a fault that is no missed heartbeat, the reference ends with this fault of this slave: at the
/// step that the phase is for, or before the first step of its run where the slave is initialized.
pub fn faults_are_of_the_reference()
    ensures { FaultsAreOfTheReference }
{}

/// Where a slave reports a missed heartbeat, it had as many turns in a row as its heartbeat without taking a
/// request, and took one after that.
pub fn missed_heartbeats_are_true()
    ensures { MissedHeartbeatsAreTrue }
{}

/// The slave that a report names ended at some entry, with the cause that the report names.
pub fn reported_ended()
    ensures { ReportedEnded }
{}

/// Where the master gave up waiting for an answer, the request had not come to the slave, or an answer of the
/// slave to it had not come to the master.
pub fn unanswered_were_unheard()
    ensures { UnansweredWereUnheard }
{}

/// Where the master gave up waiting for the outputs of a slave after a step, the slave had sent them, and they
/// had not come to the master in all the turns that it waits for data.
pub fn outputs_were_unshown()
    ensures { OutputsWereUnshown }
{}

/// Where the master gave up a slave that did not leave a state, a step of that slave lasts, with two turns more,
/// as long as the limit for a state.
pub fn stuck_were_busy()
    ensures { StuckWereBusy }
{}

/// Whatever cause a master reports, it has its reason: a failure is never laid to a slave for the master's own
/// doing.
pub fn causes_are_honest()
    ensures { CausesAreHonest }
{}

/// A log is timely where the answer and the data come before the next turn.
pub fn some_logs_are_timely()
    ensures { Timely small_setup (reverse in_time) }
{}

/// A log is not timely without a report, with an answer that comes too late, or with such data.
pub fn late_logs_are_not_timely()
    ensures report { Timely small_setup (reverse unreported) → ⊥ }
    ensures answer { Timely small_setup (reverse late_answer) → ⊥ }
    ensures values { Timely small_setup (reverse late_data) → ⊥ }
{}

/// A slave leaves time where a step of it is short, and its heartbeat is off or long.
pub fn quick_slaves_leave_time()
    ensures { QuickSlavesLeaveTime }
{}

/// A slave leaves no time where a step of it takes as long as the master waits, or its heartbeat is no longer than the waits of the master.
pub fn slow_slaves_do_not()
    ensures steps { SlowSlavesDoNot }
    ensures hearts { ShortHeartbeatsDoNot }
{}

/// A timely log shows no want of an answer.
pub fn timely_logs_lack_no_answer()
    ensures { TimelyLacksNoAnswer }
{}

/// When the phase of a fault of the reference has begun, the rows before it are counted, and no more.
pub fn rows_before_a_fault_are_counted()
    ensures { RowsBeforeFault }
{}

/// A timely run of a roomy scenario reports what the reference gives.
pub fn timely_runs_report_the_reference()
    ensures { TimelyReportsReference }
{}

/// A step that is asked again after a refusal comes as many turns after that as the limit says.
pub fn steps_wait_to_be_asked_again()
    ensures { StepsWait }
{}

/// In a timely run no slave that is asked again was left alone for longer than the waits of the master.
pub fn timely_runs_leave_no_slave_alone()
    ensures { HeartsAreKept }
{}

/// A look at an end of a quiet network takes all that waits for it, where that is no more than 64 messages of the
/// last 32,767.
pub fn quiet_looks_take_all()
    ensures { QuietLooksTakeAll }
{}

/// A quiet network loses nothing: what was sent was got, or still waits.
pub fn quiet_nets_lose_nothing()
    ensures { QuietNetsLoseNothing }
{}

/// A slave sends at most one message at a datagram, to the master, and at a turn two to the master and one to each
/// other end.
pub fn slaves_send_little()
    ensures { SlavesSendLittle }
{}

/// Over a quiet network one request waits for a slave at most, where the master sends it no request again.
pub fn one_request_waits()
    ensures { OneRequestWaits }
{}

/// Where each round brings all that was sent before it, a patient master sends no request again.
pub fn none_is_asked_again()
    ensures { NoneAskedAgain }
{}

/// Over a quiet network each round of a patient master's run brings all that was sent before it.
pub fn rounds_bring_all()
    ensures { RoundsBringAll }
{}

/// Over a quiet network the log of a patient master is timely wherever it has its report.
pub fn quiet_logs_are_timely()
    ensures { QuietIsTimely }
{}
