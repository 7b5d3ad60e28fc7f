//! Row events go in step with the phases: none is asked of a slave before all slaves have done those before it. There is no code.

ghost use Rattle.master_laws.specs.Barrier.Laws.{RowsAreShownInTheirPhase, ProgressGoesByPhase, PassedPhasesAreDone, RowEventsWaitForAll};

/// At every moment of a phase a slave has done the row events of the phases before it, and no more than the one of its own.
pub fn progress_goes_by_phase()
    ensures { ProgressGoesByPhase }
{}

/// At every moment of the phase in which the outputs of a row are shown, a slave has done twice as many row events as there are rows before it, or one more.
pub fn rows_are_shown_in_their_phase()
    ensures { RowsAreShownInTheirPhase }
{}

/// Where a slave has passed the present phase, it has done the row event of that phase too, and none is under way.
pub fn passed_phases_are_done()
    ensures { PassedPhasesAreDone }
{}

/// A row event that is asked for is the next one of a run of the scenario, none is under way there, and no slave has done fewer.
pub fn row_events_wait_for_all()
    ensures { RowEventsWaitForAll }
{}
