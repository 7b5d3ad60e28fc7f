//! Laws of the definitions.

ghost use Rattle.replays.specs.Laws.{OneAnswer, RunsReplay};

/// A trace has one answer: it is gone through to a report, or differs first at one place, or breaks off.
pub fn one_answer()
    ensures { OneAnswer }
{}

/// The log of a run that reported is gone through to this report: nothing in it differs.
pub fn runs_replay()
    ensures { RunsReplay }
{}
