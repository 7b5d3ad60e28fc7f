//! What the master hears, in the words of the laws over a run.
//!
//! The laws read off the log which answer decides a request. It is the one that the master takes. There is
//! no code.

ghost use Rattle.master_laws.specs.Hears.Laws.{AnswersAreHeard, DecisionsAreTold};

/// Bytes that are an answer in the words of the laws are an answer to the master, and the same one.
pub fn answers_are_heard()
    ensures { AnswersAreHeard }
{}

/// The requests to a slave that are decided are those that the log tells as decided, with the same answers.
pub fn decisions_are_told()
    ensures { DecisionsAreTold }
{}
