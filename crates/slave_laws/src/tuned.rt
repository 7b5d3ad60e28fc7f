//! What the exchanges with a slave tell of its model: with the settings of a run it has the parameters of that
//! run, and with its outputs told as ready they lie in their types.
//!
//! There is no code.

ghost use Rattle.slave_laws.specs.Model.Tuned.{OpenedOutputsFit, TunedHaveParameters};

/// A slave that took the settings of a run has the parameters of that run.
pub fn tuned_models()
    ensures { TunedHaveParameters }
{}

/// Where it told besides that it is initialized, before its first step it shows its first outputs.
pub fn opened_outputs()
    ensures { OpenedOutputsFit }
{}
