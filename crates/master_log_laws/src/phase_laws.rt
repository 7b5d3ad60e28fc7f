//! What a slave is asked in each phase, by the log, on every network.
//!
//! The law speaks of numbers and answers. The proofs also tell at which stage of its phase a
//! conversation stands, and in which phase of the spine each request stands; other laws cite them.

ghost use Rattle.master_log_laws.specs.Phases.Laws.{RequestsGoOneByOne};

/// The master asks each slave one request after the other: each has the next number, and comes once all
/// before it are decided.
pub fn requests_go_one_by_one()
    ensures { RequestsGoOneByOne }
{}
