//! The log of a run: what was sent and got, by whom, and what it tells of channels, ordinals and ages.
//!
//! The definitions stand in `specs/`, for the contracts and laws of the crates above. The reader's stand
//! in the order in which things happened; their twins with the newest entry first serve inductions.
#![tactic(auto)]

ghost use Rattle.log_spec.specs.Laws.{ReadEitherWay};

/// A log that is honest in the order in which things happened is honest with the newest entry first.
pub fn honest_either_way()
    ensures { ReadEitherWay }
{}
