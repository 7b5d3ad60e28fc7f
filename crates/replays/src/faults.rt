//! Why a trace is not gone through to a report.

ghost use Rattle.std.specs.Prelude.{◌≡◌};
ghost use Rattle.replays.specs.declared.faults.ReplayFault.TheVariants.{OutOfMemory};

use dcp_types::OutOfMemory;

/// Why a trace is not gone through to a report.
#[derive(Clone, Copy, Debug, PartialEq, Eq)]
pub enum ReplayFault {
    /// The entry at this place, from 0, is the first that differs: it is another Sent than the one that is
    /// expected, a Sent where none is expected or another entry where one is, an entry of an end that is
    /// not hosted, or any entry after the master's report.
    Differs { at: u64 },
    /// Nothing differs, but the entries, which are so many, end before a report or while a Sent is
    /// expected.
    Unended { entries: u64 },
    OutOfMemory,
}

impl From<OutOfMemory> for ReplayFault {
    ghost from_gives = { λ _ e. e ≡ OutOfMemory };

    fn from(_error: OutOfMemory) -> ReplayFault {
        ReplayFault::OutOfMemory
    }
}
