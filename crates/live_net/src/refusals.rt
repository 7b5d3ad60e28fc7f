//! Why an object over the system cannot be made.

use dcp_types::OutOfMemory;
use std::alloc::{AllocError, AllocFailed};
use std::io;

/// Why a network of sockets, or a wait for them, cannot be made or opened.
#[derive(Clone, Copy, Debug, PartialEq, Eq)]
pub enum Refused {
    /// A call of the system failed.
    System,
    OutOfMemory,
}

impl From<io::Error> for Refused {
    ghost use Rattle.std.specs.Prelude.{◌≡◌};
    ghost use Rattle.live_net.specs.declared.refusals.Refused.TheVariants.{System};

    ghost from_gives = { λ _ refused. refused ≡ System };

    fn from(_error: io::Error) -> Refused {
        Refused::System
    }
}

impl From<AllocError> for Refused {
    ghost use Rattle.std.specs.Prelude.{◌≡◌};
    ghost use Rattle.live_net.specs.declared.refusals.Refused.TheVariants.{OutOfMemory};

    ghost from_gives = { λ _ refused. refused ≡ OutOfMemory };

    fn from(_error: AllocError) -> Refused {
        Refused::OutOfMemory
    }
}

impl<T: Drop> From<AllocFailed<T>> for Refused {
    ghost use Rattle.std.specs.Prelude.{◌≡◌};
    ghost use Rattle.live_net.specs.declared.refusals.Refused.TheVariants.{OutOfMemory};

    ghost from_gives = { λ _ refused. refused ≡ OutOfMemory };

    fn from(_error: AllocFailed<T>) -> Refused {
        Refused::OutOfMemory
    }
}

impl From<OutOfMemory> for Refused {
    ghost use Rattle.std.specs.Prelude.{◌≡◌};
    ghost use Rattle.live_net.specs.declared.refusals.Refused.TheVariants.{OutOfMemory};

    ghost from_gives = { λ _ refused. refused ≡ OutOfMemory };

    fn from(_error: OutOfMemory) -> Refused {
        Refused::OutOfMemory
    }
}
