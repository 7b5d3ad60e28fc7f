//! What tells a loop that there may be something to take.

ghost use Rattle.std.specs.Prelude.{◌≡◌, ◌+◌, ℕ, Option, None, false, min, if◌then◌else◌};
ghost use Rattle.dcp_net.specs.Nets.{HasCause};
ghost use Rattle.dcp_net.specs.Waits.{TellsWaits, fails_next, waits_told};

use std::marker::Model;

/// What a wait did.
#[derive(Clone, Copy, Debug, PartialEq, Eq)]
pub enum Waited {
    /// A round may be run.
    Ready,
    /// The wait failed, and the count of faults rose.
    Failed,
}

/// What a loop waits on between its rounds. Where it tells them, `waits` is how many waits have answered
/// Ready.
pub trait Ready {
    ghost waits: { Self → Option ℕ };

    /// How often it has failed: it never falls.
    ghost count: { Self → ℕ };

    /// Waits until something may be there to take, or for a while.
    fn wait(&mut self) -> Waited
        ensures waits { TellsWaits (waits self.old) (waits self.new) result }
        ensures cause { HasCause (count self.old) (count self.new) (result ≡ Waited.Failed) };
}

/// No waiting: each wait answers Ready at once. It tells no waits.
#[derive(Clone, Copy, Debug)]
pub struct NoWait;

impl Ready for NoWait {
    ghost waits = { λ s. None };

    ghost count = { λ s. 0 };

    fn wait(&mut self) -> Waited
        ensures waits { Unit {0} }
        ensures cause { HasCause 0 0 (result ≡ Waited.Failed) }
        ensures ready { result ≡ Waited.Ready }
    {
        Waited::Ready
    }
}

/// Waits of which one fails, once.
#[derive(Clone, Copy, Debug)]
pub struct FailingWait {
    nth: u64,
    calls: u64,
    past: bool,
    faults: u64,
}

impl Model for FailingWait {
    ghost use Rattle.std.specs.Prelude.{◌≤◌};
    ghost use Rattle.dcp_net.specs.Waits.{WaitCount};

    ghost Value = { WaitCount };

    ghost view = { λ s. record { nth = s.nth; calls = s.calls; past = s.past; faults = s.faults } };

    ghost inverse = { λ s. record { nth = s.nth; calls = s.calls; past = s.past; faults = s.faults } };

    ghost invariant = { λ s. s.calls ≤ s.nth };
}

impl FailingWait {
    /// The wait with the number `nth`, from 1, fails, and each other one answers Ready at once. It tells
    /// its waits up to the one that fails.
    pub fn new(nth: u64) -> FailingWait
        ensures { result ≡ record { nth = nth; calls = 0; past = false; faults = 0 } }
    {
        FailingWait {
            nth,
            calls: 0,
            past: false,
            faults: 0,
        }
    }
}

impl Ready for FailingWait {
    ghost waits = { waits_told };

    ghost count = { λ s. s.faults };

    fn wait(&mut self) -> Waited
        ensures waits { TellsWaits (waits_told self.old) (waits_told self.new) result }
        ensures cause { HasCause self.old.faults self.new.faults (result ≡ Waited.Failed) }
        ensures fails { result ≡ (if fails_next self.old then Waited.Failed else Waited.Ready) }
        ensures calls { (self.new.nth ≡ self.old.nth) × (self.new.calls ≡ min (self.old.calls + 1) self.old.nth) }
    {
        if self.calls >= self.nth {
            self.past = true;
            return Waited::Ready;
        }
        self.calls += 1;
        if self.calls < self.nth {
            return Waited::Ready;
        }
        self.faults = self.faults.saturating_add(1);
        Waited::Failed
    }
}
