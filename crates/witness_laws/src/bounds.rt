//! How many turns a run takes at most.

ghost use Rattle.master_spec.specs.Bound.{bound, longest_lists};
ghost use Rattle.witness_laws.specs.Shown.Ends.{single};
ghost use Rattle.witness_laws.specs.Shown.Long.{three_runs};
ghost use Rattle.std.specs.Prelude.{◌≡◌};

/// With one run of one step, one request of setup, and all limits at 1 but for 2 sendings and 2 tries:
/// `(1 + 1 + 10) x 2 x (5 x 2 + 4 + 8)`.
pub fn small_bound()
    ensures { bound (single 1) ≡ 528 }
{}

/// With three runs of two steps and the usual limits. The longest lists are 3 before the first run, 2 before
/// the second and 4 before the third, which are not all of one slave:
/// `(1 + 9 + 3 x 12) x 3 x (5 x 200 + 200 + 3 x 20 + 8)`.
pub fn usual_bound()
    ensures lists { longest_lists three_runs ≡ 9 }
    ensures turns { bound three_runs ≡ 174_984 }
{}
