//! Which state a request names.

ghost use Rattle.std.specs.Prelude.{◌≡◌, ℕ, Some, All, take, slice_get};
ghost use Rattle.dcp_types.specs.declared.states.State.TheVariants as states;
ghost use Rattle.master_spec.specs.declared.setups.Script.{Script};
ghost use Rattle.master_spec.specs.Jobs.{Job, asked_by, jobs};
ghost use Rattle.master_log_laws.specs.Bound.Naming.{NamesState, last_target};

/// Each state request of a phase names the target of the last phase before it that has one, and the
/// state of a slave with no session where there is none, as in the first phase.
pub fn last_target_named()
    ensures { (steps runs p : ℕ) (script : Script) (job : Job) → slice_get (jobs steps runs script) p ≡ Some job
        → All (λ r. NamesState (last_target states.Alive (take p (jobs steps runs script))) r) (asked_by job) }
{}
