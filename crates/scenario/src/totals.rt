//! Limits on how much a scenario computes.

ghost use Rattle.std.specs.Prelude.{◌≡◌, ◌≤◌, ◌<◌, ◌*◌, ◌+◌, ◌^◌, nat_lt, length};
ghost use Rattle.scenario.specs.Totals.{total_outputs, is_too_much};

use slave_desc::SlaveDesc;

/// The steps that all slaves take over all runs.
const MOST_STEPS: u128 = 200_000;

/// The values of all rows over all runs.
const MOST_VALUES: u128 = 1_000_000;

/// The outputs of all slaves.
pub fn total_outputs(slaves: &[SlaveDesc]) -> u128
    requires { length slaves.now ≤ 16 }
    ensures value { result ≡ total_outputs slaves.now }
    ensures small { result < 2 ^ 68 }
{
    let mut total: u128 = 0;
    for slave in slaves {
        total += slave.outputs.as_slice().len() as u128;
    }
    total
}

/// Whether so many, over so many turns of a step or a row, are above a limit.
fn exceeds(count: u128, turns: u64, limit: u128) -> bool
    requires { limit < 2 ^ 64 }
    ensures { result ≡ nat_lt limit (count * turns) }
{
    if turns == 0 {
        return false;
    }
    if count > limit {
        return true;
    }
    count * turns as u128 > limit
}

/// Whether slaves x steps x runs or outputs x (steps + 1) x runs is above its limit.
pub fn is_too_much(slaves: &[SlaveDesc], steps: u32, runs: u32) -> bool
    requires { length slaves.now ≤ 16 }
    ensures { result ≡ is_too_much slaves.now steps runs }
{
    let steps = steps as u64;
    let runs = runs as u64;
    exceeds(slaves.len() as u128, steps * runs, MOST_STEPS)
        || exceeds(total_outputs(slaves), (steps + 1) * runs, MOST_VALUES)
}
