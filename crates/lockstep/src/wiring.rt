//! Which output each input reads, looked up once before the first step.

ghost use Rattle.std.specs.Prelude.{◌≡◌, ◌==◌, ◌<◌, ◌≤◌, ◌-◌, ◌%◌, ◌^◌, length, map, All, OnOk, IfOk};
ghost use Rattle.std.specs.Option.{ForSome};
ghost use Rattle.scenario.specs.Totals.{total_outputs};
ghost use Rattle.scenario.specs.Sound.{IsWire, IsScenario};
ghost use Rattle.scenario.specs.Wiring.{wire_into, interval};
ghost use Rattle.lockstep.specs.Feeds.{feed_of, feeds_of, fed, IsFeed};

use crate::tables::Table;
use dcp_types::OutOfMemory;
use scenario::{Scenario, Wire, interval, total_outputs, wire_into};
use slave_desc::SlaveDesc;
use std::alloc::Global;

/// The output that an input reads.
#[derive(Clone, Copy, Debug)]
pub(crate) struct Feed {
    /// Where the output stands in a row.
    pub column: usize,
    /// The steps from one renewal to the next, at least 1.
    pub interval: u32,
}

/// The steps since what is sent at each `interval`-th step was renewed.
fn age(step: u32, interval: u32) -> u32
    requires { 0 < interval }
    ensures { result ≡ step % interval }
{
    if interval == 1 { 0 } else { step % interval }
}

/// What an input reads at a step whose row stands at `now`. Without a wire it is 0.
fn fed(feed: Option<Feed>, rows: &Table, now: usize, step: u32) -> i128
    requires feed { IsFeed rows.now.width feed }
    requires there { now < length rows.now.rows }
    requires step { step ≤ now }
    ensures { result ≡ fed rows.now.rows (now - step) step feed }
{
    match feed {
        None => 0,
        Some(feed) => rows.value(now - age(step, feed.interval) as usize, feed.column),
    }
}

/// Puts what the inputs read into the buffer, in the place of what it held.
pub(crate) fn gather(
    feeds: &[Option<Feed>],
    rows: &Table,
    now: usize,
    step: u32,
    inputs: &mut Vec<i128>,
) -> Result<(), OutOfMemory>
    requires feeds { All (IsFeed rows.now.width) feeds.now }
    requires there { now < length rows.now.rows }
    requires step { step ≤ now }
    ensures { OnOk result (inputs.new.items ≡ map (fed rows.now.rows (now - step) step) feeds.now) }
{
    inputs.clear();
    for feed in feeds {
        inputs.push(fed(*feed, rows, now, step))?;
    }
    Ok(())
}

fn feed_of(scenario: &Scenario, wire: Option<Wire>) -> Option<Feed>
    requires wire { ForSome wire (λ w. IsWire scenario.now.slaves w) }
    requires few { total_outputs scenario.now.slaves ≤ 1000000 }
    ensures { result ≡ feed_of scenario.now wire }
{
    match wire {
        None => None,
        Some(wire) => {
            let before = &scenario.slaves.as_slice()[..usize::from(wire.from) - 1];
            let column = total_outputs(before) as usize + usize::from(wire.out);
            let interval = interval(scenario.every.as_slice(), wire.from, wire.to);
            Some(Feed { column, interval })
        }
    }
}

/// What each of so many inputs of a slave reads.
pub(crate) fn feeds_of(
    alloc: Global,
    scenario: &Scenario,
    slave: u8,
    inputs: usize,
) -> Result<Vec<Option<Feed>>, OutOfMemory>
    requires { IsScenario scenario.now }
    ensures { IfOk result (λ feeds. feeds.items ≡ feeds_of scenario.now slave inputs) }
{
    let wires = scenario.wires.as_slice();
    let mut feeds = Vec::with_capacity(alloc, inputs)?;
    for input in 0..inputs {
        feeds.push(feed_of(scenario, wire_into(wires, slave, input)))?;
    }
    Ok(feeds)
}
