//! The command `run`: a run of a scenario over the network.

ghost use Rattle.std.specs.Prelude.{◌≡◌, IfOk, IfErr};
ghost use Rattle.commands.specs.Answers.{GivesAnswer, IsRefusal, IsWritableAnswer, RanOrRefused};
ghost use Rattle.commands.specs.SaysRun.{StopsRun};
ghost use Rattle.commands.specs.declared.command_words.Command.TheVariants.{Run};

use crate::answers::{CommandAnswer, Unsaid};
use crate::externals::refuse_external;
use crate::inputs::LIMIT;
use crate::refusals::{refuse_past_limit, refuse_text};
use dcp_net::Net;
use host::{ALL_ENDS, HostFault, Stopped, external_in, run_scenario};
use scenario_text::read_scenario;
use std::alloc::Global;

/// Runs the scenario with all its ends over the network until the master reports, or gives the first line
/// of the text that is refused. The network is not called for a text that is refused.
pub fn say_run<N: Net>(alloc: Global, input: &[u8], net: &mut N) -> Result<CommandAnswer, Unsaid>
    ensures says { IfOk result (GivesAnswer Run (record { calls = N.calls net.new; opening = N.opening net.new }) input.now) }
    ensures writable { IfOk result (IsWritableAnswer input.now) }
    ensures ran { IfOk result RanOrRefused }
    ensures refused { IfOk result (λ answer. IsRefusal answer → net.new ≡ net.old) }
    ensures still { IfOk result (λ answer. N.count net.new ≡ N.count net.old) }
    ensures stopped { IfErr result (StopsRun input.now (N.count net.old) (N.count net.new)) }
{
    if input.len() > LIMIT {
        return Ok(CommandAnswer::Said(refuse_past_limit()));
    }
    let scenario = match read_scenario(alloc, input) {
        Ok(scenario) => scenario,
        Err(refused) => return Ok(CommandAnswer::Said(refuse_text(alloc, refused)?)),
    };
    if let Some(slave) = external_in(&scenario, ALL_ENDS) {
        return Ok(CommandAnswer::Said(refuse_external(alloc, input, slave)?));
    }
    match run_scenario(alloc, scenario, net) {
        Ok(host) => Ok(CommandAnswer::Ran(host)),
        Err(Stopped::Unmade) => Err(Unsaid::OutOfMemory),
        Err(Stopped::Faulted(host)) => match host.fault() {
            Some(HostFault::Net { .. }) => Err(Unsaid::NetFault),
            _ => Err(Unsaid::OutOfMemory),
        },
    }
}
