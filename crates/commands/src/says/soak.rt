//! The command `soak`: a run of the scenario of a number over the network.

ghost use Rattle.std.specs.Prelude.{◌≡◌, IfOk, IfErr};
ghost use Rattle.commands.specs.Answers.{GivesAnswer, IsAlone, IsRefusal, IsWritableAnswer};
ghost use Rattle.commands.specs.SaysRun.{StopsRun};
ghost use Rattle.commands.specs.declared.command_words.Command.TheVariants.{Soak};

use crate::answers::{CommandAnswer, Unsaid};
use crate::says::run::say_run;
use dcp_net::Net;
use std::alloc::Global;

/// Runs the number's scenario, whose text is the input, as `run` does.
pub fn say_soak<N: Net>(
    alloc: Global,
    number: u32,
    input: &[u8],
    net: &mut N,
) -> Result<CommandAnswer, Unsaid>
    ensures says { IfOk result (GivesAnswer (Soak number) (record { calls = N.calls net.new; opening = N.opening net.new }) input.now) }
    ensures writable { IfOk result (IsWritableAnswer input.now) }
    ensures alone { IfOk result IsAlone }
    ensures refused { IfOk result (λ answer. IsRefusal answer → net.new ≡ net.old) }
    ensures still { IfOk result (λ answer. N.count net.new ≡ N.count net.old) }
    ensures stopped { IfErr result (StopsRun input.now (N.count net.old) (N.count net.new)) }
{
    match say_run(alloc, input, net)? {
        CommandAnswer::Ran(host) => Ok(CommandAnswer::Soaked { number, host }),
        answer => Ok(answer),
    }
}
