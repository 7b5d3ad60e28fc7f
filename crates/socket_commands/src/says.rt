//! What a command over sockets says of a text.

ghost use Rattle.std.specs.Prelude.{◌≡◌, IfOk, IfErr};
ghost use Rattle.command_line.specs.Lines.{words_in_line};
ghost use Rattle.socket_commands.specs.Answers.{GivesLive, IsLiveRefusal, IsWritableLive};
ghost use Rattle.socket_commands.specs.Parts.{IsLive};
ghost use Rattle.socket_commands.specs.Stops.{StopsLive};

use crate::answers::LiveAnswer;
use crate::endings::ended;
use crate::hosting::{LiveFault, host_part};
use crate::parts::part_of;
use command_line::CommandLine;
use commands::{LIMIT, refuse_external, refuse_line, refuse_past_limit, refuse_text};
use dcp_net::{Net, Ready};
use host::external_in;
use scenario_text::read_scenario;
use std::alloc::Global;
use std::sync::Wait;

/// Runs the ends of the scenario that the line names until they are done, or says why the text is refused.
/// Neither the network nor a wait is called for a text that is refused.
pub(crate) fn say_live<W: Wait, N: Net, P: Ready>(
    rt: &W,
    alloc: Global,
    line: CommandLine<'_>,
    input: &[u8],
    net: &mut N,
    ready: &mut P,
) -> Result<LiveAnswer, LiveFault>
    requires { IsLive (words_in_line line) }
    ensures says { IfOk result (GivesLive (words_in_line line.entry) (record {
      told = record { calls = N.calls net.new; opening = N.opening net.new };
      before = N.count net.old;
      now = N.count net.new;
      waits_before = P.waits ready.old;
      waits_now = P.waits ready.new;
      failed_before = P.count ready.old;
      failed_now = P.count ready.new;
    }) input.now) }
    ensures writable { IfOk result (IsWritableLive input.now) }
    ensures refused { IfOk result (λ answer. IsLiveRefusal answer → (net.new ≡ net.old) × (ready.new ≡ ready.old)) }
    ensures still { IfOk result (λ answer. (N.count net.new ≡ N.count net.old) × (P.count ready.new ≡ P.count ready.old)) }
    ensures stopped { IfErr result (StopsLive input.now (N.count net.old) (N.count net.new) (P.count ready.old) (P.count ready.new)) }
{
    if input.len() > LIMIT {
        return Ok(LiveAnswer::Refused(refuse_past_limit()));
    }
    let scenario = match read_scenario(alloc, input) {
        Ok(scenario) => scenario,
        Err(refused) => return Ok(LiveAnswer::Refused(refuse_text(alloc, refused)?)),
    };
    let Some(part) = part_of(line, &scenario) else {
        return Ok(LiveAnswer::Refused(refuse_line(alloc, 0, "UNKNOWN_SLAVE")?));
    };
    if let Some(slave) = external_in(&scenario, part.hosted()) {
        return Ok(LiveAnswer::Refused(refuse_external(alloc, input, slave)?));
    }
    let host = host_part(rt, alloc, scenario, part, net, ready)?;
    Ok(LiveAnswer::Ran(ended(alloc, part, host)?))
}
