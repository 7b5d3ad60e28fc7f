//! What the command makes of a text.

ghost use Rattle.std.specs.Prelude.{◌≡◌, IfOk, IfErr};
ghost use Rattle.socket_commands.specs.Bridge.Says.{RefusesBridge, StopsBridge};

use crate::bridge_standing::stand;
use crate::bridge_stops::Stop;
use commands::{LIMIT, Statement, refuse_line, refuse_past_limit, refuse_text};
use dcp_net::{Net, Ready};
use scenario_text::read_scenario;
use std::alloc::Global;
use std::sync::Wait;

/// Says why the text is refused, or stands a bridge for its scenario, of which so many slaves live on UDP, until a
/// network, a wait or memory fails. Nothing is called for a text that is refused.
pub(crate) fn say_bridge<W: Wait, U: Net, T: Net, P: Ready>(
    rt: &W,
    alloc: Global,
    udp_slaves: u8,
    input: &[u8],
    udp: &mut U,
    tcp: &mut T,
    ready: &mut P,
) -> Result<Statement, Stop>
    ensures refused { IfOk result (RefusesBridge udp_slaves input.now) }
    ensures uncalled { IfOk result (λ said. (udp.new ≡ udp.old) × (tcp.new ≡ tcp.old) × (ready.new ≡ ready.old)) }
    ensures stopped { IfErr result (StopsBridge udp_slaves input.now (record {
      udp = record { told = record { calls = U.calls udp.new; opening = U.opening udp.new }; before = U.count udp.old; now = U.count udp.new };
      tcp = record { told = record { calls = T.calls tcp.new; opening = T.opening tcp.new }; before = T.count tcp.old; now = T.count tcp.new };
      ready_before = ready.old;
      ready_now = ready.new;
      waits_before = P.waits ready.old;
      waits_now = P.waits ready.new;
      failed_before = P.count ready.old;
      failed_now = P.count ready.new;
    })) }
{
    if input.len() > LIMIT {
        return Ok(refuse_past_limit());
    }
    let scenario = match read_scenario(alloc, input) {
        Ok(scenario) => scenario,
        Err(refused) => return Ok(refuse_text(alloc, refused)?),
    };
    if usize::from(udp_slaves) >= scenario.slaves.as_slice().len() {
        return Ok(refuse_line(alloc, 0, "LIMIT")?);
    }
    Err(stand(rt, alloc, &scenario, udp_slaves, udp, tcp, ready))
}
