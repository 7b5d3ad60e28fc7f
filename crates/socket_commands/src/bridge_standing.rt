//! A bridge that stands, in rounds with a wait before each.

ghost use Rattle.std.specs.Prelude.{◌≡◌, ◌<◌, None, length, IsTrue};
ghost use Rattle.socket_commands.specs.Bridge.Standing.{HasStood, StopCause, StoodOn};

use crate::bridge_stops::{Stop, stop_of};
use bridge::Bridge;
use dcp_net::{Net, Ready, Waited};
use scenario::Scenario;
use std::alloc::Global;
use std::sync::Wait;

/// Waits and runs a round, again and again, until one of them fails.
fn stand_on<W: Wait, U: Net, T: Net, P: Ready>(
    rt: &W,
    bridge: &mut Bridge,
    udp: &mut U,
    tcp: &mut T,
    ready: &mut P,
) -> Stop
    requires unfaulted { bridge.old.fault ≡ None }
    requires udp_open { IsTrue (U.is_open udp.old) }
    requires tcp_open { IsTrue (T.is_open tcp.old) }
    ensures stood { StoodOn U.calls T.calls (P.waits ready.old) (P.waits ready.new) bridge.old bridge.new udp.old udp.new tcp.old tcp.new }
    ensures opening { (U.opening udp.new ≡ U.opening udp.old) × (T.opening tcp.new ≡ T.opening tcp.old) }
    ensures cause { StopCause (record {
      udp = record { told = record { calls = U.calls udp.new; opening = U.opening udp.new }; before = U.count udp.old; now = U.count udp.new };
      tcp = record { told = record { calls = T.calls tcp.new; opening = T.opening tcp.new }; before = T.count tcp.old; now = T.count tcp.new };
      ready_before = ready.old;
      ready_now = ready.new;
      waits_before = P.waits ready.old;
      waits_now = P.waits ready.new;
      failed_before = P.count ready.old;
      failed_now = P.count ready.new;
    }) result }
{
    'rounds: for _ in rt.forever() {
        match ready.wait() {
            Waited::Ready => {}
            Waited::Failed => return Stop::Net,
        }
        match bridge.round(udp, tcp) {
            Ok(_) => {}
            Err(fault) => return stop_of(fault),
        }
    }
    unreachable!()
}

/// Stands a bridge between the networks for the scenario, of which so many slaves live on UDP.
pub(crate) fn stand<W: Wait, U: Net, T: Net, P: Ready>(
    rt: &W,
    alloc: Global,
    scenario: &Scenario,
    udp_slaves: u8,
    udp: &mut U,
    tcp: &mut T,
    ready: &mut P,
) -> Stop
    requires { udp_slaves < length scenario.now.slaves }
    ensures stood { HasStood scenario.now udp_slaves (record {
      udp = record { told = record { calls = U.calls udp.new; opening = U.opening udp.new }; before = U.count udp.old; now = U.count udp.new };
      tcp = record { told = record { calls = T.calls tcp.new; opening = T.opening tcp.new }; before = T.count tcp.old; now = T.count tcp.new };
      ready_before = ready.old;
      ready_now = ready.new;
      waits_before = P.waits ready.old;
      waits_now = P.waits ready.new;
      failed_before = P.count ready.old;
      failed_now = P.count ready.new;
    }) }
    ensures cause { StopCause (record {
      udp = record { told = record { calls = U.calls udp.new; opening = U.opening udp.new }; before = U.count udp.old; now = U.count udp.new };
      tcp = record { told = record { calls = T.calls tcp.new; opening = T.opening tcp.new }; before = T.count tcp.old; now = T.count tcp.new };
      ready_before = ready.old;
      ready_now = ready.new;
      waits_before = P.waits ready.old;
      waits_now = P.waits ready.new;
      failed_before = P.count ready.old;
      failed_now = P.count ready.new;
    }) result }
{
    let Ok(mut bridge) = Bridge::new(alloc, scenario, udp_slaves) else {
        return Stop::OutOfMemory;
    };
    if let Err(fault) = bridge.begin(udp, tcp) {
        return stop_of(fault);
    }
    stand_on(rt, &mut bridge, udp, tcp, ready)
}
