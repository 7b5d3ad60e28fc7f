//! The call of the command, over its objects.

ghost use Rattle.std.specs.Prelude.{◌≡◌, ◌⊎◌};
ghost use Rattle.dcp_io.specs.Faults.{Rose};
ghost use Rattle.commands.specs.Statuses.{ComesBeforeWriting, ComesWithoutNet};
ghost use Rattle.socket_commands.specs.Bridge.Numbers.{IsBridge};
ghost use Rattle.socket_commands.specs.Bridge.Outcomes.{BridgeOutcome};

use crate::bridge_numbers::named_count;
use crate::bridge_says::say_bridge;
use crate::bridge_stops::Stop;
use commands::{Gathered, LIMIT, Status, Words, read_input, write_text};
use dcp_io::{Sink, Source, write_all};
use dcp_net::{Net, Ready};
use std::alloc::Global;
use std::sync::Wait;

/// Does what the words `bridge N` say, N of one or two digits, 0 to 15: reads the source to its end or to one
/// byte past the limit, and stands a bridge between the scenario's master and first N slaves, which live on UDP,
/// and its other slaves, which live on TCP, with a wait before each round, until a network, a wait or memory
/// fails. Other words are answered by `usage`, and then the source is not read.
pub fn bridge_words<W: Wait, S: Source, K: Sink, U: Net, T: Net, P: Ready>(
    rt: &W,
    alloc: Global,
    words: &Words,
    source: &mut S,
    out: &mut K,
    udp: &mut U,
    tcp: &mut T,
    ready: &mut P,
) -> Status
    ensures outcome { BridgeOutcome words.now
        (record { was = S.left source.old; is = S.left source.new; before = S.faults source.old; now = S.faults source.new })
        (record { was = K.written out.old; is = K.written out.new; before = K.faults out.old; now = K.faults out.new })
        (record {
          udp = record { told = record { calls = U.calls udp.new; opening = U.opening udp.new }; before = U.count udp.old; now = U.count udp.new };
          tcp = record { told = record { calls = T.calls tcp.new; opening = T.opening tcp.new }; before = T.count tcp.old; now = T.count tcp.new };
          ready_before = ready.old;
          ready_now = ready.new;
          waits_before = P.waits ready.old;
          waits_now = P.waits ready.new;
          failed_before = P.count ready.old;
          failed_now = P.count ready.new;
        }) result }
    ensures unread { result ≡ Status.Usage → source.new ≡ source.old }
    ensures unwritten { ComesBeforeWriting result → out.new ≡ out.old }
    ensures uncalled { ComesWithoutNet result → (udp.new ≡ udp.old) × (tcp.new ≡ tcp.old) × (ready.new ≡ ready.old) }
    ensures complete { IsBridge words.now → (Rose (S.faults source.old) (S.faults source.new) → ⊥) → (Rose (U.count udp.old) (U.count udp.new) → ⊥)
        → (Rose (T.count tcp.old) (T.count tcp.new) → ⊥) → (Rose (P.count ready.old) (P.count ready.new) → ⊥) → (result ≡ Status.BadInput) ⊎ (result ≡ Status.OutOfMemory) }
{
    let Some(udp_slaves) = named_count(words.as_slice()) else {
        let _ = write_all(out, b"usage\n");
        return Status::Usage;
    };
    let input = match read_input(alloc, source, LIMIT) {
        Gathered::Bytes(input) => input,
        Gathered::Failed => return Status::ReadFault,
        Gathered::OutOfMemory => return Status::OutOfMemory,
    };
    match say_bridge(rt, alloc, udp_slaves, input.as_slice(), udp, tcp, ready) {
        Ok(said) => {
            let _ = write_text(out, &said.text);
            Status::BadInput
        }
        Err(Stop::Net) => Status::NetFault,
        Err(Stop::OutOfMemory) => Status::OutOfMemory,
    }
}
