//! The call over sockets, over its objects.

ghost use Rattle.std.specs.Prelude.{◌≡◌};
ghost use Rattle.dcp_io.specs.Faults.{Rose};
ghost use Rattle.commands.specs.Outcomes.{IsFree};
ghost use Rattle.commands.specs.Statuses.{ComesBeforeWriting, ComesWithoutNet};
ghost use Rattle.socket_commands.specs.Outcomes.{Outcome};
ghost use Rattle.socket_commands.specs.Parts.{IsLive};

use crate::answers::deliver;
use crate::hosting::LiveFault;
use crate::parts::{is_live, line_of_live};
use crate::says::say_live;
use commands::{Gathered, LIMIT, Status, Words, read_input};
use dcp_io::{Sink, Source, write_all};
use dcp_net::{Net, Ready};
use std::alloc::Global;
use std::sync::Wait;

/// Does what the words `live`, `master` or `slave NAME` say: reads the source to its end or to one byte
/// past the limit, hosts all ends of the scenario, its master or the slave of this name, waits and runs a
/// round until they are done, and writes the result and then the trace. The first failure in this order
/// decides the status; a wait that failed is a fault of the network. Other words are answered by `usage`,
/// and then the source is not read.
pub fn live_words<W: Wait, S: Source, K: Sink, R: Sink, N: Net, P: Ready>(
    rt: &W,
    alloc: Global,
    words: &Words,
    source: &mut S,
    out: &mut K,
    trace: &mut R,
    net: &mut N,
    ready: &mut P,
) -> Status
    ensures outcome { Outcome words.now
        (record { was = S.left source.old; is = S.left source.new; before = S.faults source.old; now = S.faults source.new })
        (record { was = K.written out.old; is = K.written out.new; before = K.faults out.old; now = K.faults out.new })
        (record { was = R.written trace.old; is = R.written trace.new; before = R.faults trace.old; now = R.faults trace.new })
        (record {
          told = record { calls = N.calls net.new; opening = N.opening net.new };
          before = N.count net.old;
          now = N.count net.new;
          waits_before = P.waits ready.old;
          waits_now = P.waits ready.new;
          failed_before = P.count ready.old;
          failed_now = P.count ready.new;
        }) result }
    ensures unread { result ≡ Status.Usage → source.new ≡ source.old }
    ensures unwritten { ComesBeforeWriting result → (out.new ≡ out.old) × (trace.new ≡ trace.old) }
    ensures uncalled { ComesWithoutNet result → (net.new ≡ net.old) × (ready.new ≡ ready.old) }
    ensures complete { IsLive words.now → (Rose (S.faults source.old) (S.faults source.new) → ⊥) → (Rose (K.faults out.old) (K.faults out.new) → ⊥)
        → (Rose (R.faults trace.old) (R.faults trace.new) → ⊥) → (Rose (N.count net.old) (N.count net.new) → ⊥) → (Rose (P.count ready.old) (P.count ready.new) → ⊥) → IsFree result }
{
    if !is_live(words.as_slice()) {
        let _ = write_all(out, b"usage\n");
        return Status::Usage;
    }
    let Ok(line) = line_of_live(alloc, words) else {
        return Status::OutOfMemory;
    };
    let input = match read_input(alloc, source, LIMIT) {
        Gathered::Bytes(input) => input,
        Gathered::Failed => return Status::ReadFault,
        Gathered::OutOfMemory => return Status::OutOfMemory,
    };
    match say_live(rt, alloc, line, input.as_slice(), net, ready) {
        Ok(answer) => deliver(out, trace, answer, input.as_slice()),
        Err(LiveFault::Net) => Status::NetFault,
        Err(LiveFault::Wait) => Status::NetFault,
        Err(LiveFault::OutOfMemory) => Status::OutOfMemory,
    }
}
