//! The call of the program over its objects.

ghost use Rattle.std.specs.Prelude.{◌≡◌, ◌⊎◌, ℕ};
ghost use Rattle.dcp_io.specs.Faults.{Rose};
ghost use Rattle.commands.specs.Outcomes.{IsFree, Outcome};
ghost use Rattle.commands.specs.Statuses.{ComesBeforeWriting, ComesWithoutNet};
ghost use Rattle.commands.specs.declared.command_words.Command.TheVariants.{Run, Soak};
ghost use Rattle.commands.specs.CommandWords.{IsCommand, Names, NamesRun};

use crate::answers::{Unsaid, deliver};
use crate::inputs::{Gathered, input_for};
use crate::says::say;
use crate::statuses::Status;
use crate::word_lists::{Named, Words};
use dcp_io::{Sink, Source, write_all};
use dcp_net::Net;
use std::alloc::Global;

/// Does what the words say: reads the source to its end or to one byte past the limit, judges the
/// input, runs it over the network where the words say so, and writes the result and then the trace. The
/// first failure in this order decides the status. Words that name no command are answered by `usage`, and
/// then the source is not read; nor is it for `soak`, which makes its input.
pub fn run_words<S: Source, K: Sink, R: Sink, N: Net>(
    alloc: Global,
    words: &Words,
    source: &mut S,
    out: &mut K,
    trace: &mut R,
    net: &mut N,
) -> Status
    ensures outcome { Outcome words.now
        (record { was = S.left source.old; is = S.left source.new; before = S.faults source.old; now = S.faults source.new })
        (record { was = K.written out.old; is = K.written out.new; before = K.faults out.old; now = K.faults out.new })
        (record { was = R.written trace.old; is = R.written trace.new; before = R.faults trace.old; now = R.faults trace.new })
        (record { told = record { calls = N.calls net.new; opening = N.opening net.new }; before = N.count net.old; now = N.count net.new }) result }
    ensures unread { result ≡ Status.Usage → source.new ≡ source.old }
    ensures made { (number : ℕ) → Names words.now (Soak number) → source.new ≡ source.old }
    ensures unwritten { ComesBeforeWriting result → (out.new ≡ out.old) × (trace.new ≡ trace.old) }
    ensures uncalled { ComesWithoutNet result → net.new ≡ net.old }
    ensures untouched { Names words.now Run ⊎ (trace.new ≡ trace.old) }
    ensures idle { NamesRun words.now ⊎ (net.new ≡ net.old) }
    ensures complete { IsCommand words.now → (Rose (S.faults source.old) (S.faults source.new) → ⊥) → (Rose (K.faults out.old) (K.faults out.new) → ⊥)
        → (Rose (R.faults trace.old) (R.faults trace.new) → ⊥) → (Rose (N.count net.old) (N.count net.new) → ⊥) → IsFree result }
{
    let command = match words.named(alloc) {
        Named::Command(command) => command,
        Named::Nothing => {
            let _ = write_all(out, b"usage\n");
            return Status::Usage;
        }
        Named::OutOfMemory => return Status::OutOfMemory,
    };
    let input = match input_for(alloc, command, source) {
        Gathered::Bytes(input) => input,
        Gathered::Failed => return Status::ReadFault,
        Gathered::OutOfMemory => return Status::OutOfMemory,
    };
    match say(alloc, command, input.as_slice(), net) {
        Ok(answer) => deliver(out, trace, answer, input.as_slice()),
        Err(Unsaid::NetFault) => Status::NetFault,
        Err(Unsaid::OutOfMemory) => Status::OutOfMemory,
    }
}
