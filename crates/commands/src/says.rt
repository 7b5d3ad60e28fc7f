//! What each command says of an input.

ghost use Rattle.std.specs.Prelude.{◌≡◌, ◌≢◌, ◌⊎◌, None, IfErr, IfOk};
ghost use Rattle.commands.specs.Answers.{GivesAnswer, IsRefusal, IsAlone, IsWritableAnswer};
ghost use Rattle.commands.specs.CommandWords.{own_number};
ghost use Rattle.commands.specs.Says.{Stops};

mod conformance;
mod decode;
mod describe;
mod encode;
mod reference;
mod replay;
mod run;
mod soak;
mod talk;
mod traces;

use crate::answers::{CommandAnswer, Unsaid};
use crate::command_words::Command;
use dcp_net::Net;
use std::alloc::Global;

/// What the command says of an input that was read. Only `run` and `soak` call the network, and only
/// where their text reads.
pub fn say<N: Net>(
    alloc: Global,
    command: Command<'_>,
    input: &[u8],
    net: &mut N,
) -> Result<CommandAnswer, Unsaid>
    ensures says { IfOk result (GivesAnswer command.entry (record { calls = N.calls net.new; opening = N.opening net.new }) input.now) }
    ensures writable { IfOk result (IsWritableAnswer input.now) }
    ensures refused { IfOk result (λ answer. IsRefusal answer → net.new ≡ net.old) }
    ensures still { IfOk result (λ answer. N.count net.new ≡ N.count net.old) }
    ensures stopped { IfErr result (Stops command.entry input.now (N.count net.old) (N.count net.new)) }
    ensures alone { (command.entry ≡ Command.Run) ⊎ IfOk result IsAlone }
    ensures uncalled { (command.entry ≡ Command.Run) ⊎ ((own_number command.entry ≢ None) ⊎ (net.new ≡ net.old)) }
{
    match command {
        Command::Decode => Ok(CommandAnswer::Said(decode::say_decoded(alloc, input)?)),
        Command::Encode => Ok(CommandAnswer::Said(encode::say_encoded(alloc, input)?)),
        Command::Describe => Ok(CommandAnswer::Said(describe::say_described(alloc, input)?)),
        Command::Reference => Ok(CommandAnswer::Said(reference::say_reference(alloc, input)?)),
        Command::Talk => Ok(CommandAnswer::Said(talk::say_talk(alloc, input)?)),
        Command::Run => run::say_run(alloc, input, net),
        Command::Replay => Ok(replay::say_replay(alloc, input)?),
        Command::Soak(number) => soak::say_soak(alloc, number, input, net),
        Command::Conform(name) => Ok(CommandAnswer::Said(conformance::say_conform(
            alloc, name, input,
        )?)),
    }
}
