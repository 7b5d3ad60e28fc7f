//! The program over readers and writers of the standard library.

ghost use Rattle.std.specs.Prelude.{◌≡◌, ◌⊎◌, ℕ};
ghost use Rattle.std.specs.Process.{exit_status};
ghost use Rattle.commands.specs.declared.command_words.Command.TheVariants.{Run, Soak};
ghost use Rattle.commands.specs.CommandWords.{Names};
ghost use Rattle.commands.specs.Programs.{ExitsWith, RunsInStep, SoaksInStep};

use crate::top_calls::run_words;
use crate::word_lists::Words;
use dcp_io::{StdSink, StdSource};
use net_world::SureNet;
use std::alloc::Global;
use std::io;
use std::process::ExitCode;

/// How the program ended.
#[derive(Drop)]
pub struct Ended<R, W, E> {
    /// The exit status of the process.
    pub code: ExitCode,
    /// The reader, with what is left of it.
    pub reader: R,
    /// The writer, with what it took.
    pub writer: W,
    /// The writer of the trace, with what it took.
    pub errors: E,
}

/// Does what the words say over a reader, a writer and a writer of the trace, with a network in memory,
/// and gives the exit status. Where they tell their bytes, the clauses of `run_words` hold of these. The
/// network does not fail, and is honest: a run that has its report is in step with the reference, of `run`
/// and of `soak`.
pub fn run_program<R: io::Read + Drop, W: io::Write + Drop, E: io::Write + Drop>(
    alloc: Global,
    words: &Words,
    reader: R,
    writer: W,
    errors: E,
) -> Ended<R, W, E>
    ensures outcome { ExitsWith words.now (R.remaining reader) (R.remaining result.reader) (W.contents writer) (W.contents result.writer)
        (E.contents errors) (E.contents result.errors) (exit_status result.code) }
    ensures unread { exit_status result.code ≡ 1 → result.reader ≡ reader }
    ensures unwritten { (exit_status result.code ≡ 4) ⊎ (exit_status result.code ≡ 7) → (result.writer ≡ writer) × (result.errors ≡ errors) }
    ensures untouched { Names words.now Run ⊎ (result.errors ≡ errors) }
    ensures in_step { Names words.now Run → (exit_status result.code ≡ 0) ⊎ (exit_status result.code ≡ 3)
        → RunsInStep (R.remaining reader) (R.remaining result.reader) (W.contents writer) (W.contents result.writer) (E.contents errors) (E.contents result.errors) (exit_status result.code) }
    ensures soaks_in_step { (number : ℕ) → Names words.now (Soak number) → (exit_status result.code ≡ 0) ⊎ (exit_status result.code ≡ 3)
        → SoaksInStep number (R.remaining reader) (R.remaining result.reader) (W.contents writer) (W.contents result.writer) (E.contents errors) (E.contents result.errors) (exit_status result.code) }
    ensures sure { exit_status result.code ≡ 6 → ⊥ }
{
    let mut source = StdSource::new(reader);
    let mut out = StdSink::new(writer);
    let mut trace = StdSink::new(errors);
    let mut net = SureNet::new(alloc);
    let status = run_words(alloc, words, &mut source, &mut out, &mut trace, &mut net);
    // Its clauses say that what the network gave was sent not long before.
    let _sent = net.sent();
    Ended {
        code: status.exit_code(),
        reader: source.into_inner(),
        writer: out.into_inner(),
        errors: trace.into_inner(),
    }
}
