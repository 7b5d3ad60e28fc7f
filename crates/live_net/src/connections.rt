//! One connection from some sender.

ghost use Rattle.std.specs.Prelude.{◌≡◌, false, not, IfOk};
ghost use Rattle.live_net.specs.Connections.{BringsMessage, HearsNext, heard_from, known_after};

use crate::intakes::{Intake, Taking};
use crate::strangers::is_end_of;
use crate::streams::Stream;
use crate::watches::Watch;
use dcp_types::{Address, OutOfMemory};
use mio::net::TcpStream;
use std::alloc::Global;

/// What a connection answered that was asked for a message.
#[derive(Clone, Copy, Debug, PartialEq, Eq)]
pub(crate) enum Heard {
    /// A message from this end, which `message` then gives.
    Gram { from: Address },
    /// No message is whole now.
    Later,
    /// No message will come.
    Over,
}

/// A connection from some sender.
#[derive(Drop)]
pub(crate) struct Connection {
    intake: Intake<Stream<TcpStream>>,
    is_known: bool,
}

impl Connection {
    /// A connection that has brought no message.
    pub(crate) fn new(alloc: Global, stream: TcpStream) -> Result<Connection, OutOfMemory>
        ensures stream { IfOk result (λ made. made.intake.source.inner ≡ stream) }
        ensures unknown { IfOk result (λ made. made.is_known ≡ false) }
    {
        let intake = Intake::new(alloc, Stream::new(stream))?;
        Ok(Connection {
            intake,
            is_known: false,
        })
    }

    /// Whether it has brought no message from one of the ends.
    pub(crate) fn is_unknown(&self) -> bool
        ensures { result ≡ not self.now.is_known }
    {
        !self.is_known
    }

    /// Asks for the next message. `all` are the ends: one that brings a message from somebody else is over,
    /// and one that is known for the first time wakes waits from then on.
    pub(crate) fn hear(&mut self, watch: &Watch, all: &[Address]) -> Heard
        ensures hears { HearsNext self.old self.new all.now result }
        ensures message { BringsMessage all.now result self.new.intake.inlet }
    {
        let taking = self.intake.next();
        let is_known = is_known_after(self.is_known, all, taking);
        if is_known && self.is_unknown() {
            watch.let_wake(self.intake.source().inner());
        }
        self.is_known = is_known;
        heard_of(all, taking, self.intake.source().is_over())
    }

    /// The last message, or nothing before the first.
    pub(crate) fn message(&self) -> &[u8]
        ensures { result.now ≡ self.now.intake.inlet.reader.last }
    {
        self.intake.gram()
    }
}

/// Whether a connection is known after this answer: it stays known, and becomes so by a message from one of
/// the ends.
fn is_known_after(is_known: bool, all: &[Address], taking: Taking) -> bool
    ensures { result ≡ known_after is_known all.now taking }
{
    match taking {
        Taking::Gram { from } => is_known || is_end_of(all, from),
        Taking::NotYet | Taking::Bad => is_known,
    }
}

/// What a connection answered whose stream is over or not. A stranger has no message.
fn heard_of(all: &[Address], taking: Taking, is_over: bool) -> Heard
    ensures { result ≡ heard_from all.now taking is_over }
{
    match taking {
        Taking::Gram { from } if is_end_of(all, from) => Heard::Gram { from },
        Taking::NotYet if !is_over => Heard::Later,
        Taking::Gram { from: _ } | Taking::NotYet | Taking::Bad => Heard::Over,
    }
}
