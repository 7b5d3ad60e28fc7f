//! The ends that the words name.

ghost use Rattle.std.specs.Prelude.{◌≡◌, ◌⊎◌, codes, ◌≤◌, ◌<◌, ◌^◌, ⊤, true, length, map, string_bytes, IfOk, MatchOption};
ghost use Rattle.dcp_types.specs.Names.{is_name};
ghost use Rattle.command_line.specs.Lines.{words_in_line};
ghost use Rattle.socket_commands.specs.Parts.{HasNoPart, IsLive, IsPart, NamesPart, bits_in, hosted_of};

use command_line::CommandLine;
use commands::{Words, slave_named};
use dcp_types::{OutOfMemory, is_name};
use host::Hosted;
use scenario::Scenario;
use std::alloc::Global;

/// The ends of a scenario that one process hosts.
#[derive(Clone, Copy, Debug, PartialEq, Eq)]
pub enum Part {
    /// All of them.
    All,
    /// The master alone.
    Master,
    /// The slave of this number alone, 1 to 16.
    Slave(u8),
}

impl Part {
    /// The ends as a host takes them.
    pub(crate) fn hosted(self) -> Hosted
        requires { IsPart self }
        ensures { result ≡ hosted_of self }
    {
        match self {
            Part::All => Hosted {
                master: true,
                slaves: u16::MAX,
            },
            Part::Master => Hosted {
                master: true,
                slaves: 0,
            },
            Part::Slave(slave) => Hosted {
                master: false,
                slaves: 2u16.pow(u32::from(slave) - 1),
            },
        }
    }

    /// The ends as bits of a trace, in a scenario of so many slaves: bit 0 for the master, and bit s for
    /// slave s.
    pub(crate) fn bits(self, slaves: usize) -> u32
        requires part { IsPart self }
        requires slaves { slaves ≤ 16 }
        ensures bits { result ≡ bits_in self slaves }
        ensures few { result < 2 ^ 17 }
    {
        match self {
            Part::All => 2u32.pow(slaves as u32 + 1) - 1,
            Part::Master => 1,
            Part::Slave(slave) => 2u32.pow(u32::from(slave)),
        }
    }
}

/// Whether this word names a command by itself.
fn is_alone(word: &str) -> bool
    ensures yes { result ≡ true → (word.now ≡ codes "live") ⊎ (word.now ≡ codes "master") }
    ensures no { (word.now ≡ codes "live") ⊎ (word.now ≡ codes "master") → result ≡ true }
{
    word == "live" || word == "master"
}

/// Whether this word stands before a name, and the next one can be a name.
fn is_slave(word: &str, name: &str) -> bool
    ensures yes { result ≡ true → (word.now ≡ codes "slave") × (is_name name.now ≡ true) }
    ensures no { (word.now ≡ codes "slave") × (is_name name.now ≡ true) → result ≡ true }
{
    word == "slave" && is_name(name.as_bytes())
}

/// Whether the words name a command over sockets.
pub fn is_live(words: &[String]) -> bool
    ensures yes { result ≡ true → IsLive (map string_bytes words.now) }
    ensures no { IsLive (map string_bytes words.now) → result ≡ true }
{
    match words {
        [word] => is_alone(word.as_str()),
        [word, name] => is_slave(word.as_str(), name.as_str()),
        _ => false,
    }
}

/// The ends of the scenario that the line names; none where it has no such slave.
pub(crate) fn part_of(line: CommandLine<'_>, scenario: &Scenario) -> Option<Part>
    requires live { IsLive (words_in_line line) }
    requires few { length scenario.now.slaves ≤ 16 }
    ensures part { MatchOption result (HasNoPart (words_in_line line.entry) scenario.now) (NamesPart (words_in_line line.entry) scenario.now) }
    ensures few { MatchOption result ⊤ IsPart }
{
    match line.operand {
        Some(name) => match slave_named(scenario.slaves.as_slice(), name) {
            Some(slave) => Some(Part::Slave(slave)),
            None => None,
        },
        None if line.command == "live" => Some(Part::All),
        None => Some(Part::Master),
    }
}

/// The words as `clap` reads them, which takes memory.
pub(crate) fn line_of_live(alloc: Global, words: &Words) -> Result<CommandLine<'_>, OutOfMemory>
    requires { IsLive words.now }
    ensures { IfOk result (λ line. words_in_line line ≡ words.now) }
{
    match words.line(alloc)? {
        Some(line) => Ok(line),
        None => unreachable!(),
    }
}
