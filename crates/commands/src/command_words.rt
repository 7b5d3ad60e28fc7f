//! The commands by their words.

ghost use Rattle.std.specs.Prelude.{◌≡◌, ◌∷◌, [], ℕ, MatchOption};
ghost use Rattle.command_line.specs.Lines.{words_in_line};
ghost use Rattle.commands.specs.CommandWords.{IsCommand, IsSoakNumber, Names, own_number};
ghost use Rattle.commands.specs.Limits.{limit_of};

use crate::inputs::{LIMIT, TRACE_LIMIT};
use command_line::CommandLine;
use dcp_types::is_name;
use text_lines::number_from;

/// The most digits of the number of `soak`.
const SOAK_DIGITS: usize = 6;

/// What the program can be asked for.
#[derive(Clone, Copy, Debug, PartialEq, Eq)]
pub enum Command<'a> {
    /// Prints the message whose bytes are the input.
    Decode,
    /// Writes the bytes of the message whose line is the input.
    Encode,
    /// Prints the canonical text of a description.
    Describe,
    /// Prints what a correct run of a scenario prints.
    Reference,
    /// Prints what one slave says to the events of a talk.
    Talk,
    /// Runs a scenario over the network, and prints its rows and its report.
    Run,
    /// Goes through the trace of a run again, and prints the rows and the report that it goes to.
    Replay,
    /// Runs the scenario of this number over the network, and prints its report and the sum of its rows.
    Soak(u32),
    /// Checks what a trace has of the slave of this name, whose model need not be the scenario's.
    Conform(&'a str),
}

impl<'a> Command<'a> {
    /// The command that this line names; none where it names none.
    pub fn from_line(line: CommandLine<'a>) -> Option<Command<'a>>
        ensures { MatchOption result (IsCommand (words_in_line line.entry) → ⊥) (Names (words_in_line line.entry)) }
    {
        match line.operand {
            None => Command::from_word(line.command),
            Some(operand) => Command::from_two_words(line.command, operand),
        }
    }

    /// The command that is named by this word alone; none where there is none.
    fn from_word(word: &str) -> Option<Command<'a>>
        ensures { MatchOption result (IsCommand (word.now ∷ []) → ⊥) (Names (word.now ∷ [])) }
    {
        if word == "decode" {
            return Some(Command::Decode);
        }
        if word == "encode" {
            return Some(Command::Encode);
        }
        if word == "describe" {
            return Some(Command::Describe);
        }
        if word == "reference" {
            return Some(Command::Reference);
        }
        if word == "talk" {
            return Some(Command::Talk);
        }
        if word == "run" {
            return Some(Command::Run);
        }
        if word == "replay" {
            return Some(Command::Replay);
        }
        None
    }

    /// The command that is named by these two words; none where there is none.
    fn from_two_words(word: &str, operand: &'a str) -> Option<Command<'a>>
        ensures { MatchOption result (IsCommand (word.now ∷ operand.now ∷ []) → ⊥) (Names (word.now ∷ operand.now ∷ [])) }
    {
        if word == "soak" {
            return match soak_number(operand) {
                Some(number) => Some(Command::Soak(number)),
                None => None,
            };
        }
        if word == "conform" && is_name(operand.as_bytes()) {
            return Some(Command::Conform(operand));
        }
        None
    }

    /// The number of the scenario that the command makes by itself, and does not read.
    pub fn own_number(self) -> Option<u32>
        ensures { result ≡ own_number self.entry }
    {
        match self {
            Command::Soak(number) => Some(number),
            _ => None,
        }
    }

    /// The most bytes of its input: a trace is longer than a text.
    pub fn limit(self) -> usize
        ensures { result ≡ limit_of self.entry }
    {
        match self {
            Command::Replay | Command::Conform(_) => TRACE_LIMIT,
            _ => LIMIT,
        }
    }
}

/// A number of one to six decimal digits; none for any other word.
fn soak_number(word: &str) -> Option<u32>
    ensures { MatchOption result ((number : ℕ) → IsSoakNumber word.now number → ⊥) (IsSoakNumber word.now) }
{
    let digits = word.as_bytes();
    if digits.len() > SOAK_DIGITS {
        return None;
    }
    match number_from(0, 999_999, digits) {
        Ok(number) => Some(number as u32),
        Err(_) => None,
    }
}
