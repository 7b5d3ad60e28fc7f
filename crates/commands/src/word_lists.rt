//! The words of the command line.

ghost use Rattle.std.specs.Prelude.{◌≡◌, ◌++◌, ◌∷◌, [], None, Ok, OnOk, OnErr, IfOk, MatchOption, false, map, string_bytes};
ghost use Rattle.command_line.specs.Lines.{is_line, words_in_line};
ghost use Rattle.commands.specs.CommandWords.{ReadsWords};

use crate::command_words::Command;
use command_line::{CommandLine, read_words};
use dcp_types::OutOfMemory;
use std::alloc::Global;
use std::marker::Model;

/// What words come to.
#[derive(Clone, Copy, Debug, PartialEq, Eq)]
pub enum Named<'a> {
    /// They name this command.
    Command(Command<'a>),
    /// They name none.
    Nothing,
    /// To read them wanted memory.
    OutOfMemory,
}

/// The words after the program's name, in order. Contracts see the list of their texts.
#[derive(Debug, Drop)]
pub struct Words {
    words: Vec<String>,
}

impl Model for Words {
    ghost use Rattle.std.specs.Prelude.{List, ℕ, map, string_bytes};

    ghost Value = { List (List ℕ) };

    ghost view = { λ w. map string_bytes w.words.items };
}

impl Words {
    /// No words. It takes no memory.
    pub fn new(alloc: Global) -> Words
        ensures { result ≡ [] }
    {
        Words {
            words: Vec::new(alloc),
        }
    }

    /// Adds one word at the end; where memory is short, the words stay as they were.
    pub fn push(&mut self, alloc: Global, word: &str) -> Result<(), OutOfMemory>
        ensures added { OnOk result (self.new ≡ self.old ++ word.now ∷ []) }
        ensures kept { OnErr result (self.new ≡ self.old) }
    {
        let Ok(word) = String::from_str(alloc, word) else {
            return Err(OutOfMemory);
        };
        match self.words.push(word) {
            Ok(()) => Ok(()),
            Err(_) => Err(OutOfMemory),
        }
    }

    /// The words in order.
    pub fn as_slice(&self) -> &[String]
        ensures { map string_bytes result.now ≡ self.now }
    {
        self.words.as_slice()
    }

    /// The words as `clap` reads them: a command and its operand. None where there are none or more than two,
    /// or one begins with `-`; then no memory is taken.
    pub fn line(&self, alloc: Global) -> Result<Option<CommandLine<'_>>, OutOfMemory>
        ensures line { IfOk result (λ line. MatchOption line (is_line self.now ≡ false) (λ l. words_in_line l ≡ self.now)) }
        ensures unasked { is_line self.now ≡ false → result ≡ Ok None }
    {
        read_words(alloc, self.words.as_slice())
    }

    /// What the words come to.
    pub fn named(&self, alloc: Global) -> Named<'_>
        ensures { ReadsWords self.now result }
    {
        match self.line(alloc) {
            Ok(Some(line)) => match Command::from_line(line) {
                Some(command) => Named::Command(command),
                None => Named::Nothing,
            },
            Ok(None) => Named::Nothing,
            Err(OutOfMemory) => Named::OutOfMemory,
        }
    }
}
