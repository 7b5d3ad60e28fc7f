//! A command and its operand.

ghost use Rattle.std.specs.Prelude.{◌≡◌, false, true, IfErr, IfOk, IfSome, MatchOption, None, Ok, codes, map, option_map, slice_get, string_bytes};
ghost use Rattle.clap.specs.Words.{first_value, found_of, kind_of};
ghost use Rattle.command_line.specs.Lines.{is_line, is_option, words_in_line};

use clap::error::ErrorKind;
use clap::{Arg, ArgMatches, Command, Error};
use dcp_types::OutOfMemory;
use std::alloc::Global;

/// The words of a command line: a command's word, and what stands behind it.
#[derive(Clone, Copy, Debug)]
pub struct CommandLine<'a> {
    /// The first word.
    pub command: &'a str,
    /// The second word, where there is one.
    pub operand: Option<&'a str>,
}

/// Whether the word begins with `-`.
fn is_option(word: &str) -> bool
    ensures { result ≡ is_option word.now }
{
    word.starts_with('-')
}

/// Whether these are one or two words, none of which begins with `-`.
fn is_line(words: &[String]) -> bool
    ensures { result ≡ is_line (map string_bytes words.now) }
{
    match words {
        [command] => !is_option(command.as_str()),
        [command, operand] => !is_option(command.as_str()) && !is_option(operand.as_str()),
        _ => false,
    }
}

/// What `clap` finds in a line. It takes each line, so its only error is want of memory.
fn find_words<'a>(alloc: Global, words: &'a [String]) -> Result<ArgMatches<'a>, Error>
    requires { is_line (map string_bytes words.now) ≡ true }
    ensures command { IfOk result (λ m. first_value (found_of m) (codes "command") ≡ slice_get (map string_bytes words.now) 0) }
    ensures operand { IfOk result (λ m. first_value (found_of m) (codes "operand") ≡ slice_get (map string_bytes words.now) 1) }
    ensures taken { IfErr result (λ e. kind_of e ≡ ErrorKind.OutOfMemory) }
{
    let command = Arg::new(alloc, "command").required(true);
    let operand = Arg::new(alloc, "operand");
    let line = Command::new(alloc, "line")
        .no_binary_name(true)
        .disable_help_flag(true)
        .arg(command)?
        .arg(operand)?;
    line.try_get_matches_from(words)
}

/// Reads the words after the program's name with `clap`. None where they are no line: where there are none
/// or more than two, or one begins with `-`; `clap` is not asked then, and no memory is taken. The only
/// error is want of memory.
pub fn read_words<'a>(
    alloc: Global,
    words: &'a [String],
) -> Result<Option<CommandLine<'a>>, OutOfMemory>
    ensures line { IfOk result (λ line. MatchOption line (is_line (map string_bytes words.now) ≡ false) (λ l. words_in_line l ≡ map string_bytes words.now)) }
    ensures unasked { is_line (map string_bytes words.now) ≡ false → result ≡ Ok None }
{
    if !is_line(words) {
        return Ok(None);
    }
    match find_words(alloc, words) {
        Ok(matches) => Ok(line_in(&matches)),
        Err(_) => Err(OutOfMemory),
    }
}

/// The line whose command and operand these matches have; none where they have no command.
fn line_in<'a>(matches: &ArgMatches<'a>) -> Option<CommandLine<'a>>
    ensures command { option_map (λ l. l.command.now) result ≡ first_value (found_of matches.now) (codes "command") }
    ensures operand { IfSome result (λ l. option_map (λ s. s.now) l.operand ≡ first_value (found_of matches.now) (codes "operand")) }
{
    let command = matches.get_str("command")?;
    let operand = matches.get_str("operand");
    Some(CommandLine { command, operand })
}
