//! Reading an input to its end, or to one byte past its limit.

ghost use Rattle.std.specs.Prelude.{◌≡◌, ◌≤◌, ◌≢◌, None};
ghost use Rattle.commands.specs.CommandWords.{own_number};
ghost use Rattle.commands.specs.Given.{GivesBy, IsSoakMade};
ghost use Rattle.commands.specs.Inputs.{Gathers};
ghost use Rattle.commands.specs.Limits.{limit_of};

use crate::command_words::Command;
use bytes::BytesMut;
use dcp_io::{Read, Source};
use soaks::soak_text;
use std::alloc::Global;

/// The most bytes of a text, or of a message.
pub const LIMIT: usize = 1_048_576;

/// The most bytes of a trace.
pub const TRACE_LIMIT: usize = 1_073_741_824;

/// How many bytes are asked for at once.
const PIECE: usize = 4_096;

/// How the reading of an input ended.
#[derive(Drop)]
pub enum Gathered {
    /// All bytes of the source, or its bytes up to one past the limit.
    Bytes(BytesMut),
    /// The source failed.
    Failed,
    OutOfMemory,
}

/// Reads what is left, up to one byte past the limit.
pub fn read_input<S: Source>(alloc: Global, source: &mut S, limit: usize) -> Gathered
    requires { limit ≤ 1073741824 }
    ensures { Gathers limit (S.left source.old) (S.left source.new) (S.faults source.old) (S.faults source.new) result }
{
    let mut gathered = BytesMut::new(alloc);
    let mut room = [0u8; PIECE];
    while gathered.len() <= limit {
        let size = (limit + 1 - gathered.len()).min(PIECE);
        match source.read(&mut room[..size]) {
            Read::End => return Gathered::Bytes(gathered),
            Read::Failed => return Gathered::Failed,
            Read::Bytes(count) => {
                if gathered.extend_from_slice(&room[..count]).is_err() {
                    return Gathered::OutOfMemory;
                }
            }
        }
    }
    Gathered::Bytes(gathered)
}

/// What a command is given to judge: the text of the scenario of its number, where it makes one, and else
/// what is left of the source.
pub(crate) fn input_for<S: Source>(alloc: Global, command: Command<'_>, source: &mut S) -> Gathered
    ensures gives { GivesBy (S.left source.old) (S.left source.new) (own_number command.entry) (limit_of command.entry) (S.faults source.old) (S.faults source.new) result }
    ensures unread { own_number command.entry ≢ None → source.new ≡ source.old }
{
    match command.own_number() {
        Some(number) => made_input(alloc, number),
        None => read_input(alloc, source, command.limit()),
    }
}

/// The text of the scenario of a number.
fn made_input(alloc: Global, number: u32) -> Gathered
    ensures { IsSoakMade number result }
{
    let Ok(text) = soak_text(alloc, number) else {
        return Gathered::OutOfMemory;
    };
    let mut gathered = BytesMut::new(alloc);
    match gathered.extend_from_slice(text.as_bytes()) {
        Ok(()) => Gathered::Bytes(gathered),
        Err(_) => Gathered::OutOfMemory,
    }
}
