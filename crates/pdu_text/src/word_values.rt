//! The value that a word says.

ghost use Rattle.std.specs.Prelude.{◌≡◌, ◌==◌, ◌-◌, Ok};
ghost use Rattle.std.specs.List.{position};
ghost use Rattle.std.specs.Option.{option_map};
ghost use Rattle.pdu_layout.specs.Fields.{limit, type_from, field_width};
ghost use Rattle.pdu_text.specs.Contents.{value_of_said};
ghost use Rattle.pdu_text.specs.Reasons.{Gives, Sees};
ghost use Rattle.pdu_text.specs.Words.{state_in, early_states, late_states, state_named, is_signed_type, below_said, typed_said, state_said, identity_said, ip_said, bytes_said, value_said, size_of, placed_value, text_behind, field_said, type_said};

use crate::contents::Said;
use crate::reasons::{PduTextRefused, PduTextWhy};
use dcp_types::{DataType, State, fits};
use hex::FromHexError;
use pdu_layout::{Field, FieldKind};
use std::alloc::Global;
use text_lines::{LineRefused, identity, ip, number, signed_number};

fn early_state(word: &[u8]) -> Option<State>
    ensures { result ≡ state_in early_states word.now }
{
    if word == b"ALIVE".as_slice() {
        return Some(State::Alive);
    }
    if word == b"CONFIGURATION".as_slice() {
        return Some(State::Configuration);
    }
    if word == b"PREPARING".as_slice() {
        return Some(State::Preparing);
    }
    if word == b"PREPARED".as_slice() {
        return Some(State::Prepared);
    }
    if word == b"CONFIGURING".as_slice() {
        return Some(State::Configuring);
    }
    if word == b"CONFIGURED".as_slice() {
        return Some(State::Configured);
    }
    if word == b"INITIALIZING".as_slice() {
        return Some(State::Initializing);
    }
    if word == b"INITIALIZED".as_slice() {
        return Some(State::Initialized);
    }
    if word == b"SENDING_I".as_slice() {
        return Some(State::SendingI);
    }
    if word == b"SYNCHRONIZING".as_slice() {
        return Some(State::Synchronizing);
    }
    None
}

fn late_state(word: &[u8]) -> Option<State>
    ensures { result ≡ state_in late_states word.now }
{
    if word == b"SYNCHRONIZED".as_slice() {
        return Some(State::Synchronized);
    }
    if word == b"RUNNING".as_slice() {
        return Some(State::Running);
    }
    if word == b"COMPUTING".as_slice() {
        return Some(State::Computing);
    }
    if word == b"COMPUTED".as_slice() {
        return Some(State::Computed);
    }
    if word == b"SENDING_D".as_slice() {
        return Some(State::SendingD);
    }
    if word == b"STOPPING".as_slice() {
        return Some(State::Stopping);
    }
    if word == b"STOPPED".as_slice() {
        return Some(State::Stopped);
    }
    if word == b"ERROR_HANDLING".as_slice() {
        return Some(State::ErrorHandling);
    }
    if word == b"ERROR_RESOLVED".as_slice() {
        return Some(State::ErrorResolved);
    }
    None
}

/// The state with this name.
#[tactic(auto, unfolding(crate::specs::Words::state_named))]
fn state_named(word: &[u8]) -> Option<State>
    ensures { result ≡ state_named word.now }
{
    match early_state(word) {
        Some(state) => Some(state),
        None => late_state(word),
    }
}

fn below(limit: u128, word: &[u8]) -> Result<Said, PduTextWhy>
    ensures { Sees value_of_said result (below_said limit word.now) }
{
    let n = number(word).ok_or(PduTextWhy::BadNumber)?;
    if n < limit {
        Ok(Said::Number(n))
    } else {
        Err(PduTextWhy::Limit)
    }
}

fn is_signed(kind: DataType) -> bool
    ensures { result ≡ is_signed_type kind }
{
    kind.code() >= 4
}

fn typed(kind: DataType, word: &[u8]) -> Result<Said, PduTextWhy>
    ensures { Sees value_of_said result (typed_said kind word.now) }
{
    let n = signed_number(is_signed(kind), word).ok_or(PduTextWhy::BadNumber)?;
    if fits(kind, n) {
        Ok(Said::Signed(n))
    } else {
        Err(PduTextWhy::Limit)
    }
}

fn state(word: &[u8]) -> Result<Said, PduTextWhy>
    ensures { Sees value_of_said result (state_said word.now) }
{
    match state_named(word) {
        Some(state) => Ok(Said::Number(state.code() as u128)),
        None => Err(PduTextWhy::BadNumber),
    }
}

fn identity_number(word: &[u8]) -> Result<Said, PduTextWhy>
    ensures { Sees value_of_said result (identity_said word.now) }
{
    match identity(word) {
        Ok(n) => Ok(Said::Number(n)),
        Err(_) => Err(PduTextWhy::BadUuid),
    }
}

fn ip_number(alloc: Global, word: &[u8]) -> Result<Said, PduTextRefused>
    ensures { Gives value_of_said result (ip_said word.now) }
{
    match ip(alloc, word) {
        Ok(n) => Ok(Said::Number(n as u128)),
        Err(LineRefused::OutOfMemory) => Err(PduTextRefused::OutOfMemory),
        Err(LineRefused::Why(_)) => Err(PduTextRefused::Line {
            why: PduTextWhy::BadNumber,
        }),
    }
}

fn payload(alloc: Global, word: &[u8]) -> Result<Said, PduTextRefused>
    ensures { Gives value_of_said result (bytes_said word.now) }
{
    match hex::decode(alloc, word) {
        Ok(bytes) => Ok(Said::Bytes(bytes)),
        Err(FromHexError::OutOfMemory) => Err(PduTextRefused::OutOfMemory),
        Err(_) => Err(PduTextRefused::Line {
            why: PduTextWhy::BadNumber,
        }),
    }
}

/// The type with this code; above 7 it means nothing.
fn type_with(code: u128) -> DataType
    ensures { result ≡ type_from code }
{
    match code {
        0 => DataType::U8,
        1 => DataType::U16,
        2 => DataType::U32,
        3 => DataType::U64,
        4 => DataType::I8,
        5 => DataType::I16,
        6 => DataType::I32,
        _ => DataType::I64,
    }
}

fn value(alloc: Global, kind: FieldKind, last: u128, word: &[u8]) -> Result<Said, PduTextRefused>
    ensures { Gives value_of_said result (value_said kind last word.now) }
{
    match kind {
        FieldKind::U8 => Ok(below(256, word)?),
        FieldKind::U16 => Ok(below(65_536, word)?),
        FieldKind::U32 => Ok(below(4_294_967_296, word)?),
        FieldKind::U64 => Ok(below(18_446_744_073_709_551_616, word)?),
        FieldKind::TypeCode => Ok(below(8, word)?),
        FieldKind::I64 => Ok(typed(DataType::I64, word)?),
        FieldKind::Value => Ok(typed(type_with(last), word)?),
        FieldKind::StateCode => Ok(state(word)?),
        FieldKind::Uuid => Ok(identity_number(word)?),
        FieldKind::Ip => ip_number(alloc, word),
        FieldKind::Rest => payload(alloc, word),
    }
}

fn width(kind: FieldKind, last: u128) -> usize
    ensures { result ≡ field_width kind last }
{
    match kind {
        FieldKind::U8 | FieldKind::StateCode | FieldKind::TypeCode => 1,
        FieldKind::U16 => 2,
        FieldKind::U32 | FieldKind::Ip => 4,
        FieldKind::U64 | FieldKind::I64 => 8,
        FieldKind::Value => type_with(last).width(),
        FieldKind::Uuid => 16,
        FieldKind::Rest => 0,
    }
}

/// How many bytes the value has in a message, after a type field of code `last`.
pub fn size_of(kind: FieldKind, last: u128, value: &Said) -> usize
    ensures { result ≡ size_of kind last (value_of_said value.now) }
{
    match value {
        Said::Bytes(bytes) => bytes.len(),
        _ => width(kind, last),
    }
}

/// The code of the type that the fields after this one go by.
pub fn type_after(kind: FieldKind, last: u128, value: &Said) -> u128
    ensures { result ≡ type_said kind last (value_of_said value.now) }
{
    match (kind, value) {
        (FieldKind::TypeCode, Said::Number(n)) => *n,
        _ => last,
    }
}

fn equals_sign(word: &[u8]) -> Option<usize>
    ensures { result ≡ position (λ b. b == 61) word.now }
{
    word.iter().position(|b| *b == b'=')
}

fn text_after<'a>(name: &str, word: &'a [u8]) -> Option<&'a [u8]>
    ensures { option_map (λ v. v.now) result ≡ text_behind name.now word.now }
{
    match equals_sign(word) {
        Some(at) => {
            let (front, _) = word.split_at(at);
            let (_, text) = word.split_at(at + 1);
            if front == name.as_bytes() {
                Some(text)
            } else {
                None
            }
        }
        None => None,
    }
}

fn placed(kind: FieldKind, room: usize, last: u128, value: Said) -> Result<Said, PduTextRefused>
    ensures { Gives value_of_said result (placed_value kind room last (value_of_said value)) }
{
    if size_of(kind, last, &value) <= room {
        Ok(value)
    } else {
        Err(PduTextRefused::Line {
            why: PduTextWhy::Limit,
        })
    }
}

/// The value that a word says of a field, where the message has room for `room` bytes more and the
/// last type field before it has the code `last`.
#[tactic(auto, unfolding(crate::specs::Words::field_said))]
pub fn read_field(
    alloc: Global,
    field: &Field,
    room: usize,
    last: u128,
    word: &[u8],
) -> Result<Said, PduTextRefused>
    ensures { Gives value_of_said result (field_said (record { name = field.now.name.now; kind = field.now.kind }) room last word.now) }
{
    match text_after(field.name, word) {
        Some(text) => {
            let value = value(alloc, field.kind, last, text)?;
            placed(field.kind, room, last, value)
        }
        None => Err(PduTextRefused::Line {
            why: PduTextWhy::UnknownKey,
        }),
    }
}
