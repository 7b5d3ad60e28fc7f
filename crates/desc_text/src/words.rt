//! Types and kinds as words.

ghost use Rattle.std.specs.Prelude.{◌≡◌};
ghost use Rattle.desc_text.specs.Words.{data_type_of, kind_named};

use dcp_types::DataType;
use fixed_models::Kind;

/// The type that a word is.
pub fn data_type_of(word: &[u8]) -> Option<DataType>
    ensures { result ≡ data_type_of word.now }
{
    if word == b"uint8".as_slice() {
        return Some(DataType::U8);
    }
    if word == b"uint16".as_slice() {
        return Some(DataType::U16);
    }
    if word == b"uint32".as_slice() {
        return Some(DataType::U32);
    }
    if word == b"uint64".as_slice() {
        return Some(DataType::U64);
    }
    if word == b"int8".as_slice() {
        return Some(DataType::I8);
    }
    if word == b"int16".as_slice() {
        return Some(DataType::I16);
    }
    if word == b"int32".as_slice() {
        return Some(DataType::I32);
    }
    if word == b"int64".as_slice() {
        return Some(DataType::I64);
    }
    None
}

/// The kind that a word is.
pub fn kind_of(word: &[u8]) -> Option<Kind>
    ensures { result ≡ kind_named word.now }
{
    if word == b"const".as_slice() {
        return Some(Kind::Const);
    }
    if word == b"ramp".as_slice() {
        return Some(Kind::Ramp);
    }
    if word == b"counter".as_slice() {
        return Some(Kind::Counter);
    }
    if word == b"gain".as_slice() {
        return Some(Kind::Gain);
    }
    if word == b"sum".as_slice() {
        return Some(Kind::Sum);
    }
    if word == b"integrator".as_slice() {
        return Some(Kind::Integrator);
    }
    if word == b"lag".as_slice() {
        return Some(Kind::Lag);
    }
    if word == b"delay".as_slice() {
        return Some(Kind::Delay);
    }
    if word == b"limiter".as_slice() {
        return Some(Kind::Limiter);
    }
    if word == b"deadband".as_slice() {
        return Some(Kind::Deadband);
    }
    if word == b"divider".as_slice() {
        return Some(Kind::Divider);
    }
    if word == b"oscillator".as_slice() {
        return Some(Kind::Oscillator);
    }
    if word == b"tank".as_slice() {
        return Some(Kind::Tank);
    }
    if word == b"switch".as_slice() {
        return Some(Kind::Switch);
    }
    if word == b"external".as_slice() {
        return Some(Kind::External);
    }
    None
}
