//! The bytes of messages: reading them and writing them.
//!
//! What it promises: bytes are read exactly where they spell a message, and then as that message;
//! every other list of bytes has one refusal, decided over the spellings of all messages. What is
//! written is the message's one spelling, and is read back as the same message. No call takes memory.
#![tactic(auto)]

mod cuts;
mod faults;
mod from_bytes;
mod laws;
mod leaves;
mod reading;
mod to_bytes;
mod walker;

pub use faults::{DecodeFault, DecodeWhy};
pub use from_bytes::decode;
pub use laws::{
    bytes_say_what_they_spell, messages_have_one_spelling, read_and_written, refusals_are_unique,
    spellings_are_one_to_one, written_and_read,
};
pub use reading::read;
pub use to_bytes::{encode, put_message};
