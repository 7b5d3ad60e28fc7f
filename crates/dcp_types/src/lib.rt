//! The words of the protocol: data types, states, codes, addresses, names and limits, lists of them,
//! and the bytes of a value. Every other crate stands on this one.
//!
//! What it promises: codes, words and names are one to one, and the bytes of a value are its little-endian
//! two's complement, written and read back exactly. Only a list that grows takes memory.
#![tactic(auto)]

mod addresses;
mod data_types;
mod error_codes;
mod fault_codes;
mod items;
mod laws;
mod limits;
mod memory;
mod names;
mod protocols;
mod states;
mod values;

pub use addresses::Address;
pub use data_types::{DataType, fits};
pub use error_codes::ErrorCode;
pub use fault_codes::FaultCode;
pub use items::Items;
pub use laws::{codes_and_words_are_one_to_one, value_bytes_are_one_to_one};
pub use limits::Limits;
pub use memory::OutOfMemory;
pub use names::{Name, is_name};
pub use protocols::Protocol;
pub use states::State;
pub use values::{get_value, put_value};

#[cfg(test)]
mod tests;
