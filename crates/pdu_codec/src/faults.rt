//! Why bytes are no message.

use thiserror::Error;

/// Where bytes cease to be the front of a message, and why.
#[derive(Clone, Copy, Debug, PartialEq, Eq, Error)]
#[error("{why} (at byte {at})")]
pub struct DecodeFault {
    /// The length of the longest front with which some message begins, 0 to 1,024.
    pub at: usize,
    pub why: DecodeWhy,
}

/// Why bytes are no message.
#[derive(Clone, Copy, Debug, PartialEq, Eq, Error)]
pub enum DecodeWhy {
    /// There are no bytes.
    #[error("there are no bytes")]
    Empty,
    /// The first byte is no type code.
    #[error("the first byte is no type code")]
    UnknownType,
    /// The bytes end before the layout does.
    #[error("the bytes end too early")]
    Short,
    /// A layout of fixed length ends before the bytes do.
    #[error("there are bytes left over")]
    Long,
    /// A state is above 18.
    #[error("a state is unknown")]
    BadState,
    /// A type is above 7.
    #[error("a type is unknown")]
    BadType,
    /// There are more than 1,024 bytes.
    #[error("there are more than 1,024 bytes")]
    TooLong,
}
