//! What the words of a line say, before a message is made of it.

/// What a word says of a field.
#[derive(Debug, Drop)]
pub enum Said {
    /// Also the code of a state or of a type, an identity or an address.
    Number(u128),
    Signed(i128),
    Bytes(Vec<u8>),
}

/// The type code of a message, and what its words say of its fields.
#[derive(Debug, Drop)]
pub struct SaidMessage {
    pub code: u8,
    pub values: Vec<Said>,
}
