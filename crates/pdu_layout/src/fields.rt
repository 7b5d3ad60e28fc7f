//! The kinds of field, and the layout of a message.

/// What a field holds. Numbers stand with the lowest byte first.
#[derive(Clone, Copy, Debug, PartialEq, Eq)]
pub enum FieldKind {
    U8,
    U16,
    U32,
    U64,
    /// Eight bytes in two's complement.
    I64,
    /// The code of a state, a byte from 0 to 18.
    StateCode,
    /// The code of a type, a byte from 0 to 7.
    TypeCode,
    /// A value of the type that the type field before it names, in that type's width.
    Value,
    /// 16 bytes in the order of the printed form.
    Uuid,
    /// An IPv4 address in four bytes, the last part of the dotted form first.
    Ip,
    /// All bytes to the end, possibly none. It is the last field of its message.
    Rest,
}

/// A field of a message.
#[derive(Clone, Copy, Debug, PartialEq, Eq)]
pub struct Field {
    /// The name in the printed form.
    pub name: &'static str,
    pub kind: FieldKind,
}

/// The layout of a message with `N` fields after its type code.
#[derive(Clone, Copy)]
pub struct Layout<const N: usize> {
    /// The first byte of the message.
    pub code: u8,
    /// The name in the printed form.
    pub name: &'static str,
    /// What follows the type code, in order.
    pub fields: [Field; N],
}
