//! The types of variables: whole numbers of one, two, four or eight bytes.

ghost use Rattle.std.specs.Prelude.{◌≡◌, ◌<◌, MatchOption};
ghost use Rattle.dcp_types.specs.Codes.{type_code};
ghost use Rattle.dcp_types.specs.Words.{type_word};
ghost use Rattle.dcp_types.specs.Values.{width, fits};

/// The type of a variable.
#[derive(Clone, Copy, Debug, PartialEq, Eq)]
pub enum DataType {
    /// 0 to 255, in one byte.
    U8,
    /// 0 to 65,535, in two bytes.
    U16,
    /// 0 to 4,294,967,295, in four bytes.
    U32,
    /// 0 to 2^64 - 1, in eight bytes.
    U64,
    /// -128 to 127, in one byte.
    I8,
    /// -32,768 to 32,767, in two bytes.
    I16,
    /// -2^31 to 2^31 - 1, in four bytes.
    I32,
    /// -2^63 to 2^63 - 1, in eight bytes.
    I64,
}

impl DataType {
    /// The type with this code; none where the code is above 7.
    pub fn from_code(code: u8) -> Option<DataType>
        ensures { MatchOption result (7 < code) (λ kind. type_code kind ≡ code) }
    {
        match code {
            0 => Some(DataType::U8),
            1 => Some(DataType::U16),
            2 => Some(DataType::U32),
            3 => Some(DataType::U64),
            4 => Some(DataType::I8),
            5 => Some(DataType::I16),
            6 => Some(DataType::I32),
            7 => Some(DataType::I64),
            _ => None,
        }
    }

    /// The code in a message, 0 to 7.
    pub fn code(self) -> u8
        ensures { result ≡ type_code self }
    {
        match self {
            DataType::U8 => 0,
            DataType::U16 => 1,
            DataType::U32 => 2,
            DataType::U64 => 3,
            DataType::I8 => 4,
            DataType::I16 => 5,
            DataType::I32 => 6,
            DataType::I64 => 7,
        }
    }

    /// The number of bytes of a value: 1, 2, 4 or 8.
    pub fn width(self) -> usize
        ensures { result ≡ width self }
    {
        match self {
            DataType::U8 | DataType::I8 => 1,
            DataType::U16 | DataType::I16 => 2,
            DataType::U32 | DataType::I32 => 4,
            DataType::U64 | DataType::I64 => 8,
        }
    }

    /// The word of a description, such as `uint8`.
    pub fn word(self) -> &'static str
        ensures { result.now ≡ type_word self }
    {
        match self {
            DataType::U8 => "uint8",
            DataType::U16 => "uint16",
            DataType::U32 => "uint32",
            DataType::U64 => "uint64",
            DataType::I8 => "int8",
            DataType::I16 => "int16",
            DataType::I32 => "int32",
            DataType::I64 => "int64",
        }
    }
}

/// Whether the value lies in the type's range.
pub fn fits(kind: DataType, value: i128) -> bool
    ensures { result ≡ fits kind value }
{
    match kind {
        DataType::U8 => 0 <= value && value <= 0xff,
        DataType::U16 => 0 <= value && value <= 0xffff,
        DataType::U32 => 0 <= value && value <= 0xffff_ffff,
        DataType::U64 => 0 <= value && value <= 0xffff_ffff_ffff_ffff,
        DataType::I8 => -0x80 <= value && value <= 0x7f,
        DataType::I16 => -0x8000 <= value && value <= 0x7fff,
        DataType::I32 => -0x8000_0000 <= value && value <= 0x7fff_ffff,
        DataType::I64 => -0x8000_0000_0000_0000 <= value && value <= 0x7fff_ffff_ffff_ffff,
    }
}
