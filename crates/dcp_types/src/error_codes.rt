//! Why a slave refuses a request.

ghost use Rattle.std.specs.Prelude.{◌≡◌};
ghost use Rattle.dcp_types.specs.Codes.{error_code};

/// Why a slave refuses a request, as a negative answer tells it.
#[derive(Clone, Copy, Debug, PartialEq, Eq)]
pub enum ErrorCode {
    /// The request's number is ahead of the one that is expected.
    Sequence,
    /// The request does not belong to the state, or names another state than the slave is in.
    WrongState,
    /// The slave does not support the request or what it asks for.
    NotSupported,
    /// No variable or parameter has this value reference.
    UnknownVr,
    /// The type is not that of the variable or parameter.
    TypeMismatch,
    /// The position in a payload is taken or out of order.
    Position,
    /// The slave is to prepare, and its configuration is not complete.
    IncompleteConfig,
    /// The slave is to take a step, and not all values of its inputs have come.
    InputsMissing,
    /// The number of steps is not 1, or no more steps can be counted.
    BadSteps,
    /// The identity is not that of the slave.
    UuidMismatch,
    /// The version of the protocol is not the one that the slave speaks, 1.0.
    Version,
    /// The operating mode is not the one that the slave has, 2: not in real time.
    OpMode,
    /// A value is outside what it may be: a parameter, or a start time other than 0.
    ValueRange,
    /// The slave is in an error state, in which it does not do this.
    InErrorState,
}

impl ErrorCode {
    /// The code in a message, 1 to 14.
    pub fn code(self) -> u16
        ensures { result ≡ error_code self }
    {
        match self {
            ErrorCode::Sequence => 1,
            ErrorCode::WrongState => 2,
            ErrorCode::NotSupported => 3,
            ErrorCode::UnknownVr => 4,
            ErrorCode::TypeMismatch => 5,
            ErrorCode::Position => 6,
            ErrorCode::IncompleteConfig => 7,
            ErrorCode::InputsMissing => 8,
            ErrorCode::BadSteps => 9,
            ErrorCode::UuidMismatch => 10,
            ErrorCode::Version => 11,
            ErrorCode::OpMode => 12,
            ErrorCode::ValueRange => 13,
            ErrorCode::InErrorState => 14,
        }
    }
}
