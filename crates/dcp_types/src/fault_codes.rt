//! Why a slave stands in an error state.

ghost use Rattle.std.specs.Prelude.{◌≡◌};
ghost use Rattle.dcp_types.specs.Codes.{fault_code};

/// Why a slave stands in an error state, as an error answer tells it. No fault is code 0.
#[derive(Clone, Copy, Debug, PartialEq, Eq)]
pub enum FaultCode {
    /// A value of the model's state left the range of 64 bits.
    ModelOverflow,
    /// The model would have divided by zero.
    DivideByZero,
    /// An output is outside the range of its port's type.
    OutOfRange,
    /// No request came for as many turns as the heartbeat allows.
    HeartbeatMissed,
}

impl FaultCode {
    /// The code in a message, 32 to 35.
    pub fn code(self) -> u16
        ensures { result ≡ fault_code self }
    {
        match self {
            FaultCode::ModelOverflow => 32,
            FaultCode::DivideByZero => 33,
            FaultCode::OutOfRange => 34,
            FaultCode::HeartbeatMissed => 35,
        }
    }
}
