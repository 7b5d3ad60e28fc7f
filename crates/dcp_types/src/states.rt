//! The named states of a slave.

ghost use Rattle.std.specs.Prelude.{◌≡◌, ◌<◌, MatchOption};
ghost use Rattle.dcp_types.specs.Codes.{state_code};
ghost use Rattle.dcp_types.specs.Words.{state_name};

/// A state of a slave. `Synchronized` has a code and is never entered.
#[derive(Clone, Copy, Debug, PartialEq, Eq)]
pub enum State {
    /// Not registered: the slave waits for a master.
    Alive,
    /// Registered: the slave takes its configuration.
    Configuration,
    /// Passing on from `Configuration` to `Prepared`.
    Preparing,
    /// The configuration is complete and was accepted.
    Prepared,
    /// Passing on from `Prepared` to `Configured`.
    Configuring,
    /// Ready to be initialized, and, once the initial outputs were sent, to run.
    Configured,
    /// Computing the initial outputs, on the way to `Initialized`.
    Initializing,
    /// The initial outputs are there and not yet sent.
    Initialized,
    /// Sending the initial outputs, on the way back to `Configured`.
    SendingI,
    /// Passing on from `Configured` to `Running`.
    Synchronizing,
    /// Never entered; it has a code only.
    Synchronized,
    /// Ready for a step.
    Running,
    /// Computing a step, on the way to `Computed`.
    Computing,
    /// The step was computed and its outputs are not yet sent.
    Computed,
    /// Sending the outputs of a step, on the way back to `Running`.
    SendingD,
    /// Passing on to `Stopped`.
    Stopping,
    /// No step is taken any more; the session can be ended or reset.
    Stopped,
    /// A fault came up; it is being handled.
    ErrorHandling,
    /// The fault was handled; the session can only be ended or reset.
    ErrorResolved,
}

impl State {
    /// The state with this code; none where the code is above 18.
    pub fn from_code(code: u8) -> Option<State>
        ensures { MatchOption result (18 < code) (λ state. state_code state ≡ code) }
    {
        match code {
            0 => Some(State::Alive),
            1 => Some(State::Configuration),
            2 => Some(State::Preparing),
            3 => Some(State::Prepared),
            4 => Some(State::Configuring),
            5 => Some(State::Configured),
            6 => Some(State::Initializing),
            7 => Some(State::Initialized),
            8 => Some(State::SendingI),
            9 => Some(State::Synchronizing),
            10 => Some(State::Synchronized),
            11 => Some(State::Running),
            12 => Some(State::Computing),
            13 => Some(State::Computed),
            14 => Some(State::SendingD),
            15 => Some(State::Stopping),
            16 => Some(State::Stopped),
            17 => Some(State::ErrorHandling),
            18 => Some(State::ErrorResolved),
            _ => None,
        }
    }

    /// The code in a message, 0 to 18.
    pub fn code(self) -> u8
        ensures { result ≡ state_code self }
    {
        match self {
            State::Alive => 0,
            State::Configuration => 1,
            State::Preparing => 2,
            State::Prepared => 3,
            State::Configuring => 4,
            State::Configured => 5,
            State::Initializing => 6,
            State::Initialized => 7,
            State::SendingI => 8,
            State::Synchronizing => 9,
            State::Synchronized => 10,
            State::Running => 11,
            State::Computing => 12,
            State::Computed => 13,
            State::SendingD => 14,
            State::Stopping => 15,
            State::Stopped => 16,
            State::ErrorHandling => 17,
            State::ErrorResolved => 18,
        }
    }

    /// The printed name, in capitals.
    pub fn name(self) -> &'static str
        ensures { result.now ≡ state_name self }
    {
        match self {
            State::Alive => "ALIVE",
            State::Configuration => "CONFIGURATION",
            State::Preparing => "PREPARING",
            State::Prepared => "PREPARED",
            State::Configuring => "CONFIGURING",
            State::Configured => "CONFIGURED",
            State::Initializing => "INITIALIZING",
            State::Initialized => "INITIALIZED",
            State::SendingI => "SENDING_I",
            State::Synchronizing => "SYNCHRONIZING",
            State::Synchronized => "SYNCHRONIZED",
            State::Running => "RUNNING",
            State::Computing => "COMPUTING",
            State::Computed => "COMPUTED",
            State::SendingD => "SENDING_D",
            State::Stopping => "STOPPING",
            State::Stopped => "STOPPED",
            State::ErrorHandling => "ERROR_HANDLING",
            State::ErrorResolved => "ERROR_RESOLVED",
        }
    }
}
