//! The messages as values of the program.

use dcp_types::{DataType, State};

/// A message. What is not text or payload is its own; those borrow from where they were read.
#[derive(Clone, Copy, Debug, PartialEq)]
pub enum Pdu<'a> {
    /// A request to change the state, from the master to a slave.
    Stc {
        /// The number of the request; numbers go round after 65,535.
        seq: u16,
        /// The id of the slave, 0 to 255.
        receiver: u8,
        /// The state in which the sender takes the receiver to be.
        state: State,
        /// What is asked for.
        body: Stc,
    },
    /// A request that configures a slave.
    Cfg {
        /// The number of the request; numbers go round after 65,535.
        seq: u16,
        /// The id of the slave, 0 to 255.
        receiver: u8,
        /// What is set.
        body: Cfg,
    },
    /// A question to a slave.
    Inf {
        /// The number of the request; numbers go round after 65,535.
        seq: u16,
        /// The id of the slave, 0 to 255.
        receiver: u8,
        /// What is asked.
        body: Inf,
    },
    /// The answer of a slave to the request with this number.
    Rsp {
        /// The number of the request that is answered.
        seq: u16,
        /// The id of the slave, 0 to 255.
        sender: u8,
        /// What is answered.
        body: Rsp<'a>,
    },
    /// The notice that a slave has changed its state.
    StateChanged {
        /// The id of the slave, 0 to 255.
        sender: u8,
        /// The state that it has reached.
        state: State,
    },
    /// The notice of one log entry.
    LogNote {
        /// The id of the slave, 0 to 255.
        sender: u8,
        /// The category of the entry, 1 to 3 from a slave.
        category: u8,
        /// The level of the entry, 1 to 3 from a slave.
        level: u8,
        /// The entry's text, at most 1,020 bytes.
        text: &'a [u8],
    },
    /// Values of outputs under a data id.
    DataIo {
        /// The number of the sending under this data id, modulo 65,536.
        seq: u16,
        /// Which outputs these are, 0 to 65,535.
        data_id: u16,
        /// The bytes of the values, one after another by position; at most 1,019 bytes.
        payload: &'a [u8],
    },
    /// Values of tunable parameters under a parameter id.
    DataParameter {
        /// The number of the sending under this parameter id, modulo 65,536.
        seq: u16,
        /// Which parameters these are, 0 to 65,535.
        param_id: u16,
        /// The bytes of the values, one after another by position; at most 1,019 bytes.
        payload: &'a [u8],
    },
}

/// What a state request asks for.
#[derive(Clone, Copy, Debug, PartialEq)]
pub enum Stc {
    /// Begin a session, with the slave of this identity and in this operating mode and version.
    Register {
        /// The identity as one number, the first digit of its printed form the most significant.
        uuid: u128,
        /// The operating mode, 0 to 255; 2 is not in real time.
        op_mode: u8,
        /// The version of the protocol before the point, 0 to 255.
        major: u8,
        /// The version of the protocol after the point, 0 to 255.
        minor: u8,
    },
    /// End the session.
    Deregister,
    /// Judge whether the configuration is complete.
    Prepare,
    /// Take the configuration up.
    Configure,
    /// Compute the initial outputs.
    Initialize,
    /// Begin to run.
    Run {
        /// The time at which to begin; 0 is at once.
        start_time: i64,
    },
    /// Take so many steps.
    DoStep {
        /// How many steps, 0 to 4,294,967,295.
        steps: u32,
    },
    /// Send the outputs that were computed last.
    SendOutputs,
    /// Take no more steps.
    Stop,
    /// Go back to the configured state.
    Reset,
}

/// What a configuration request sets.
#[derive(Clone, Copy, Debug, PartialEq)]
pub enum Cfg {
    /// The time of a step, in seconds, as a fraction.
    TimeRes {
        /// Seconds over the denominator.
        numerator: u32,
        /// By what the seconds are divided; 0 is refused by a slave, not by the codec.
        denominator: u32,
    },
    /// How many steps lie between two sendings of a data id.
    Steps {
        /// Which outputs, 0 to 65,535.
        data_id: u16,
        /// The interval in steps.
        steps: u32,
    },
    /// Where an input stands in a payload, and of which type it comes.
    Input {
        /// The data id under which the value comes.
        data_id: u16,
        /// The place among the values of a payload, from 0.
        pos: u16,
        /// The value reference of the input.
        vr: u64,
        /// The type of the output that sends it.
        source: DataType,
    },
    /// Where an output stands in a payload.
    Output {
        /// The data id under which the value is sent.
        data_id: u16,
        /// The place among the values of a payload, from 0.
        pos: u16,
        /// The value reference of the output.
        vr: u64,
    },
    /// Forget the configuration.
    Clear,
    /// Where a data id is sent to.
    Target(NetInfo),
    /// Where a data id comes from.
    Source(NetInfo),
    /// The value of a parameter, within the range of its type.
    Parameter {
        /// The value reference of the parameter.
        vr: u64,
        /// The type of the value.
        kind: DataType,
        /// The value, in the range of the type.
        value: i128,
    },
    /// Where a tunable parameter stands in a payload.
    Tunable {
        /// The parameter id under which the value comes.
        param_id: u16,
        /// The place among the values of a payload, from 0.
        pos: u16,
        /// The value reference of the parameter.
        vr: u64,
        /// The type of the value.
        kind: DataType,
    },
    /// Where a parameter id comes from.
    ParamNet {
        /// The parameter id, 0 to 65,535.
        param_id: u16,
        /// The code of the transport: 0 for UDP, 4 for TCP, both over IPv4.
        protocol: u8,
        /// The port, 0 to 65,535.
        port: u16,
        /// The IPv4 address; the first part of the dotted form is the most significant byte.
        ip: u32,
    },
    /// Which entries are logged, and how they are handed on.
    Logging {
        /// Which category of entries, 1 to 3 in a slave; 0 is all of them.
        category: u8,
        /// The highest level that is logged, 1 to 3 in a slave; 0 is none.
        level: u8,
        /// 0 to keep entries until they are asked for, 1 to send each at once.
        mode: u8,
    },
    /// In which states a data id is sent.
    Scope {
        /// The data id, 0 to 65,535.
        data_id: u16,
        /// The code of the states, 0 to 255.
        scope: u8,
    },
}

/// The address of the other end of a data id.
#[derive(Clone, Copy, Debug, PartialEq)]
pub struct NetInfo {
    /// The data id, 0 to 65,535.
    pub data_id: u16,
    /// The code of the transport: 0 for UDP, 4 for TCP, both over IPv4.
    pub protocol: u8,
    /// The port, 0 to 65,535.
    pub port: u16,
    /// The IPv4 address; the first part of the dotted form is the most significant byte.
    pub ip: u32,
}

/// What a question asks.
#[derive(Clone, Copy, Debug, PartialEq)]
pub enum Inf {
    /// The state of the slave.
    State,
    /// The fault of the slave.
    Error,
    /// The oldest entries of the log that are still kept.
    Log {
        /// Which category of entries, 1 to 3 in a slave.
        category: u8,
        /// How many entries are wanted at most, 0 to 255.
        max_entries: u8,
    },
}

/// What an answer says.
#[derive(Clone, Copy, Debug, PartialEq)]
pub enum Rsp<'a> {
    /// The request was accepted.
    Ack,
    /// The request was refused.
    Nack {
        /// The number of the request that the slave expects next.
        expected: u16,
        /// The code of the cause, 1 to 14 where the slave is one of these.
        code: u16,
    },
    /// The slave's state.
    StateAck {
        /// The state that it is in.
        state: State,
    },
    /// The slave's fault.
    ErrorAck {
        /// The code of the fault, 32 to 35 where the slave is one of these; 0 where there was none.
        code: u16,
    },
    /// Entries of the slave's log.
    LogAck {
        /// The entries one after another, at most 1,020 bytes.
        entries: &'a [u8],
    },
}
