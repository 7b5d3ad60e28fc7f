//! Where an end of the protocol is found.

/// An IPv4 address and a port of UDP or TCP.
#[derive(Clone, Copy, Debug, PartialEq, Eq)]
pub struct Address {
    /// The first part of the dotted form is the most significant byte: 127.0.0.1 is 2,130,706,433.
    pub ip: u32,
    /// 0 to 65,535.
    pub port: u16,
}
