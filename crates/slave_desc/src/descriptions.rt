//! A slave's description.

use crate::parameters::Parameters;
use crate::ports::Ports;
use dcp_types::{Address, Name};
use fixed_models::Kind;

/// What a slave is: who it is, where it is found, its model, how fast it answers, and its ports.
/// `IsDesc` is the condition of those that a text can give.
#[derive(Debug, Drop)]
pub struct SlaveDesc {
    pub name: Name,
    /// The identity, its first byte the most significant.
    pub uuid: u128,
    /// The port is 1 or more.
    pub address: Address,
    /// One of this program's, or `Kind::External`, which a slave of another make has.
    pub kind: Kind,
    /// Those that the kind takes.
    pub parameters: Parameters,
    /// For how many turns each computing state lasts longer: 0 to 50.
    pub busy: u32,
    /// After how many turns without a request the slave faults: 1 to 100,000, or 0 for never.
    pub heartbeat: u32,
    /// The resolution in seconds is `numerator` / `denominator`, each 1 or more.
    pub numerator: u32,
    pub denominator: u32,
    /// 0 to 8, as the kind has them, with value references of their own.
    pub inputs: Ports,
    /// 1 to 8, as the kind has them, with value references of their own.
    pub outputs: Ports,
}
