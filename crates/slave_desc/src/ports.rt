//! Ports.

use dcp_types::{DataType, Items};

/// An input or an output: its value reference and its type.
#[derive(Clone, Copy, Debug, PartialEq, Eq)]
pub struct Port {
    pub vr: u64,
    pub kind: DataType,
}

/// Ports in order, numbered from 0.
pub type Ports = Items<Port>;
