//! Where a reference ends before its last row.

use crate::row_lists::Rows;
use dcp_types::FaultCode;

/// The fault that ends the rows: the first by run and then by step, and there the one of the least
/// slave.
#[derive(Clone, Copy, Debug, PartialEq, Eq)]
pub struct RefFault {
    /// The slave that faults, from 1.
    pub slave: u8,
    /// The run, from 1.
    pub run: u32,
    /// The step of the run at which the slave faults; 0 where an initial output lies outside its
    /// type.
    pub step: u32,
    pub code: FaultCode,
}

/// What a correct run prints.
#[derive(Debug, Drop)]
pub struct Reference {
    /// The rows of all runs. Row k of run r stands at row_index (r - 1) x (steps + 1) + k.
    pub rows: Rows,
    /// What ends the rows early; none where they are all there.
    pub fault: Option<RefFault>,
}
