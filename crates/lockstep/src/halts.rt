//! Why the calculation ends before its last row.

use crate::references::RefFault;

/// Why the calculation ends before its last row.
#[derive(Clone, Copy, Debug)]
pub(crate) enum Halt {
    OutOfMemory,
    /// A slave faults.
    Fault(RefFault),
}
