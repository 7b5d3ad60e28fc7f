//! What a turn does.

use dcp_types::FaultCode;

/// What a turn does to a slave.
#[derive(Clone, Copy)]
pub(crate) enum Act {
    /// Nothing.
    Stay,
    /// The step under way lasts for so many turns more.
    Wait(u32),
    /// The slave falls into the error state.
    Fault(FaultCode),
    /// The model has taken a step.
    Step,
    /// The slave passes on to the next state.
    Pass,
}
