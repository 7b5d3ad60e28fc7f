//! The line of a slave that is over.

ghost use Rattle.std.specs.Prelude.{◌≡◌, IfOk};
ghost use Rattle.socket_commands.specs.Lines.{slave_line};

use dcp_types::{FaultCode, OutOfMemory, State};
use std::alloc::Global;

/// The name of a slave, its steps since the last reset, its state, and the code of its fault if it has one.
pub(crate) fn slave_line(
    alloc: Global,
    name: &str,
    steps: u32,
    state: State,
    fault: Option<FaultCode>,
) -> Result<Vec<u8>, OutOfMemory>
    ensures { IfOk result (λ line. line.items ≡ slave_line name.now steps state fault) }
{
    let state = state.name();
    let line = match fault {
        None => format!(in alloc; "slave {name} steps {steps} state {state}\n")?,
        Some(fault) => {
            let code = fault.code();
            format!(in alloc; "slave {name} steps {steps} state {state} error {code}\n")?
        }
    };
    Ok(line.into_bytes())
}
