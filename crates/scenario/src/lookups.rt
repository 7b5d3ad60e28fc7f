//! A slave by its number, and what it has.

ghost use Rattle.std.specs.Prelude.{◌≡◌, option_copied};
ghost use Rattle.scenario.specs.Lookups.{slave_at, outputs_at, inputs_at, parameters_at, type_at};

use slave_desc::{Port, SlaveDesc};

/// The slave of a number from 1.
pub fn slave_at(slaves: &[SlaveDesc], slave: u8) -> Option<&SlaveDesc>
    ensures { option_copied result ≡ slave_at slaves.now slave }
{
    if slave == 0 {
        return None;
    }
    slaves.get(slave as usize - 1)
}

/// Its outputs; none where there is no such slave.
pub fn outputs_at(slaves: &[SlaveDesc], slave: u8) -> &[Port]
    ensures { result.now ≡ outputs_at slaves.now slave }
{
    match slave_at(slaves, slave) {
        Some(slave) => slave.outputs.as_slice(),
        None => &[],
    }
}

/// Its inputs; none where there is no such slave.
pub fn inputs_at(slaves: &[SlaveDesc], slave: u8) -> &[Port]
    ensures { result.now ≡ inputs_at slaves.now slave }
{
    match slave_at(slaves, slave) {
        Some(slave) => slave.inputs.as_slice(),
        None => &[],
    }
}

/// Its parameters; none where there is no such slave.
pub fn parameters_at(slaves: &[SlaveDesc], slave: u8) -> &[i64]
    ensures { result.now ≡ parameters_at slaves.now slave }
{
    match slave_at(slaves, slave) {
        Some(slave) => slave.parameters.as_slice(),
        None => &[],
    }
}

/// The code of a port's type; 0 where there is no such port.
pub fn type_at(ports: &[Port], port: u8) -> u8
    ensures { result ≡ type_at ports.now port }
{
    match ports.get(port as usize) {
        Some(port) => port.kind.code(),
        None => 0,
    }
}
