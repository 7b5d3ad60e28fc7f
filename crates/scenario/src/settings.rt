//! What settings do to the parameters of a slave's model.

ghost use Rattle.std.specs.Prelude.{◌≡◌, IfOk};
ghost use Rattle.scenario.specs.Settings.{changed, parameters};

use crate::scenarios::{Scenario, Setting};
use dcp_types::OutOfMemory;
use slave_desc::SlaveDesc;
use std::alloc::Global;

/// Changes the parameters of one slave by settings in order, some of which may be other slaves'.
pub fn change_all(parameters: &mut [i64], slave: u8, settings: &[Setting])
    ensures { parameters.new ≡ changed parameters.old slave settings.now }
{
    for setting in settings {
        setting.change(slave, parameters);
    }
}

/// The parameters of a slave in this run, from 1: after all settings, and after those of the later
/// runs up to this one.
pub fn parameters(
    alloc: Global,
    scenario: &Scenario,
    slave: u8,
    desc: &SlaveDesc,
    run: u32,
) -> Result<Vec<i64>, OutOfMemory>
    ensures { IfOk result (λ ps. ps.items ≡ parameters scenario.now slave desc.now run) }
{
    let mut parameters = Vec::from_slice(alloc, desc.parameters.as_slice())?;
    change_all(&mut parameters, slave, scenario.settings.as_slice());
    for rerun in scenario.reruns.as_slice() {
        if rerun.run <= run {
            rerun.setting().change(slave, &mut parameters);
        }
    }
    Ok(parameters)
}
