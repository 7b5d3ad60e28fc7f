//! A model, with what it was made with.

ghost use Rattle.slave_device.specs.Made.{IsMade};

use fixed_models::Model;
use slave_spec::SlaveSetup;

/// The model of a slave, of the kind and with the types of its description.
#[derive(Drop)]
pub(crate) struct Works {
    pub(crate) setup: SlaveSetup,
    pub(crate) model: Model,
    ghost made: { IsMade setup model },
}
