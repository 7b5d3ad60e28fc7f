//! What a slave sends is read as it was meant: its answers as these answers, its data as data, its notices as
//! neither.
//!
//! So the slaves of the definition are slaves of the laws of any run, with no premise left but that no two
//! parties share an address. There is no code.

ghost use Rattle.slave_laws.specs.Talk.Sends.{AreLawful, SendsReadBack, StaysInRange};

/// After every list of events all that a slave holds fits the fields of the messages that tell it.
pub fn slaves_stay_in_range()
    ensures { StaysInRange }
{}

/// Wherever a slave stands, all that it sends at its next event reads back.
pub fn sends_read_back()
    ensures { SendsReadBack }
{}

/// Slaves of whatever descriptions are slaves of the laws of any run.
pub fn slaves_are_lawful()
    ensures { AreLawful }
{}
