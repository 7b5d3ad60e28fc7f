//! What the setup list of a plan tells a slave of its data ids: their intervals, and that it sends its own alone.
//!
//! There is no code.

ghost use Rattle.slave_spec.specs.Changes.{input, output};
ghost use Rattle.slave_laws.specs.Wiring.Links.{IntervalsArePlanned, SendersArePlanned, SendersSend};

/// Each data id that comes to a slave or that it sends has the interval of its link.
pub fn intervals_are_planned()
    ensures inputs { IntervalsArePlanned input }
    ensures outputs { IntervalsArePlanned output }
{}

/// A data id that a slave sends is of a link from this slave, and each id of such a link is sent, to an address.
pub fn senders_are_planned()
    ensures only { SendersArePlanned }
    ensures each { SendersSend }
{}
