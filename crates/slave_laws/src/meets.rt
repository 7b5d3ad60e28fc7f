//! The slave of the definition meets what the laws over a run want of a slave.

ghost use Rattle.slave_laws.specs.Talk.Meets.{AreOfTheLaws, ReadingsAgree, SlaveConverses, SlaveIsOverEvents, SlavePerforms};

/// The slave converses as the laws want it, and is the one over the whole list of its events.
pub fn slave_converses()
    ensures converses { SlaveConverses }
    ensures events { SlaveIsOverEvents }
{}

/// The slave goes on with its row events as the laws want it.
pub fn slave_performs()
    ensures { SlavePerforms }
{}

/// Slaves that are made by the definition are slaves of the laws.
pub fn slaves_are_of_the_laws()
    ensures { AreOfTheLaws }
{}

/// The slave hears a datagram as the laws read it.
pub fn readings_agree()
    ensures { ReadingsAgree }
{}
