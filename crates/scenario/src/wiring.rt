//! Where inputs take their values from, and how often these are renewed.

ghost use Rattle.std.specs.Prelude.{◌≡◌, ◌==◌, ◌&&◌};
ghost use Rattle.scenario.specs.Wiring.{wire_into, every_between, interval, same_input};

use crate::scenarios::{Every, Wire};

impl Wire {
    /// Whether two wires go into one input.
    pub fn has_same_input(self, other: Wire) -> bool
        ensures { result ≡ same_input self other }
    {
        self.to == other.to && self.into == other.into
    }
}

fn goes_into(wire: &Wire, slave: u8, input: usize) -> bool
    ensures { result ≡ ((wire.now.to == slave) && (wire.now.into == input)) }
{
    wire.to == slave && usize::from(wire.into) == input
}

/// The first wire into this input of a slave. Slaves count from 1, inputs from 0.
pub fn wire_into(wires: &[Wire], slave: u8, input: usize) -> Option<Wire>
    ensures { result ≡ wire_into wires.now slave input }
{
    wires.iter().copied().find(|w| goes_into(w, slave, input))
}

fn is_between(every: &Every, from: u8, to: u8) -> bool
    ensures { result ≡ ((every.now.from == from) && (every.now.to == to)) }
{
    every.from == from && every.to == to
}

/// The first interval of the pair of slaves, both from 1.
pub fn every_between(every: &[Every], from: u8, to: u8) -> Option<Every>
    ensures { result ≡ every_between every.now from to }
{
    every.iter().copied().find(|e| is_between(e, from, to))
}

/// After how many steps what a slave gives another is renewed: 1 where nothing else is said.
pub fn interval(every: &[Every], from: u8, to: u8) -> u32
    ensures { result ≡ interval every.now from to }
{
    match every_between(every, from, to) {
        Some(e) => e.q,
        None => 1,
    }
}
