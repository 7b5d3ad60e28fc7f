//! The ports of a data id, by position.

ghost use Rattle.std.specs.Prelude.{◌≡◌, ◌<◌, ◌≤◌, ◌++◌, ◌∷◌, [], length, take};

use dcp_types::DataType;
use std::marker::Model;

/// How many positions an output id has at most.
pub(crate) const POSITIONS: usize = 8;

/// A port: its number among the ports of its side, and its type.
#[derive(Clone, Copy)]
pub(crate) struct PortPlace {
    pub(crate) index: usize,
    pub(crate) kind: DataType,
}

/// The ports of an output id, the first at position 0.
#[derive(Drop)]
pub(crate) struct PortPlaces {
    items: [PortPlace; POSITIONS],
    count: usize,
}

impl Model for PortPlaces {
    ghost use Rattle.std.specs.Prelude.{List, ◌≤◌, take};
    ghost use Rattle.slave_device.specs.declared.places.PortPlace.{PortPlace};

    ghost Value = { List PortPlace };

    ghost view = { λ p. take p.count p.items };

    ghost invariant = { λ p. p.count ≤ 8 };
}

impl PortPlaces {
    pub(crate) fn new() -> PortPlaces
        ensures { result ≡ [] }
    {
        let unused = PortPlace {
            index: 0,
            kind: DataType::U8,
        };
        PortPlaces {
            items: [unused; POSITIONS],
            count: 0,
        }
    }

    pub(crate) fn len(&self) -> usize
        ensures { result ≡ length self.now }
    {
        self.as_slice().len()
    }

    pub(crate) fn push(&mut self, place: PortPlace)
        requires { length self.old < 8 }
        ensures { self.new ≡ self.old ++ place ∷ [] }
    {
        self.items[self.count] = place;
        self.count += 1;
    }

    pub(crate) fn as_slice(&self) -> &[PortPlace]
        ensures items { result.now ≡ self.now }
        ensures few { length result.now ≤ 8 }
    {
        &self.items[..self.count]
    }
}
