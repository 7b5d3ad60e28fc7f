//! The slaves of a scenario, which contracts see as a list.

ghost use Rattle.std.specs.Prelude.{◌≡◌, ◌++◌, ◌∷◌, [], OnOk, IfErr, length, ◌≤◌, ◌<◌, nat_le};

use dcp_types::OutOfMemory;
use slave_desc::SlaveDesc;
use std::alloc::Global;
use std::marker::Model;

/// Slaves in order, at most 16.
#[derive(Debug, Drop)]
pub struct Slaves {
    items: Vec<SlaveDesc>,
}

impl Model for Slaves {
    ghost use Rattle.std.specs.Prelude.{List, length, ◌≤◌};
    ghost use Rattle.slave_desc.specs.declared.descriptions.SlaveDesc.{SlaveDesc};

    ghost Value = { List SlaveDesc };

    ghost view = { λ n. n.items.items };

    ghost invariant = { λ n. length n.items.items ≤ 16 };
}

impl Slaves {
    /// The empty list. It takes no memory.
    pub fn new(alloc: Global) -> Slaves
        ensures { result ≡ [] }
    {
        Slaves {
            items: Vec::new(alloc),
        }
    }

    /// The items in order.
    pub fn as_slice(&self) -> &[SlaveDesc]
        ensures items { result.now ≡ self.now }
        ensures few { length result.now ≤ 16 }
    {
        self.items.as_slice()
    }

    /// Whether there is no room for another: 16 are there.
    pub fn is_full(&self) -> bool
        ensures { result ≡ nat_le 16 (length self.now) }
    {
        self.items.len() >= 16
    }

    /// Adds one at the end; where memory is short, the list stays as it was.
    pub fn push(&mut self, slave: SlaveDesc) -> Result<(), OutOfMemory>
        requires { length self.old < 16 }
        ensures ok { OnOk result (self.new ≡ self.old ++ slave ∷ []) }
        ensures err { IfErr result (λ _. self.new ≡ self.old) }
    {
        match self.items.push(slave) {
            Ok(()) => Ok(()),
            Err(_) => Err(OutOfMemory),
        }
    }
}
