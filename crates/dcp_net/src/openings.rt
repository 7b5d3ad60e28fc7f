//! What a network is opened with.

ghost use Rattle.std.specs.Prelude.{◌≡◌, IfOk};

use dcp_types::{Address, Protocol};
use scenario::{NetLines, NetPlan};
use std::alloc::{AllocError, Global};
use std::marker::Model;

/// A list of addresses. Contracts see the list.
#[derive(Debug, Drop)]
pub struct Addresses {
    items: Vec<Address>,
}

impl Model for Addresses {
    ghost use Rattle.std.specs.Prelude.{List};
    ghost use Rattle.dcp_types.specs.declared.addresses.Address.{Address};

    ghost Value = { List Address };

    ghost view = { λ a. a.items.items };
}

impl Addresses {
    /// The addresses of this vector, in order.
    pub fn from_vec(items: Vec<Address>) -> Addresses
        ensures { result ≡ items.items }
    {
        Addresses { items }
    }

    /// The addresses in order.
    pub fn as_slice(&self) -> &[Address]
        ensures { result.now ≡ self.now }
    {
        self.items.as_slice()
    }

    /// Another list of the same addresses.
    fn copied(&self, alloc: Global) -> Result<Addresses, AllocError>
        ensures { IfOk result (λ copy. copy ≡ self.now) }
    {
        let items = self.items.as_slice().to_vec(alloc)?;
        Ok(Addresses { items })
    }
}

/// What a network is opened with: the transport, the addresses of the scenario, those of them that are
/// taken for here, and what a network in memory does to the messages.
#[derive(Debug, Drop)]
pub struct Opening {
    pub protocol: Protocol,
    /// The master's and then each slave's, hosted here or not.
    pub all: Addresses,
    /// Those of `all` that are hosted here, in the same order.
    pub ends: Addresses,
    pub plan: NetPlan,
}

impl Opening {
    /// The same opening in memory of its own.
    pub fn copied(&self, alloc: Global) -> Result<Opening, AllocError>
        ensures { IfOk result (λ copy. copy ≡ self.now) }
    {
        let all = self.all.copied(alloc)?;
        let ends = self.ends.copied(alloc)?;
        let lines = copied_lines(alloc, &self.plan.lines)?;
        let chaos = self.plan.chaos;
        Ok(Opening {
            protocol: self.protocol,
            all,
            ends,
            plan: NetPlan { lines, chaos },
        })
    }
}

/// Another list of the same lines.
fn copied_lines(alloc: Global, lines: &NetLines) -> Result<NetLines, AllocError>
    ensures { IfOk result (λ copy. copy ≡ lines.now) }
{
    let mut copy = NetLines::new(alloc);
    for line in lines.as_slice() {
        match copy.push(*line) {
            Ok(()) => {}
            Err(_) => return Err(AllocError),
        }
    }
    Ok(copy)
}
