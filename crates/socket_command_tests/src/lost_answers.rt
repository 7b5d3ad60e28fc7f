//! A slave alone and its master, between which the last acknowledgement is lost.

ghost use Rattle.std.specs.Prelude.{◌≡◌, ◌≤◌, ◌⊎◌, length, None, IsTrue};
ghost use Rattle.dcp_net.specs.Nets.{HasCause, IsWithinRoom};
ghost use Rattle.net_world.specs.World.{is_opened};

use crate::calls::{call, text_of};
use commands::Status;
use dcp_net::{Done, Net, NoWait, Opening, Taken};
use dcp_types::Address;
use host::{Host, Hosted, external_in};
use master_spec::Report;
use net_world::MemoryNet;
use scenario_text::read_scenario;
use std::alloc::Global;
use std::marker::Model;
use std::test::Fail;

/// One slave that counts its steps, of which three are run. The network loses the last of the 18 acknowledgements that
/// it sends where nothing else is lost, which is that of its deregister. `/` stands for a line feed.
const LOSING: &str =
    "steps 3/master 127.0.0.1 9000/slave count/uuid 00000000-0000-0000-0000-000000000001/address 127.0.0.1 9001/model counter 1000/output 1 uint32/drop 1 b0 18/";

/// A network in memory beside which the master lives: it has a round before each take of the slave. Where it is stopped,
/// memory is said to be wanting.
#[derive(Drop)]
struct BesideMaster {
    net: MemoryNet,
    master: Host,
}

impl BesideMaster {
    /// A round of the master.
    fn let_master(&mut self) -> bool
        requires { IsTrue (is_opened self.old.net.net.traffic) }
        ensures { IsTrue (is_opened self.new.net.net.traffic) }
    {
        if self.master.fault().is_some() {
            return false;
        }
        self.master.round(&mut self.net).is_ok()
    }
}

impl Net for BesideMaster {
    ghost use Rattle.std.specs.Prelude.{None};

    ghost calls = { λ s. None };

    ghost opening = { λ s. None };

    ghost count = { λ s. 0 };

    ghost is_open = { λ s. is_opened s.net.net.traffic };

    fn begin(&mut self, plan: &Opening) -> Done {
        match self.net.begin(plan) {
            Done::Ok => Done::Ok,
            Done::Failed | Done::OutOfMemory => Done::OutOfMemory,
        }
    }

    fn send(&mut self, from: Address, to: Address, bytes: &[u8]) -> Done {
        match self.net.send(from, to, bytes) {
            Done::Ok => Done::Ok,
            Done::Failed | Done::OutOfMemory => Done::OutOfMemory,
        }
    }

    fn take(&mut self, at: Address, room: &mut [u8; 1025]) -> Taken {
        if !self.let_master() {
            return Taken::OutOfMemory;
        }
        match self.net.take(at, room) {
            Taken::Gram { from, len } => Taken::Gram { from, len },
            Taken::Nothing => Taken::Nothing,
            Taken::Failed | Taken::OutOfMemory => Taken::OutOfMemory,
        }
    }

    fn faults(&self) -> u64 {
        0
    }
}

/// The master of this scenario, and the network beside it.
fn beside_master(alloc: Global, text: &str) -> Result<Option<BesideMaster>, Fail> {
    let input = text_of(alloc, text)?;
    let Ok(scenario) = read_scenario(alloc, input.as_slice()) else {
        return Ok(None);
    };
    let hosted = Hosted {
        master: true,
        slaves: 0,
    };
    if external_in(&scenario, hosted).is_some() {
        return Ok(None);
    }
    Ok(Some(BesideMaster {
        net: MemoryNet::new(alloc),
        master: Host::new(alloc, scenario, hosted)?,
    }))
}

#[test]
fn the_last_acknowledgement_is_given_again(rt: HostRuntime) -> Result<(), Fail> {
    let Some(mut net) = beside_master(rt.alloc(), LOSING)? else {
        assert!(rt; false);
        return Ok(());
    };
    let came = call(
        &rt,
        rt.alloc(),
        "slave count",
        LOSING,
        &mut net,
        &mut NoWait,
    )?;
    assert_eq!(rt; came.status, Status::Done);
    assert!(rt; came.out.as_slice() == b"slave count steps 3 state ALIVE\n".as_slice());
    assert_eq!(rt; net.master.report(), Some(Report::Finished { steps: 3 }));
    Ok(())
}
