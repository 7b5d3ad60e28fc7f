//! What networks give, take by take.

ghost use Rattle.std.specs.Prelude.{◌≡◌};

use dcp_ends::Bytes;
use dcp_net::{
    Addresses, Done, FailingWait, Net, NoWait, Opening, Ready, ScriptGram, ScriptNet, Taken, Waited,
};
use dcp_types::{Address, Protocol};
use net_world::{MemoryNet, NetCall};
use scenario::{Chaos, NetLine, NetLines, NetPlan};
use std::alloc::{AllocError, Global};
use std::test::Fail;

const MASTER: Address = Address {
    ip: 0x7f00_0001,
    port: 9000,
};

const SLAVE: Address = Address {
    ip: 0x7f00_0001,
    port: 9001,
};

/// An opening of the two ends with this plan.
fn opening(alloc: Global, lines: NetLines, chaos: Option<Chaos>) -> Result<Opening, AllocError> {
    Ok(Opening {
        protocol: Protocol::Udp,
        all: Addresses::from_vec([MASTER, SLAVE].to_vec(alloc)?),
        ends: Addresses::from_vec([MASTER, SLAVE].to_vec(alloc)?),
        plan: NetPlan { lines, chaos },
    })
}

/// The master sends so many messages, one before each of the first takes of the slave. What ten takes
/// give: the number of the message, and 0 for nothing.
fn given(
    alloc: Global,
    lines: NetLines,
    chaos: Option<Chaos>,
    sends: u8,
) -> Result<Vec<u8>, AllocError> {
    let mut net = MemoryNet::new(alloc);
    match net.begin(&opening(alloc, lines, chaos)?) {
        Done::Ok => {}
        Done::Failed | Done::OutOfMemory => return Err(AllocError),
    }
    let mut got = Vec::with_capacity(alloc, 10)?;
    let mut room = [0; 1025];
    for i in 0..10u8 {
        if i < sends {
            match net.send(MASTER, SLAVE, &[7, i + 1]) {
                Done::Ok => {}
                Done::Failed | Done::OutOfMemory => return Err(AllocError),
            }
        }
        match net.take(SLAVE, &mut room) {
            Taken::Gram { .. } => got.push(room[1])?,
            Taken::Nothing => got.push(0)?,
            Taken::Failed | Taken::OutOfMemory => return Err(AllocError),
        }
    }
    Ok(got)
}

#[test]
fn lines_of_a_plan(rt: HostRuntime) -> Result<(), Fail> {
    let alloc = rt.alloc();
    for (line, wanted) in [
        (
            NetLine::Drop {
                end: 0,
                type_id: 7,
                nth: 2,
            },
            [1, 0, 3, 0, 0, 0, 0, 0, 0, 0],
        ),
        (
            NetLine::Drop {
                end: 0,
                type_id: 7,
                nth: 0,
            },
            [0, 0, 0, 0, 0, 0, 0, 0, 0, 0],
        ),
        (
            NetLine::Drop {
                end: 1,
                type_id: 7,
                nth: 0,
            },
            [1, 2, 3, 0, 0, 0, 0, 0, 0, 0],
        ),
        (
            NetLine::Drop {
                end: 0,
                type_id: 8,
                nth: 0,
            },
            [1, 2, 3, 0, 0, 0, 0, 0, 0, 0],
        ),
        (
            NetLine::Copy {
                end: 0,
                type_id: 7,
                nth: 1,
                lag: 2,
            },
            [1, 2, 1, 3, 0, 0, 0, 0, 0, 0],
        ),
        (
            NetLine::Hold {
                end: 0,
                type_id: 7,
                nth: 1,
                lag: 2,
            },
            [0, 2, 1, 3, 0, 0, 0, 0, 0, 0],
        ),
        (
            NetLine::Hold {
                end: 0,
                type_id: 7,
                nth: 3,
                lag: 1,
            },
            [1, 2, 0, 0, 0, 0, 0, 0, 0, 0],
        ),
    ] {
        let mut lines = NetLines::new(alloc);
        lines.push(line)?;
        let got = given(alloc, lines, None, 3)?;
        assert!(rt; got.as_slice() == wanted.as_slice());
    }
    Ok(())
}

#[test]
fn treatment_by_chance(rt: HostRuntime) -> Result<(), Fail> {
    let alloc = rt.alloc();
    for (start, drop, repeat, hold, wanted) in [
        (1, 0, 0, 1000, [0, 1, 0, 2, 3, 4, 5, 0, 0, 0]),
        (7, 300, 500, 300, [0, 2, 2, 3, 4, 5, 4, 6, 0, 0]),
        (12345, 200, 1000, 0, [1, 2, 1, 3, 2, 4, 5, 3, 4, 6]),
    ] {
        let chaos = Chaos {
            start,
            drop,
            repeat,
            hold,
        };
        let got = given(alloc, NetLines::new(alloc), Some(chaos), 6)?;
        assert!(rt; got.as_slice() == wanted.as_slice());
    }
    Ok(())
}

#[test]
fn a_call_that_fails(rt: HostRuntime) -> Result<(), Fail> {
    let alloc = rt.alloc();
    let mut net = MemoryNet::failing(alloc, NetCall::Take, 2);
    let mut room = [0; 1025];
    match net.begin(&opening(alloc, NetLines::new(alloc), None)?) {
        Done::Ok => {}
        Done::Failed | Done::OutOfMemory => return Err(AllocError.into()),
    }
    for (taken, faults) in [(Taken::Nothing, 0), (Taken::Failed, 1), (Taken::Nothing, 1)] {
        assert_eq!(rt; net.take(SLAVE, &mut room), taken);
        assert_eq!(rt; net.faults(), faults);
    }
    assert_eq!(rt; net.send(MASTER, SLAVE, &[7, 1]), Done::Ok);
    assert_eq!(rt; net.sent(), 1);
    let gram = Taken::Gram {
        from: MASTER,
        len: 2,
    };
    assert_eq!(rt; net.take(SLAVE, &mut room), gram);
    assert_eq!(rt; net.take(SLAVE, &mut room), Taken::Nothing);
    Ok(())
}

#[test]
fn a_script(rt: HostRuntime) -> Result<(), Fail> {
    let alloc = rt.alloc();
    let mut grams = Vec::new(alloc);
    for at in [SLAVE, MASTER, SLAVE] {
        grams.push(ScriptGram {
            at,
            from: MASTER,
            bytes: Bytes::short(&[1, 2]),
        })?;
    }
    let mut net = ScriptNet::new(alloc, grams);
    let mut room = [0; 1025];
    let gram = Taken::Gram {
        from: MASTER,
        len: 2,
    };
    for taken in [gram, Taken::Nothing, gram, Taken::Nothing, Taken::Nothing] {
        assert_eq!(rt; net.take(SLAVE, &mut room), taken);
    }
    assert_eq!(rt; net.send(SLAVE, MASTER, &[9]), Done::Ok);
    assert_eq!(rt; net.faults(), 0);
    Ok(())
}

#[test]
fn waits(rt: HostRuntime) {
    let mut failing = FailingWait::new(2);
    for waited in [Waited::Ready, Waited::Failed, Waited::Ready] {
        assert_eq!(rt; failing.wait(), waited);
    }
    let mut none = NoWait;
    assert_eq!(rt; none.wait(), Waited::Ready);
}
