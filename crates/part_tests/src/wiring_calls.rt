//! The wiring of the integrator of a feedback loop, request by request and message by message.

use dcp_types::{Address, DataType, ErrorCode};
use desc_text::read_desc;
use pdu_layout::{Cfg, NetInfo};
use slave_device::Wiring;
use slave_spec::Wired;
use std::alloc::Global;
use std::process::Abort;
use std::test::Fail;

const TEXT: &[u8] = b"slave acc
uuid 00000000-0000-0000-0000-000000000002
address 127.0.0.1 9002
model integrator 10 65536
input 1 int32
output 2 int32
";

const LOCAL: u32 = 0x7f00_0001;

fn at(port: u16) -> Address {
    Address { ip: LOCAL, port }
}

fn net(data_id: u16, port: u16, protocol: u8) -> NetInfo {
    NetInfo {
        data_id,
        protocol,
        port,
        ip: LOCAL,
    }
}

fn input(pos: u16, vr: u64, source: DataType) -> Cfg {
    Cfg::Input {
        data_id: 17,
        pos,
        vr,
        source,
    }
}

fn time(denominator: u32) -> Cfg {
    Cfg::TimeRes {
        numerator: 1,
        denominator,
    }
}

fn steps(data_id: u16, steps: u32) -> Cfg {
    Cfg::Steps { data_id, steps }
}

fn output(data_id: u16, pos: u16, vr: u64) -> Cfg {
    Cfg::Output { data_id, pos, vr }
}

/// The wiring of the slave, to which nothing has happened.
fn new_wiring(alloc: Global) -> Result<Wiring, Fail> {
    let desc = read_desc(alloc, TEXT)?;
    Ok(Wiring::new(alloc, &desc)?)
}

/// The input is set.
fn set_input(rt: &impl Abort, wiring: &mut Wiring) {
    let rows = [
        (Cfg::Clear, Ok(())),
        (time(1001), Err(ErrorCode::NotSupported)),
        (time(1000), Ok(())),
        (Cfg::Source(net(17, 9001, 0)), Err(ErrorCode::Position)),
        (steps(17, 2), Err(ErrorCode::NotSupported)),
        (input(0, 7, DataType::I32), Err(ErrorCode::UnknownVr)),
        (input(0, 1, DataType::U32), Err(ErrorCode::TypeMismatch)),
        (input(1, 1, DataType::I32), Err(ErrorCode::Position)),
        (input(0, 1, DataType::I32), Ok(())),
    ];
    for (body, wanted) in rows {
        assert_eq!(rt; wiring.apply(&body), wanted);
    }
}

/// The interval of the input and the output are set.
fn set_output(rt: &impl Abort, wiring: &mut Wiring) {
    let rows = [
        (input(1, 1, DataType::I32), Err(ErrorCode::Position)),
        (Cfg::Source(net(17, 9001, 1)), Err(ErrorCode::NotSupported)),
        (Cfg::Source(net(17, 9001, 0)), Ok(())),
        (Cfg::Source(net(17, 9001, 0)), Err(ErrorCode::Position)),
        (steps(17, 1001), Err(ErrorCode::NotSupported)),
        (steps(17, 2), Ok(())),
        (Cfg::Target(net(2, 9000, 4)), Err(ErrorCode::Position)),
        (output(2, 0, 2), Ok(())),
        (output(2, 0, 2), Err(ErrorCode::Position)),
    ];
    for (body, wanted) in rows {
        assert_eq!(rt; wiring.apply(&body), wanted);
    }
    assert!(rt; !wiring.complete());
    assert_eq!(rt; wiring.apply(&Cfg::Target(net(2, 9000, 4))), Ok(()));
    assert!(rt; wiring.complete());
}

/// Messages come.
fn take_messages(rt: &impl Abort, wiring: &mut Wiring) {
    assert!(rt; !wiring.ready(0));
    assert!(rt; !wiring.take_data(at(9000), 0, 17, &[20, 0, 0, 0], 0));
    assert!(rt; wiring.take_data(at(9001), 0, 17, &[20, 0, 0, 0], 0));
    assert!(rt; !wiring.take_data(at(9001), 0, 17, &[21, 0, 0, 0], 1));
    assert!(rt; wiring.ready(1));
    assert!(rt; !wiring.ready(2));
    assert!(rt; wiring.inputs() == [20].as_slice());
}

/// Messages are sent.
fn send_messages(rt: &impl Abort, wiring: &mut Wiring) {
    assert_eq!(rt; wiring.targets(), 1);
    assert!(rt; wiring.is_due(0, 3));
    wiring.restart(3);
    assert!(rt; wiring.inputs() == [0].as_slice());
    let mut room = [0; 1024];
    assert_eq!(rt; wiring.build(0, 1, &[10], &mut room), Some((at(9000), 9)));
    assert!(rt; room[..9] == [0xf0, 5, 0, 2, 0, 10, 0, 0, 0]);
}

#[test]
fn a_wiring_is_set_and_used(rt: HostRuntime) -> Result<(), Fail> {
    let mut wiring = new_wiring(rt.alloc())?;
    set_input(&rt, &mut wiring);
    set_output(&rt, &mut wiring);
    take_messages(&rt, &mut wiring);
    send_messages(&rt, &mut wiring);
    Ok(())
}
