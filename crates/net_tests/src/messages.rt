//! Messages between two ends, and what is lost without a fault.

use crate::ends::{Place, carries, free_address, opening, two_ends};
use dcp_net::{Done, Net};
use dcp_types::Protocol;
use live_net::{LiveNet, MioReady};
use std::test::Fail;

/// How many of so many messages go from one end to the other and back.
fn there_and_back(rt: &HostRuntime, protocol: Protocol) -> Result<u8, Fail> {
    let mut ready = MioReady::new(rt, rt.alloc())?;
    let (mut left, mut right) = two_ends(rt, &ready, protocol)?;
    let mut count = 0;
    for i in 1..6u8 {
        let there = carries(&mut ready, &mut left, &mut right, i)?;
        let back = carries(&mut ready, &mut right, &mut left, i + 10)?;
        if there && back {
            count = i;
        }
    }
    Ok(count)
}

/// How often a network that opens an end twice fails, first while another has it.
fn in_use(rt: &HostRuntime, protocol: Protocol) -> Result<(Done, Done, Done, u64), Fail> {
    let alloc = rt.alloc();
    let ready = MioReady::new(rt, alloc)?;
    let (left, right) = two_ends(rt, &ready, protocol)?;
    let plan = opening(alloc, protocol, left.at, right.at)?;
    let mut net = LiveNet::new(rt, alloc, &ready)?;
    let first = net.begin(&plan);
    drop(left);
    let second = net.begin(&plan);
    let third = net.begin(&plan);
    Ok((first, second, third, net.faults()))
}

/// Whether a message comes to an end that was opened after others were sent to it.
fn comes_late(rt: &HostRuntime, protocol: Protocol) -> Result<(bool, u64), Fail> {
    let mut ready = MioReady::new(rt, rt.alloc())?;
    let at = free_address(rt, protocol)?;
    let other = free_address(rt, protocol)?;
    let mut left = Place::open(rt, &ready, protocol, at, other)?;
    for i in 1..6u8 {
        left.send(other, i)?;
        left.take()?;
    }
    let mut right = Place::open(rt, &ready, protocol, other, at)?;
    let carried = carries(&mut ready, &mut left, &mut right, 7)?;
    Ok((carried, left.net.faults()))
}

#[test]
fn messages_go_there_and_back(rt: HostRuntime) -> Result<(), Fail> {
    assert_eq!(rt; there_and_back(&rt, Protocol::Udp)?, 5);
    assert_eq!(rt; there_and_back(&rt, Protocol::Tcp)?, 5);
    Ok(())
}

#[test]
fn a_port_is_in_use(rt: HostRuntime) -> Result<(), Fail> {
    let wanted = (Done::Failed, Done::Ok, Done::Ok, 1);
    assert_eq!(rt; in_use(&rt, Protocol::Udp)?, wanted);
    assert_eq!(rt; in_use(&rt, Protocol::Tcp)?, wanted);
    Ok(())
}

#[test]
fn a_peer_comes_late(rt: HostRuntime) -> Result<(), Fail> {
    assert_eq!(rt; comes_late(&rt, Protocol::Udp)?, (true, 0));
    assert_eq!(rt; comes_late(&rt, Protocol::Tcp)?, (true, 0));
    Ok(())
}
