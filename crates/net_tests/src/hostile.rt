//! Strangers that send what no end sends, while messages go on.

use crate::ends::{Place, carries, free_address, socket_at, two_ends};
use dcp_net::Ready;
use dcp_types::{Address, Protocol};
use live_net::MioReady;
use std::io::{Read, Write};
use std::net::{Ipv4Addr, SocketAddr, TcpStream, UdpSocket};
use std::test::Fail;
use std::time::Instant;

/// The greeting of 127.0.0.1 at port 9001, and a frame of one byte.
const STREAM: [u8; 11] = [1, 0, 0, 0x7f, 0x29, 0x23, 1, 0, 0, 0, 0xb0];

/// How many waits are looked at.
const WAITS: u32 = 20;

/// How many milliseconds a wait lasts that nothing ends.
const LONGEST_WAIT: u128 = 10;

/// The same greeting, and the length of a long frame.
const HALF: [u8; 10] = [1, 0, 0, 0x7f, 0x29, 0x23, 0xff, 3, 0, 0];

/// A connection to an end, over which these bytes have gone.
fn intruder(rt: &HostRuntime, at: Address, bytes: &[u8]) -> Result<TcpStream, Fail> {
    let mut stream = TcpStream::connect(rt, socket_at(at))?;
    stream.write_all(bytes)?;
    Ok(stream)
}

/// A socket for datagrams at which no end is.
fn stranger(rt: &HostRuntime) -> Result<UdpSocket, Fail> {
    let any = SocketAddr::from((Ipv4Addr::LOCALHOST, 0));
    Ok(UdpSocket::bind(rt, any)?)
}

/// Fifty datagrams, none of the length of a message.
fn flood(stranger: &UdpSocket, at: Address) -> Result<(), Fail> {
    for _ in 0..10u8 {
        stranger.send_to(&[], socket_at(at))?;
        stranger.send_to(&[0x5a; 1], socket_at(at))?;
        stranger.send_to(&[0xb0; 24], socket_at(at))?;
        stranger.send_to(&[0xff; 1_024], socket_at(at))?;
        stranger.send_to(&[0x00; 1_200], socket_at(at))?;
    }
    Ok(())
}

/// How many messages of the sender come in one round, and the greatest length of what comes.
fn round(place: &mut Place, sender: Address) -> Result<(usize, usize), Fail> {
    let mut count = 0;
    let mut longest = 0;
    for i in 0..64usize {
        match place.take()? {
            Some((from, _, len)) => {
                if from == sender && count < i + 1 {
                    count += 1;
                }
                longest = len.max(longest);
            }
            None => break,
        }
    }
    Ok((count, longest))
}

/// Connections that send garbage, a half frame and a part of a greeting, and then close.
fn intrude(rt: &HostRuntime, at: Address) -> Result<(), Fail> {
    drop(intruder(rt, at, &[0xff; 3_000])?);
    drop(intruder(rt, at, &[1, 0, 0, 0x7f, 0x29, 0x23, 4, 0, 0, 0, 0xb0])?);
    drop(intruder(rt, at, &[1, 0, 0])?);
    Ok(())
}

#[test]
fn strangers_over_tcp(rt: HostRuntime) -> Result<(), Fail> {
    let mut ready = MioReady::new(&rt, rt.alloc())?;
    let (mut left, mut right) = two_ends(&rt, &ready, Protocol::Tcp)?;
    intrude(&rt, right.at)?;
    let mut stranger = intruder(&rt, right.at, &STREAM)?;
    assert!(rt; carries(&mut ready, &mut left, &mut right, 5)?);
    assert_eq!(rt; right.awaited(&mut ready)?, None);
    assert!(rt; matches!(stranger.read(&mut [0; 1]), Ok(0) | Err(_)));
    Ok(())
}

#[test]
fn more_connections_than_are_kept(rt: HostRuntime) -> Result<(), Fail> {
    let mut ready = MioReady::new(&rt, rt.alloc())?;
    let (mut left, mut right) = two_ends(&rt, &ready, Protocol::Tcp)?;
    let mut strangers = Vec::new(rt.alloc());
    for i in 1..60u8 {
        assert!(rt; carries(&mut ready, &mut left, &mut right, i)?);
        strangers.push(intruder(&rt, right.at, &[1, 0, 0])?)?;
    }
    Ok(())
}

#[test]
fn a_flood_over_udp(rt: HostRuntime) -> Result<(), Fail> {
    let ready = MioReady::new(&rt, rt.alloc())?;
    let (mut left, mut right) = two_ends(&rt, &ready, Protocol::Udp)?;
    let stranger = stranger(&rt)?;
    for _ in 0..200u8 {
        flood(&stranger, right.at)?;
        left.send(right.at, 7)?;
        let (count, longest) = round(&mut right, left.at)?;
        assert_eq!(rt; (count, longest), (1, 20));
    }
    Ok(())
}

#[test]
fn what_is_longer_is_cut(rt: HostRuntime) -> Result<(), Fail> {
    let ready = MioReady::new(&rt, rt.alloc())?;
    let at = free_address(&rt, Protocol::Udp)?;
    let other = free_address(&rt, Protocol::Udp)?;
    let mut place = Place::open(&rt, &ready, Protocol::Udp, at, other)?;
    let end = UdpSocket::bind(&rt, socket_at(other))?;
    end.send_to(&[0x5a; 1_200], socket_at(at))?;
    assert_eq!(rt; place.take()?, Some((other, 0x5a, 1_025)));
    Ok(())
}

#[test]
fn datagrams_of_strangers_end_no_wait(rt: HostRuntime) -> Result<(), Fail> {
    let mut ready = MioReady::new(&rt, rt.alloc())?;
    let (mut left, mut right) = two_ends(&rt, &ready, Protocol::Udp)?;
    let stranger = stranger(&rt)?;
    for _ in 0..WAITS {
        flood(&stranger, right.at)?;
        assert!(rt; waited(&rt, &mut ready)? >= LONGEST_WAIT);
    }
    assert!(rt; carries(&mut ready, &mut left, &mut right, 3)?);
    Ok(())
}

#[test]
fn connections_of_strangers_end_no_wait(rt: HostRuntime) -> Result<(), Fail> {
    let mut ready = MioReady::new(&rt, rt.alloc())?;
    let (mut left, mut right) = two_ends(&rt, &ready, Protocol::Tcp)?;
    let mut stranger = intruder(&rt, right.at, &HALF)?;
    for _ in 0..WAITS {
        let _other = intruder(&rt, right.at, &STREAM)?;
        assert!(rt; waited(&rt, &mut ready)? >= LONGEST_WAIT);
        assert_eq!(rt; right.take()?, None);
        stranger.write_all(&[0])?;
        assert!(rt; waited(&rt, &mut ready)? >= LONGEST_WAIT);
    }
    assert!(rt; carries(&mut ready, &mut left, &mut right, 3)?);
    Ok(())
}

#[test]
fn messages_end_waits(rt: HostRuntime) -> Result<(), Fail> {
    for protocol in [Protocol::Udp, Protocol::Tcp] {
        let mut ready = MioReady::new(&rt, rt.alloc())?;
        let (mut left, mut right) = two_ends(&rt, &ready, protocol)?;
        let stranger = stranger(&rt)?;
        assert!(rt; carries(&mut ready, &mut left, &mut right, 1)?);
        let mut shortest = LONGEST_WAIT;
        for _ in 0..WAITS {
            flood(&stranger, right.at)?;
            left.send(right.at, 2)?;
            shortest = waited(&rt, &mut ready)?.min(shortest);
            assert_eq!(rt; right.take()?, Some((left.at, 2, 20)));
        }
        assert!(rt; shortest < LONGEST_WAIT);
    }
    Ok(())
}

/// How many milliseconds a wait lasts.
fn waited(rt: &HostRuntime, ready: &mut MioReady<HostRuntime>) -> Result<u128, Fail> {
    let begin = Instant::now(rt)?;
    let _ = ready.wait();
    Ok(begin.elapsed(rt)?.as_millis())
}
