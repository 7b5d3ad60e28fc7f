//! Runs whose trace or whose network is looked at.

ghost use Rattle.std.specs.Prelude.{◌≤◌, length, IfOk};
ghost use Rattle.dcp_net.specs.Scripts.{AllFit};

use crate::tables::bytes_of;
use commands::{Status, Words, run_words};
use dcp_ends::Bytes;
use dcp_io::{MemorySink, MemorySource};
use dcp_net::{Net, ScriptGram, ScriptNet};
use dcp_types::Address;
use md5::{Digest, Md5};
use net_world::{MemoryNet, NetCall};
use std::alloc::Global;
use std::test::Fail;

/// One counter, which steps three times.
const COUNTER: &[u8] = b"steps 3
master 127.0.0.1 9000
slave count
uuid 00000000-0000-0000-0000-000000000001
address 127.0.0.1 9001
model counter 1000
output 1 uint32
";

/// The status of a run of the counter, its output, and its trace.
fn run_over<N: Net>(alloc: Global, net: &mut N) -> Result<(Status, Vec<u8>, Vec<u8>), Fail> {
    call_over(alloc, "run", COUNTER.to_vec(alloc)?, net)
}

/// The status of a command, its output, and its trace.
fn call_over<N: Net>(
    alloc: Global,
    line: &str,
    input: Vec<u8>,
    net: &mut N,
) -> Result<(Status, Vec<u8>, Vec<u8>), Fail> {
    let mut words = Words::new(alloc);
    for word in line.split_whitespace() {
        words.push(alloc, word)?;
    }
    let mut source = MemorySource::new(input, Vec::new(alloc), Vec::new(alloc));
    let mut out = MemorySink::new([0; 256].to_vec(alloc)?, Vec::new(alloc));
    let mut room = Vec::new(alloc);
    for _ in 0..8_192 {
        room.push(0)?;
    }
    let mut trace = MemorySink::new(room, Vec::new(alloc));
    let status = run_words(alloc, &words, &mut source, &mut out, &mut trace, net);
    Ok((
        status,
        out.written().to_vec(alloc)?,
        trace.written().to_vec(alloc)?,
    ))
}

#[test]
fn the_trace_of_a_counter_is_that_of_the_model(rt: HostRuntime) -> Result<(), Fail> {
    let (status, out, trace) = run_over(rt.alloc(), &mut MemoryNet::new(rt.alloc()))?;
    assert_eq!(rt; status, Status::Done);
    assert!(rt; out.as_slice() == b"0 0\n1 1\n2 2\n3 3\nfinished 3\n".as_slice());
    assert_eq!(rt; trace.len(), 4_634);
    let mut hasher = Md5::new();
    hasher.update(trace.as_slice());
    let digest = hex::decode(rt.alloc(), "81314946f354625122e5fe1f3bf36a03")?;
    assert!(rt; hasher.finalize().as_slice() == digest.as_slice());
    Ok(())
}

/// Traces of the counter of which one byte is changed, and which are then cut to a length. A line has the words of
/// the command; the place of the byte, its new value and the length; the number of the status; and what is written.
/// The acknowledgement of the register, entry 7, stands at the bytes 268 to 286.
const DAMAGED: &str = "\
replay|0 68 4634|0|0 0/1 1/2 2/3 3/finished 3/
replay|193 1 4634|8|differs at 3/
replay|0 68 222|8|unended 5/
replay|5 7 4634|2|input: byte 5 HEADER/
replay|13 120 4634|2|input: byte 13 HEADER/
replay|0 68 3|2|input: byte 3 HEADER/
conform count|0 68 4634|0|conforms count events 77/
conform count|0 68 287|0|conforms count events 2/
conform count|286 2 287|8|bad entry 7 SEND/
conform count|268 4 275|8|bad entry 7 MISSING/
conform count|5 7 4634|2|input: byte 5 HEADER/
conform other|0 68 4634|2|input: line 0 UNKNOWN_SLAVE/";

/// The trace with one byte changed and cut to a length, as a cell tells them.
fn damaged(alloc: Global, trace: &[u8], cell: &str) -> Result<Vec<u8>, Fail> {
    let mut numbers = cell.split_whitespace();
    let mut next = || numbers.next().unwrap_or("").parse::<usize>().unwrap_or(0);
    let (at, byte, len) = (next(), next(), next());
    let mut bytes = trace.to_vec(alloc)?;
    if let Some(place) = bytes.get_mut(at) {
        *place = u8::try_from(byte).unwrap_or(0);
    }
    bytes.truncate(len);
    Ok(bytes)
}

#[test]
fn damaged_traces_are_refused_or_stop_where_they_differ(rt: HostRuntime) -> Result<(), Fail> {
    let (_, _, trace) = run_over(rt.alloc(), &mut MemoryNet::new(rt.alloc()))?;
    for line in DAMAGED.lines() {
        let mut cells = line.split('|');
        let words = cells.next().unwrap_or("");
        let bytes = damaged(rt.alloc(), trace.as_slice(), cells.next().unwrap_or(""))?;
        let mut net = MemoryNet::new(rt.alloc());
        let (status, out, _) = call_over(rt.alloc(), words, bytes, &mut net)?;
        let code = cells.next().unwrap_or("").parse::<u8>().unwrap_or(99);
        assert_eq!(rt; status.code(), code, "{line}");
        let text = bytes_of(rt.alloc(), cells.next().unwrap_or(""))?;
        assert!(rt; out == text, "{line}");
    }
    Ok(())
}

#[test]
fn a_slave_without_its_answer_does_not_conform(rt: HostRuntime) -> Result<(), Fail> {
    let (_, _, trace) = run_over(rt.alloc(), &mut MemoryNet::new(rt.alloc()))?;
    let mut without = trace
        .as_slice()
        .get(..268)
        .unwrap_or(&[])
        .to_vec(rt.alloc())?;
    without.extend_from_slice(trace.as_slice().get(287..).unwrap_or(&[]))?;
    let mut net = MemoryNet::new(rt.alloc());
    let (status, out, _) = call_over(rt.alloc(), "conform count", without, &mut net)?;
    assert_eq!(rt; status, Status::Differs);
    assert!(rt; out.as_slice() == b"bad entry 7 MISSING\n".as_slice());
    Ok(())
}

#[test]
fn a_fault_of_the_network_writes_nothing(rt: HostRuntime) -> Result<(), Fail> {
    let mut net = MemoryNet::failing(rt.alloc(), NetCall::Send, 3);
    let (status, out, trace) = run_over(rt.alloc(), &mut net)?;
    assert_eq!(rt; status, Status::NetFault);
    assert!(rt; out.is_empty() && trace.is_empty());
    Ok(())
}

/// A datagram of at most 30 bytes for the master, from this port.
fn gram_from(port: u16, bytes: &[u8]) -> ScriptGram
    requires { length bytes.now ≤ 30 }
    ensures { length result.bytes ≤ 1025 }
{
    ScriptGram {
        at: Address {
            ip: 2_130_706_433,
            port: 9_000,
        },
        from: Address {
            ip: 2_130_706_433,
            port,
        },
        bytes: Bytes::short(bytes),
    }
}

/// A script for the master: a datagram that says nothing, and a refusal of the first request.
fn refusals(alloc: Global, port: u16) -> Result<Vec<ScriptGram>, Fail>
    ensures { IfOk result (λ grams. AllFit grams.items) }
{
    let mut grams = Vec::new(alloc);
    grams.push(gram_from(port, b"\xff"))?;
    grams.push(gram_from(port, b"\xb1\x00\x00\x01\x00\x00\x02\x00"))?;
    Ok(grams)
}

#[test]
fn only_the_slave_is_answered_for(rt: HostRuntime) -> Result<(), Fail> {
    let cases = [
        (
            9_001,
            b"failed slave 1 phase 1 Refused seq 0 code 2\n".as_slice(),
        ),
        (9_100, b"failed slave 1 phase 1 NoAnswer seq 0\n".as_slice()),
    ];
    for (port, text) in cases {
        let mut net = ScriptNet::new(rt.alloc(), refusals(rt.alloc(), port)?);
        let (status, out, _) = run_over(rt.alloc(), &mut net)?;
        assert_eq!(rt; status, Status::RunFailed);
        assert!(rt; out.as_slice() == text);
    }
    Ok(())
}
