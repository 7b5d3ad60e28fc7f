//! Traces, byte for byte: one that is written, bytes that are read or refused, and a trace with each of its
//! bytes damaged.

ghost use Rattle.std.specs.Prelude.{◌≡◌, [], ◌∷◌, ◌++◌, All, IfOk, OnOk};
ghost use Rattle.dcp_ends.specs.Logs.{IsInRange};
ghost use Rattle.dcp_record.specs.EntryRefs.{entry_told};
ghost use Rattle.dcp_record.specs.Traces.{IsRecordable, IsTrace};

use dcp_ends::LogEntry;
use dcp_io::MemorySink;
use dcp_record::{
    Entries, EntryRef, RunLog, SinkFault, Trace, read_record, traces_read_or_are_refused,
    write_record, written_and_read_back,
};
use dcp_types::Address;
use std::alloc::{AllocError, Global};
use std::test::Fail;

/// A trace of 59 bytes: the master and slave 1 are hosted, the scenario is one letter, and the log has an
/// entry of each kind.
const TRACE: &str =
    "4443505201030000000100000061030100007f2823010100007f28230100007f2923010078020100007f29230100007f28230000040100007f2923";

/// Bytes in hexadecimal, and `reads` or where and why they are refused.
const BYTES: &str = "\
|0:HEADER
44435052010000000000000000|reads
4443505201000000000000000005|13:TAG
44435052010000000000000000010000000000000000000000000000|26:LENGTH
44435052010000000000000000030100|16:SHORT
444350|3:HEADER
444350520100000200|5:HEADER
444350520100000100|9:HEADER
44435052010000010001000000|13:HEADER";

/// A line for each byte of the trace: what is said of the bytes before it, and of the trace with the byte
/// one higher, one lower, and with its highest bit turned.
const DAMAGED: &str = "\
0:HEADER 0:HEADER 0:HEADER 0:HEADER
1:HEADER 1:HEADER 1:HEADER 1:HEADER
2:HEADER 2:HEADER 2:HEADER 2:HEADER
3:HEADER 3:HEADER 3:HEADER 3:HEADER
4:HEADER 4:HEADER 4:HEADER 4:HEADER
5:HEADER reads reads reads
6:HEADER reads reads reads
7:HEADER reads 5:HEADER 5:HEADER
8:HEADER 5:HEADER 5:HEADER 5:HEADER
9:HEADER 31:TAG 13:TAG 59:HEADER
10:HEADER 59:HEADER 59:HEADER 59:HEADER
11:HEADER 59:HEADER 59:HEADER 59:HEADER
12:HEADER 59:HEADER 59:HEADER 59:HEADER
13:HEADER reads reads reads
reads reads 59:SHORT 14:TAG
15:SHORT reads reads reads
16:SHORT reads reads reads
17:SHORT reads reads reads
18:SHORT reads reads reads
19:SHORT reads reads reads
20:SHORT reads reads reads
reads reads 21:TAG 21:TAG
22:SHORT reads reads reads
23:SHORT reads reads reads
24:SHORT reads reads reads
25:SHORT reads reads reads
26:SHORT reads reads reads
27:SHORT reads reads reads
28:SHORT reads reads reads
29:SHORT reads reads reads
30:SHORT reads reads reads
31:SHORT reads reads reads
32:SHORT reads reads reads
33:SHORT reads reads reads
34:SHORT 59:SHORT 34:LENGTH 59:SHORT
35:SHORT 59:SHORT 34:LENGTH 34:LENGTH
36:SHORT reads reads reads
reads 57:LENGTH 50:LENGTH 37:TAG
38:SHORT reads reads reads
39:SHORT reads reads reads
40:SHORT reads reads reads
41:SHORT reads reads reads
42:SHORT reads reads reads
43:SHORT reads reads reads
44:SHORT reads reads reads
45:SHORT reads reads reads
46:SHORT reads reads reads
47:SHORT reads reads reads
48:SHORT reads reads reads
49:SHORT reads reads reads
50:SHORT 59:SHORT 59:SHORT 59:SHORT
51:SHORT 59:SHORT 50:LENGTH 50:LENGTH
reads 52:TAG reads 52:TAG
53:SHORT reads reads reads
54:SHORT reads reads reads
55:SHORT reads reads reads
56:SHORT reads reads reads
57:SHORT reads reads reads
58:SHORT reads reads reads";

/// Puts an entry behind a log.
fn put(log: &mut RunLog, entry: &EntryRef<'_>) -> Result<(), AllocError>
    requires { IsInRange (entry_told entry.now) }
    ensures { OnOk result (log.new.entries ≡ log.old.entries ++ entry_told entry.now ∷ []) }
{
    log.make_room()?;
    match entry {
        EntryRef::Sent { from, to, bytes } => log.push_sent(*from, *to, bytes),
        EntryRef::Got { at, from, bytes } => log.push_got(*at, *from, bytes),
        EntryRef::Idle { at } => log.push_idle(*at),
        EntryRef::Turn { at } => log.push_turn(*at),
    }
    Ok(())
}

/// The same log, in memory of its own.
fn log_again(alloc: Global, entries: &Entries<'_>) -> Result<RunLog, AllocError>
    requires { All IsRecordable entries.now }
    ensures { IfOk result (λ log. log.entries ≡ entries.now) }
{
    let mut log = RunLog::new(alloc);
    let mut cursor = entries.cursor();
    'entries: while let Some(entry) = cursor.next() {
        put(&mut log, &entry)?;
    }
    Ok(log)
}

/// Whether the trace is written as these bytes.
fn is_written(alloc: Global, trace: &Trace<'_>, bytes: &[u8]) -> Result<bool, Fail>
    requires { IsTrace bytes.now trace.now.hosted trace.now.scenario.now trace.now.entries }
{
    let mut sink = MemorySink::new([0; 64].to_vec(alloc)?, Vec::new(alloc));
    let log = log_again(alloc, &trace.entries)?;
    let written = write_record(trace.hosted, trace.scenario, &log, &mut sink);
    Ok(written.is_ok() && sink.written() == bytes)
}

/// What is said of bytes: `reads`, or the place and the cause.
fn told(alloc: Global, bytes: &[u8]) -> Result<String, Fail> {
    match read_record(bytes) {
        Ok(trace) => {
            let word = if is_written(alloc, &trace, bytes)? {
                "reads"
            } else {
                "differs"
            };
            Ok(String::from_str(alloc, word)?)
        }
        Err(fault) => {
            let at = fault.at;
            let word = fault.why.word();
            Ok(format!(in alloc; "{at}:{word}")?)
        }
    }
}

#[test]
fn a_trace_of_two_entries(rt: HostRuntime) -> Result<(), Fail> {
    let alloc = rt.alloc();
    let at = Address {
        ip: 0x7f00_0001,
        port: 9000,
    };
    let mut log = RunLog::new(alloc);
    log.make_room()?;
    log.push_idle(at);
    log.make_room()?;
    log.push_got(at, at, b"x");
    let wanted =
        b"DCPR\x01\x03\0\0\0\x02\0\0\0ab\x03\x01\0\0\x7f\x28\x23\x02\x01\0\0\x7f\x28\x23\x01\0\0\x7f\x28\x23\x01\0x";
    let mut sink = MemorySink::new([0; 64].to_vec(alloc)?, Vec::new(alloc));
    assert_eq!(rt; write_record(3, b"ab", &log, &mut sink), Ok(()));
    assert!(rt; sink.written() == wanted.as_slice());
    let mut short = MemorySink::new([0; 5].to_vec(alloc)?, Vec::new(alloc));
    assert_eq!(rt;
        write_record(3, b"ab", &log, &mut short),
        Err(SinkFault::Failed)
    );
    assert!(rt; short.written() == &wanted[..5]);
    traces_read_or_are_refused();
    Ok(())
}

#[test]
fn an_entry_reads_back(rt: HostRuntime) -> Result<(), Fail> {
    let alloc = rt.alloc();
    let at = Address {
        ip: 0x7f00_0001,
        port: 9000,
    };
    let entries = [LogEntry::Turn { at }];
    let mut log = RunLog::new(alloc);
    log.make_room()?;
    log.push_turn(at);
    let mut sink = MemorySink::new([0; 64].to_vec(alloc)?, Vec::new(alloc));
    if write_record(1, b"ab", &log, &mut sink).is_err() {
        return Err(Fail::new("the trace is not written"));
    }
    let back = written_and_read_back(1, b"ab", entries.as_slice(), sink.written());
    assert_eq!(rt; (back.hosted, back.scenario), (1, b"ab".as_slice()));
    assert_eq!(rt; back.entries.len(), 1);
    let mut cursor = back.entries.cursor();
    assert!(rt; matches!(cursor.next(), Some(EntryRef::Turn { at: place }) if place == at));
    assert!(rt; cursor.next().is_none());
    let Err(fault) = read_record(b"DCP") else {
        return Err(Fail::new("a front of the form reads"));
    };
    let said = format!(in alloc; "{fault}")?;
    assert_eq!(rt; said.as_str(), "byte 3: HEADER");
    Ok(())
}

#[test]
fn bytes_read_or_are_refused(rt: HostRuntime) -> Result<(), Fail> {
    let alloc = rt.alloc();
    for line in BYTES.lines() {
        let (digits, answer) = line.split_once('|').unwrap_or((line, ""));
        let bytes = hex::decode(alloc, digits)?;
        assert_eq!(rt; told(alloc, &bytes)?.as_str(), answer, "{line}");
    }
    Ok(())
}

#[test]
fn damaged_traces(rt: HostRuntime) -> Result<(), Fail> {
    let alloc = rt.alloc();
    let trace = hex::decode(alloc, TRACE)?;
    let mut front = Vec::new(alloc);
    let mut left = trace.as_slice();
    for line in DAMAGED.lines() {
        let [byte, rest @ ..] = left else {
            break;
        };
        let mut answers = line.split(' ');
        assert_eq!(rt;
            told(alloc, &front)?.as_str(),
            answers.next().unwrap_or(""),
            "{line}"
        );
        for other in [byte.wrapping_add(1), byte.wrapping_sub(1), *byte ^ 128] {
            let mut damaged = front.to_vec(alloc)?;
            damaged.push(other)?;
            damaged.extend_from_slice(rest)?;
            assert_eq!(rt;
                told(alloc, &damaged)?.as_str(),
                answers.next().unwrap_or(""),
                "{line}"
            );
        }
        front.push(*byte)?;
        left = rest;
    }
    assert!(rt; left.is_empty());
    assert_eq!(rt; told(alloc, &trace)?.as_str(), "reads");
    Ok(())
}
