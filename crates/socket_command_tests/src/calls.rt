//! A call of a command over sockets, over objects in memory.

use commands::{Status, Words};
use dcp_io::{MemorySink, MemorySource};
use dcp_net::{Net, Ready};
use socket_commands::{is_live, live_words};
use std::alloc::Global;
use std::sync::Wait;
use std::test::Fail;

/// One slave that counts its steps, of which three are run. `/` stands for a line feed.
pub(crate) const COUNTER: &str =
    "steps 3/master 127.0.0.1 9000/slave count/uuid 00000000-0000-0000-0000-000000000001/address 127.0.0.1 9001/model counter 1000/output 1 uint32/";

/// The same slave, which takes its master for lost after one quiet turn.
pub(crate) const IMPATIENT: &str =
    "steps 3/master 127.0.0.1 9000/slave count/uuid 00000000-0000-0000-0000-000000000001/address 127.0.0.1 9001/model counter 1000/heartbeat 1/output 1 uint32/";

/// What came of a call.
#[derive(Drop)]
pub(crate) struct Came {
    pub(crate) is_live: bool,
    pub(crate) status: Status,
    pub(crate) out: Vec<u8>,
    pub(crate) trace: Vec<u8>,
}

/// The text of a cell, in which `/` stands for a line feed.
pub(crate) fn text_of(alloc: Global, cell: &str) -> Result<Vec<u8>, Fail> {
    let mut bytes = Vec::new(alloc);
    for byte in cell.as_bytes() {
        bytes.push(if *byte == b'/' { b'\n' } else { *byte })?;
    }
    Ok(bytes)
}

/// A sink that takes this many bytes.
fn sink_of(alloc: Global, size: usize) -> Result<MemorySink, Fail> {
    let mut room = Vec::new(alloc);
    for _ in 0..size {
        room.push(0)?;
    }
    Ok(MemorySink::new(room, Vec::new(alloc)))
}

/// Calls the program with these words on this text.
pub(crate) fn call<W: Wait, N: Net, P: Ready>(
    rt: &W,
    alloc: Global,
    words: &str,
    input: &str,
    net: &mut N,
    ready: &mut P,
) -> Result<Came, Fail> {
    let mut given = Words::new(alloc);
    for word in words.split_whitespace() {
        given.push(alloc, word)?;
    }
    let input = text_of(alloc, input)?;
    let mut source = MemorySource::new(input, Vec::new(alloc), Vec::new(alloc));
    let mut out = sink_of(alloc, 1_024)?;
    let mut trace = sink_of(alloc, 65_536)?;
    let status = live_words(
        rt,
        alloc,
        &given,
        &mut source,
        &mut out,
        &mut trace,
        net,
        ready,
    );
    Ok(Came {
        is_live: is_live(given.as_slice()),
        status,
        out: out.written().to_vec(alloc)?,
        trace: trace.written().to_vec(alloc)?,
    })
}
