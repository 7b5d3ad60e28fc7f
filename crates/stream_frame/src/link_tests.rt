use crate::inlets::{Inlet, Inward};
use crate::links::{Flushed, Link, Posted};
use dcp_io::MemorySink;
use dcp_types::{Address, OutOfMemory};
use std::alloc::Global;

/// The greeting of 127.0.0.1 at port 9001, and an acknowledgement as a frame.
const STREAM: [u8; 14] = [1, 0, 0, 0x7f, 0x29, 0x23, 4, 0, 0, 0, 0xb0, 2, 0, 1];

/// The acknowledgement.
const MESSAGE: [u8; 4] = [0xb0, 2, 0, 1];

const SENDER: Address = Address {
    ip: 2_130_706_433,
    port: 9_001,
};

/// A link whose sink has room for so many bytes, and fails at its first write.
fn link_of(alloc: Global, size: usize) -> Result<Link<MemorySink>, OutOfMemory> {
    let mut room = Vec::new(alloc);
    for _ in 0..size {
        room.push(0)?;
    }
    let mut failing = Vec::new(alloc);
    failing.push(1)?;
    Link::new(alloc, SENDER, MemorySink::new(room, failing))
}

#[test]
fn a_message_goes_over_a_connection(rt: HostRuntime) -> Result<(), OutOfMemory> {
    let mut link = link_of(rt.alloc(), 14)?;
    assert_eq!(rt; link.post(&MESSAGE), Posted::Taken);
    assert_eq!(rt; link.flush(), Flushed::Failed);
    assert_eq!(rt; link.flush(), Flushed::Empty);
    assert_eq!(rt; link.sink().written(), STREAM.as_slice());
    let mut inlet = Inlet::new(rt.alloc())?;
    for i in 0..14usize {
        assert_eq!(rt; inlet.next_gram(), Inward::NotYet);
        assert_eq!(rt; inlet.feed(&[STREAM[i]]), 1);
    }
    assert_eq!(rt; inlet.next_gram(), Inward::Gram { from: SENDER });
    assert_eq!(rt; inlet.gram(), MESSAGE.as_slice());
    assert_eq!(rt; inlet.next_gram(), Inward::NotYet);
    Ok(())
}

#[test]
fn a_link_is_full(rt: HostRuntime) -> Result<(), OutOfMemory> {
    let mut link = link_of(rt.alloc(), 1)?;
    for i in 0..65u32 {
        let posted = link.post(&[7; 1_024]);
        let wanted = if i < 63 { Posted::Taken } else { Posted::Full };
        assert_eq!(rt; posted, wanted);
    }
    assert!(rt; link.is_waiting());
    Ok(())
}
