//! The objects in memory follow the lists that they were made with, call by call.

use dcp_io::{MemorySink, MemorySource, Read, Sink, Source, Written};
use std::test::Fail;

#[test]
fn a_source_in_memory_follows_its_lists(rt: HostRuntime) -> Result<(), Fail> {
    let alloc = rt.alloc();
    let bytes = b"abcdefg".to_vec(alloc)?;
    let mut source = MemorySource::new(bytes, [2, 9].to_vec(alloc)?, [2].to_vec(alloc)?);
    let mut room = [0u8; 4];
    let wanted = [
        (Read::Bytes(2), b"ab\0\0"),
        (Read::Failed, b"ab\0\0"),
        (Read::Bytes(4), b"cdef"),
        (Read::Bytes(1), b"gdef"),
        (Read::End, b"gdef"),
    ];
    for (read, bytes) in wanted {
        assert_eq!(rt; source.read(&mut room), read);
        assert!(rt; room == *bytes);
    }
    Ok(())
}

#[test]
fn a_sink_in_memory_follows_its_list_and_its_room(rt: HostRuntime) -> Result<(), Fail> {
    let alloc = rt.alloc();
    let mut sink = MemorySink::new([0; 3].to_vec(alloc)?, [1].to_vec(alloc)?);
    for written in [
        Written::Failed,
        Written::Wrote(2),
        Written::Wrote(1),
        Written::Failed,
    ] {
        assert_eq!(rt; sink.write(b"xy"), written);
    }
    assert!(rt; sink.written() == b"xyx".as_slice());
    Ok(())
}
