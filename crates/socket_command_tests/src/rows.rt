//! The worked rows of the commands over the network in memory.

use crate::calls::{COUNTER, Came, call, text_of};
use dcp_net::NoWait;
use net_world::MemoryNet;
use std::alloc::Global;
use std::sync::Wait;
use std::test::Fail;

/// An amplifier and an integrator, each wired to the other. `/` stands for a line feed.
const LOOP: &str =
    "steps 5/master 127.0.0.1 9000/slave amp/uuid 00000000-0000-0000-0000-000000000001/address 127.0.0.1 9001/model gain 131072/input 1 int32/output 2 int32/slave acc/uuid 00000000-0000-0000-0000-000000000002/address 127.0.0.1 9002/model integrator 10 32768/input 1 int32/output 2 int32/wire amp 0 acc 0/wire acc 0 amp 0/";

/// What comes of a call over the network in memory, with no wait.
fn came_of<W: Wait>(rt: &W, alloc: Global, words: &str, input: &str) -> Result<Came, Fail> {
    let mut net = MemoryNet::new(alloc);
    call(rt, alloc, words, input, &mut net, &mut NoWait)
}

#[test]
fn the_ends_that_the_words_name_are_run(rt: HostRuntime) -> Result<(), Fail> {
    let rows = [
        (
            "live",
            LOOP,
            0u8,
            "0 0 10/1 20 10/2 20 20/3 40 30/4 60 50/5 100 80/finished 5/",
            b"DCPR\x01\x07\0\0\0".as_slice(),
        ),
        (
            "live",
            COUNTER,
            0,
            "0 0/1 1/2 2/3 3/finished 3/",
            b"DCPR\x01\x03\0\0\0".as_slice(),
        ),
        (
            "master",
            COUNTER,
            3,
            "failed slave 1 phase 1 NoAnswer seq 0/",
            b"DCPR\x01\x01\0\0\0".as_slice(),
        ),
    ];
    for (words, input, status, out, head) in rows {
        let came = came_of(&rt, rt.alloc(), words, input)?;
        assert_eq!(rt; came.status.code(), status);
        assert!(rt; came.out == text_of(rt.alloc(), out)?, "{out}");
        assert!(rt; came.trace.as_slice().starts_with(head));
        assert!(rt; came.is_live);
    }
    Ok(())
}

#[test]
fn what_is_refused_leaves_a_line_and_no_trace(rt: HostRuntime) -> Result<(), Fail> {
    let rows = [
        ("slave nobody", COUNTER, 2u8, "input: line 0 UNKNOWN_SLAVE/"),
        (
            "slave count",
            "steps 3/master 127.0.0.1 9000/slave 7/",
            2,
            "input: line 3 BAD_NAME/",
        ),
        ("slave", COUNTER, 1, "usage/"),
        ("slave count count", COUNTER, 1, "usage/"),
        ("live count", COUNTER, 1, "usage/"),
        ("slave -x", COUNTER, 1, "usage/"),
        ("slave 9x", COUNTER, 1, "usage/"),
        ("Master", COUNTER, 1, "usage/"),
        ("run", COUNTER, 1, "usage/"),
        ("", COUNTER, 1, "usage/"),
    ];
    for (words, input, status, out) in rows {
        let came = came_of(&rt, rt.alloc(), words, input)?;
        assert_eq!(rt; came.status.code(), status, "{words}");
        assert!(rt; came.out == text_of(rt.alloc(), out)?, "{words}");
        assert!(rt; came.trace.is_empty());
        assert_eq!(rt; came.is_live, status == 2, "{words}");
    }
    Ok(())
}
