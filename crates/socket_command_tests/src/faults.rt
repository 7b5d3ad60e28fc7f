//! Networks and waits that fail.

use crate::calls::{COUNTER, call};
use commands::Status;
use dcp_net::{FailingWait, NoWait};
use net_world::{MemoryNet, NetCall};
use std::test::Fail;

#[test]
fn a_wait_that_fails_writes_nothing(rt: HostRuntime) -> Result<(), Fail> {
    for nth in 1..13u64 {
        let mut net = MemoryNet::new(rt.alloc());
        let came = call(
            &rt,
            rt.alloc(),
            "live",
            COUNTER,
            &mut net,
            &mut FailingWait::new(nth),
        )?;
        assert_eq!(rt; came.status, Status::NetFault, "{nth}");
        assert!(rt; came.out.is_empty() && came.trace.is_empty(), "{nth}");
    }
    Ok(())
}

#[test]
fn a_network_that_fails_writes_nothing(rt: HostRuntime) -> Result<(), Fail> {
    for (failing, nth) in [
        (NetCall::Begin, 1),
        (NetCall::Send, 1),
        (NetCall::Send, 9),
        (NetCall::Take, 1),
        (NetCall::Take, 12),
    ] {
        let mut net = MemoryNet::failing(rt.alloc(), failing, nth);
        let came = call(&rt, rt.alloc(), "live", COUNTER, &mut net, &mut NoWait)?;
        assert_eq!(rt; came.status, Status::NetFault, "{nth}");
        assert!(rt; came.out.is_empty() && came.trace.is_empty(), "{nth}");
    }
    Ok(())
}
