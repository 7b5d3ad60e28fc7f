//! One end alone, to which a script sends.

ghost use Rattle.std.specs.Prelude.{◌≤◌, length, IfOk};
ghost use Rattle.dcp_net.specs.Scripts.{AllFit};

use crate::calls::{COUNTER, Came, IMPATIENT, call};
use commands::Status;
use dcp_ends::Bytes;
use dcp_net::{NoWait, ScriptGram, ScriptNet};
use dcp_types::Address;
use std::alloc::Global;
use std::sync::Wait;
use std::test::Fail;

/// The register of the slave with the identity 1, under the number 0.
const REGISTER: &[u8] = b"\x01\0\0\x01\0\0\0\0\0\0\0\0\0\0\0\0\0\0\0\0\x01\x02\x01\0";

/// A deregister under the number 1.
const DEREGISTER: &[u8] = b"\x02\x01\0\x01\x01";

/// The address of this port on this machine.
fn place_of(port: u16) -> Address {
    Address {
        ip: 2_130_706_433,
        port,
    }
}

/// A datagram of at most 30 bytes.
fn gram(from: u16, at: u16, bytes: &[u8]) -> ScriptGram
    requires { length bytes.now ≤ 30 }
    ensures { length result.bytes ≤ 1025 }
{
    ScriptGram {
        at: place_of(at),
        from: place_of(from),
        bytes: Bytes::short(bytes),
    }
}

/// What the master sends to a slave that it registers and then lets go.
fn session(alloc: Global) -> Result<Vec<ScriptGram>, Fail>
    ensures { IfOk result (λ grams. AllFit grams.items) }
{
    let mut grams = Vec::new(alloc);
    grams.push(gram(9_000, 9_001, REGISTER))?;
    grams.push(gram(9_000, 9_001, DEREGISTER))?;
    Ok(grams)
}

/// What the master sends to a slave that it registers and then leaves alone.
fn silence(alloc: Global) -> Result<Vec<ScriptGram>, Fail>
    ensures { IfOk result (λ grams. AllFit grams.items) }
{
    let mut grams = Vec::new(alloc);
    grams.push(gram(9_000, 9_001, REGISTER))?;
    Ok(grams)
}

/// A refusal of the master's first request, with the code 2.
fn refusal(alloc: Global) -> Result<Vec<ScriptGram>, Fail>
    ensures { IfOk result (λ grams. AllFit grams.items) }
{
    let mut grams = Vec::new(alloc);
    grams.push(gram(9_001, 9_000, b"\xff"))?;
    grams.push(gram(9_001, 9_000, b"\xb1\0\0\x01\0\0\x02\0"))?;
    Ok(grams)
}

/// What comes of a call over such a script, with no wait.
fn came_of<W: Wait>(
    rt: &W,
    alloc: Global,
    words: &str,
    input: &str,
    grams: Vec<ScriptGram>,
) -> Result<Came, Fail>
    requires { AllFit grams.items }
{
    let mut net = ScriptNet::new(alloc, grams);
    call(rt, alloc, words, input, &mut net, &mut NoWait)
}

#[test]
fn a_slave_runs_until_it_is_let_go(rt: HostRuntime) -> Result<(), Fail> {
    let came = came_of(
        &rt,
        rt.alloc(),
        "slave count",
        COUNTER,
        session(rt.alloc())?,
    )?;
    assert_eq!(rt; came.status, Status::Done);
    assert!(rt; came.out.as_slice() == b"slave count steps 0 state ALIVE\n".as_slice());
    assert!(rt;
        came.trace
            .as_slice()
            .starts_with(b"DCPR\x01\x02\0\0\0".as_slice())
    );
    Ok(())
}

#[test]
fn a_slave_with_a_fault_fails(rt: HostRuntime) -> Result<(), Fail> {
    let came = came_of(
        &rt,
        rt.alloc(),
        "slave count",
        IMPATIENT,
        silence(rt.alloc())?,
    )?;
    assert_eq!(rt; came.status, Status::RunFailed);
    assert!(rt;
        came.out.as_slice() == b"slave count steps 0 state ERROR_RESOLVED error 35\n".as_slice()
    );
    assert!(rt;
        came.trace
            .as_slice()
            .starts_with(b"DCPR\x01\x02\0\0\0".as_slice())
    );
    Ok(())
}

#[test]
fn a_master_hears_its_slave_refuse(rt: HostRuntime) -> Result<(), Fail> {
    let came = came_of(&rt, rt.alloc(), "master", COUNTER, refusal(rt.alloc())?)?;
    assert_eq!(rt; came.status, Status::RunFailed);
    assert!(rt; came.out.as_slice() == b"failed slave 1 phase 1 Refused seq 0 code 2\n".as_slice());
    assert!(rt;
        came.trace
            .as_slice()
            .starts_with(b"DCPR\x01\x01\0\0\0".as_slice())
    );
    Ok(())
}
