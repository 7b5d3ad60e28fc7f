//! Reading a trace.

ghost use Rattle.std.specs.Prelude.{◌≡◌, ◌++◌, ℕ, List, IfOk, IfErr};
ghost use Rattle.std.specs.Result.{IsOkAnd};
ghost use Rattle.dcp_ends.specs.declared.entries.LogEntry.{LogEntry};
ghost use Rattle.dcp_record.specs.Traces.{form, IsTrace};
ghost use Rattle.dcp_record.specs.Refusals.{HeaderRefused, TraceRefusal};
ghost use Rattle.dcp_record.specs.Cuts.{IsHead};

use crate::faults::{TraceFault, TraceWhy};
use crate::logs::{Entries, cut_entries};
use crate::numbers_in::cut_u32;
use crate::writers::FORM;

/// Where the hosted ends begin.
const HOSTED_AT: usize = 5;

/// The first number of hosted ends that names more than the master and 16 slaves.
const HOSTED_END: u32 = 131_072;

/// A trace that was read.
#[derive(Drop)]
pub struct Trace<'a> {
    /// Which ends were hosted: bit 0 for the master, bit s for slave s.
    pub hosted: u32,
    /// The text of the scenario, a part of the bytes that were read.
    pub scenario: &'a [u8],
    /// The log, in the bytes that were read.
    pub entries: Entries<'a>,
}

/// What stands before the entries.
#[derive(Clone, Copy)]
struct Head<'a> {
    hosted: u32,
    scenario: &'a [u8],
}

/// Reads the trace of a run. It takes no memory: what is read stands in the bytes.
pub fn read_record(bytes: &[u8]) -> Result<Trace<'_>, TraceFault>
    ensures ok { IfOk result (λ trace. IsTrace bytes.now trace.hosted trace.scenario.now trace.entries) }

    // A trace is read as what it is.
    ensures only { (hosted : ℕ) (scenario : List ℕ) (entries : List LogEntry) → IsTrace bytes.now hosted scenario entries
        → IsOkAnd result (λ trace. (trace.hosted ≡ hosted) × (trace.scenario.now ≡ scenario) × (trace.entries ≡ entries)) }

    // Else the bytes are refused.
    ensures err { IfErr result (λ fault. TraceRefusal bytes.now fault.at fault.why) }
{
    let (head, rest) = match cut_head(bytes) {
        Ok(cut) => cut,
        Err(at) => {
            return Err(TraceFault {
                at: at as u64,
                why: TraceWhy::Header,
            });
        }
    };
    let entries = cut_entries(bytes.len() - rest.len(), rest)?;
    Ok(Trace {
        hosted: head.hosted,
        scenario: head.scenario,
        entries,
    })
}

/// The header with the scenario's text, and what is left; or where the header is refused.
fn cut_head(bytes: &[u8]) -> Result<(Head<'_>, &[u8]), usize>
    ensures ok { IfOk result (λ cut. IsHead bytes.now cut.0.hosted cut.0.scenario.now cut.1.now) }
    ensures err { IfErr result (λ at. HeaderRefused bytes.now at) }
{
    let after_form = cut_form(bytes)?;
    let Some((hosted, after_hosted)) = cut_u32(after_form) else {
        return Err(bytes.len());
    };
    if hosted >= HOSTED_END {
        return Err(HOSTED_AT);
    }
    let Some((size, after_size)) = cut_u32(after_hosted) else {
        return Err(bytes.len());
    };
    let size = size as usize;
    if after_size.len() < size {
        return Err(bytes.len());
    }
    let (scenario, rest) = after_size.split_at(size);
    Ok((Head { hosted, scenario }, rest))
}

/// What is left behind the form; or where the form is refused.
fn cut_form(bytes: &[u8]) -> Result<&[u8], usize>
    ensures ok { IfOk result (λ rest. bytes.now ≡ form ++ rest.now) }
    ensures err { IfErr result (λ at. HeaderRefused bytes.now at) }
{
    for at in 0..bytes.len().min(FORM.len()) {
        if bytes[at] != FORM[at] {
            return Err(at);
        }
    }
    if bytes.len() < FORM.len() {
        return Err(bytes.len());
    }
    Ok(&bytes[FORM.len()..])
}
