//! What holds of the bytes of all traces.

ghost use Rattle.std.specs.Prelude.{◌≡◌, ◌<◌, ◌^◌, length};
ghost use Rattle.std.specs.List.{All};
ghost use Rattle.dcp_record.specs.Traces.{IsRecordable, trace_bytes};
ghost use Rattle.dcp_record.specs.Laws.{ReadOrRefused, NeverBothOfTrace, TracesDiffer, OneTraceRefusal};

use crate::readers::{Trace, read_record};
use dcp_ends::LogEntry;

/// Bytes are the one trace that has them, or are refused for one cause at one place.
pub fn traces_read_or_are_refused()
    ensures either { ReadOrRefused }
    ensures never_both { NeverBothOfTrace }
    ensures one_trace { TracesDiffer }
    ensures one_refusal { OneTraceRefusal }
{}

/// Reads what `write_record` wrote of these, all of it, to an empty sink: they come back as they were.
pub fn written_and_read_back<'a>(
    hosted: u32,
    scenario: &[u8],
    entries: &[LogEntry],
    written: &'a [u8],
) -> Trace<'a>
    requires hosted { hosted < 2 ^ 17 }
    requires scenario { length scenario.now < 2 ^ 32 }
    requires entries { All IsRecordable entries.now }
    requires written { written.now ≡ trace_bytes hosted scenario.now entries.now }
    ensures hosted { result.hosted ≡ hosted }
    ensures scenario { result.scenario.now ≡ scenario.now }
    ensures entries { result.entries ≡ entries.now }
{
    let Ok(trace) = read_record(written) else {
        unreachable!();
    };
    trace
}
