//! Writing a trace.

ghost use Rattle.std.specs.Prelude.{◌<◌, ◌^◌, length};
ghost use Rattle.dcp_record.specs.Puts.{Puts, Records};
ghost use Rattle.dcp_record.specs.Traces.{header_bytes, trace_bytes};

use crate::run_logs::RunLog;
use dcp_io::{Delivery, Sink, Spool};

/// The letters DCPR and the version.
pub const FORM: [u8; 5] = [68, 67, 80, 82, 1];

/// How many bytes of a text are put at a time.
const PIECE: usize = 4_096;

/// The trace was not written whole.
#[derive(Clone, Copy, Debug, PartialEq, Eq)]
pub enum SinkFault {
    /// A write failed, and a front of the trace was written.
    Failed,
}

/// Writes the trace of a run: which ends were hosted (bit 0 for the master, bit s for slave s), the text
/// of the scenario, and the log.
pub fn write_record<K: Sink>(
    hosted: u32,
    scenario: &[u8],
    log: &RunLog,
    sink: &mut K,
) -> Result<(), SinkFault>
    requires hosted { hosted < 2 ^ 17 }
    requires scenario { length scenario.now < 2 ^ 32 }
    ensures { Records (K.written sink.old) (K.written sink.new) (K.faults sink.old) (K.faults sink.new) (trace_bytes hosted scenario.now log.now.entries) result }
{
    let mut spool = Spool::new();
    put_header(&mut spool, sink, hosted, scenario.len() as u32);
    put_text(&mut spool, sink, scenario);
    put_text(&mut spool, sink, log.as_bytes());
    match spool.finish(sink) {
        Delivery::Whole => Ok(()),
        Delivery::Cut => Err(SinkFault::Failed),
    }
}

/// Puts the header.
fn put_header<K: Sink>(spool: &mut Spool, sink: &mut K, hosted: u32, len: u32)
    ensures { Puts (K.written sink.old) (K.written sink.new) (K.faults sink.old) (K.faults sink.new) spool.old spool.new (header_bytes hosted len) }
{
    spool.put(sink, &FORM);
    spool.put(sink, &hosted.to_le_bytes());
    spool.put(sink, &len.to_le_bytes());
}

/// Puts a text of any length.
fn put_text<K: Sink>(spool: &mut Spool, sink: &mut K, text: &[u8])
    ensures { Puts (K.written sink.old) (K.written sink.new) (K.faults sink.old) (K.faults sink.new) spool.old spool.new text.now }
{
    let mut at = 0;
    while at < text.len() {
        let end = text.len().min(at.saturating_add(PIECE));
        spool.put(sink, &text[at..end]);
        at = end;
    }
}
