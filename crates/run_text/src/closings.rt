//! The line after the rows.

ghost use Rattle.std.specs.Prelude.{◌≡◌, ◌≤◌, length};
ghost use Rattle.run_text.specs.Closings.{cause_text, named, reference_line, report_line, run_end};
ghost use Rattle.run_text.specs.Puts.{Puts};

use dcp_io::{Sink, Spool};
use itoa::Buffer;
use lockstep::RefFault;
use master_spec::{Cause, Report};

/// Puts a word, and a number behind it.
fn put_named<K: Sink>(spool: &mut Spool, out: &mut K, name: &str, number: u32)
    requires { length name.now ≤ 4096 }
    ensures { Puts (K.written out.old) (K.written out.new) (K.faults out.old) (K.faults out.new) spool.old spool.new (named name.now number) }
{
    let mut digits = Buffer::new();
    spool.put(out, name.as_bytes());
    spool.put(out, digits.format(number).as_bytes());
}

/// Puts the line of a reference: `finished` and the number of steps, or the first fault.
pub fn put_reference_line<K: Sink>(
    spool: &mut Spool,
    out: &mut K,
    steps: u32,
    fault: Option<RefFault>,
)
    ensures { Puts (K.written out.old) (K.written out.new) (K.faults out.old) (K.faults out.new) spool.old spool.new (reference_line steps fault) }
{
    match fault {
        None => {
            put_named(spool, out, "finished ", steps);
            spool.put(out, b"\n");
        }
        Some(fault) => {
            put_named(spool, out, "fault slave ", u32::from(fault.slave));
            put_named(spool, out, " step ", fault.step);
            put_named(spool, out, " code ", u32::from(fault.code.code()));
            put_run(spool, out, fault.run);
        }
    }
}

/// Puts the end of a fault's line, which names its run unless it is the first.
fn put_run<K: Sink>(spool: &mut Spool, out: &mut K, run: u32)
    ensures { Puts (K.written out.old) (K.written out.new) (K.faults out.old) (K.faults out.new) spool.old spool.new (run_end run) }
{
    if 1 < run {
        put_named(spool, out, " run ", run);
    }
    spool.put(out, b"\n");
}

/// Puts the line of a report: `finished` and the number of steps, or the slave that failed, its phase
/// and the cause.
pub fn put_report_line<K: Sink>(spool: &mut Spool, out: &mut K, report: Report)
    ensures { Puts (K.written out.old) (K.written out.new) (K.faults out.old) (K.faults out.new) spool.old spool.new (report_line report) }
{
    match report {
        Report::Finished { steps } => put_named(spool, out, "finished ", steps),
        Report::Failed {
            slave,
            phase,
            cause,
        } => {
            put_named(spool, out, "failed slave ", u32::from(slave));
            put_named(spool, out, " phase ", phase);
            put_cause(spool, out, cause);
        }
    }
    spool.put(out, b"\n");
}

/// Puts why a conversation ended: its name, and its numbers behind their names.
fn put_cause<K: Sink>(spool: &mut Spool, out: &mut K, cause: Cause)
    ensures { Puts (K.written out.old) (K.written out.new) (K.faults out.old) (K.faults out.new) spool.old spool.new (cause_text cause) }
{
    match cause {
        Cause::NoAnswer { seq } => put_named(spool, out, " NoAnswer seq ", u32::from(seq)),
        Cause::Refused { seq, code } => {
            put_named(spool, out, " Refused seq ", u32::from(seq));
            put_named(spool, out, " code ", u32::from(code));
        }
        Cause::InputsMissing { seq, step } => {
            put_named(spool, out, " InputsMissing seq ", u32::from(seq));
            put_named(spool, out, " step ", step);
        }
        Cause::DataMissing { step } => put_named(spool, out, " DataMissing step ", step),
        Cause::Stuck { seq, state } => {
            put_named(spool, out, " Stuck seq ", u32::from(seq));
            put_named(spool, out, " state ", u32::from(state));
        }
        Cause::Faulted { seq, code } => {
            put_named(spool, out, " Faulted seq ", u32::from(seq));
            put_named(spool, out, " code ", u32::from(code));
        }
        Cause::Unexpected {
            seq,
            type_id,
            state,
        } => {
            put_named(spool, out, " Unexpected seq ", u32::from(seq));
            put_named(spool, out, " type ", u32::from(type_id));
            put_named(spool, out, " state ", u32::from(state));
        }
    }
}
