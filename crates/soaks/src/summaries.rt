//! What is written of a run.

ghost use Rattle.std.specs.Prelude.{◌≡◌, ◌≤◌, List, length, reverse};
ghost use Rattle.dcp_io.specs.Outputs.{Delivers};
ghost use Rattle.dcp_ends.specs.Events.{Event};
ghost use Rattle.master_spec.specs.Course.{course};
ghost use Rattle.master_core.specs.Standing.{StandsAfter, core_setup};
ghost use Rattle.run_text.specs.Closings.{named};
ghost use Rattle.run_text.specs.Puts.{Puts};
ghost use Rattle.soaks.specs.Summaries.{first_line, sum_text, summary};

use crate::sums::sum_of_rows;
use dcp_io::{Delivery, Sink, Spool};
use itoa::Buffer;
use master_core::MasterCore;
use master_spec::Report;
use run_text::put_report_line;

/// Puts a word, and a number behind it.
fn put_named<K: Sink>(spool: &mut Spool, out: &mut K, name: &str, number: u32)
    requires { length name.now ≤ 4096 }
    ensures { Puts (K.written out.old) (K.written out.new) (K.faults out.old) (K.faults out.new) spool.old spool.new (named name.now number) }
{
    let mut digits = Buffer::new();
    spool.put(out, name.as_bytes());
    spool.put(out, digits.format(number).as_bytes());
}

/// Puts the line of a sum.
fn put_sum<K: Sink>(spool: &mut Spool, out: &mut K, sum: i128)
    ensures { Puts (K.written out.old) (K.written out.new) (K.faults out.old) (K.faults out.new) spool.old spool.new (sum_text sum) }
{
    let mut digits = Buffer::new();
    spool.put(out, b"sum ");
    spool.put(out, digits.format(sum).as_bytes());
    spool.put(out, b"\n");
}

/// Puts the first line: the number, its slaves and steps, and the line of the report.
fn put_first<K: Sink>(spool: &mut Spool, out: &mut K, number: u32, report: Report)
    ensures { Puts (K.written out.old) (K.written out.new) (K.faults out.old) (K.faults out.new) spool.old spool.new (first_line number report) }
{
    put_named(spool, out, "soak ", number);
    put_named(spool, out, " slaves ", 2 + number % 15);
    put_named(spool, out, " steps ", 200 + number % 301);
    spool.put(out, b" ");
    put_report_line(spool, out, report);
}

/// Writes the two lines of a run of the number's scenario: the number, the slaves, the steps and the report,
/// and the sum of all values of all rows that the master counted.
pub fn write_summary<K: Sink>(
    out: &mut K,
    number: u32,
    master: &MasterCore,
    report: Report,
) -> Delivery
    ensures { (events : List Event) → StandsAfter master.now events → Delivers (K.written out.old) (K.written out.new) (K.faults out.old) (K.faults out.new)
        (summary number report (course (core_setup master.now) (reverse events)).rows) result }
{
    let sum = sum_of_rows(master);
    let mut spool = Spool::new();
    put_first(&mut spool, out, number, report);
    put_sum(&mut spool, out, sum);
    spool.finish(out)
}
