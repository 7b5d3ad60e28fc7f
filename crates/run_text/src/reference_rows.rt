//! The rows of a run, printed one a line.

ghost use Rattle.std.specs.Prelude.{◌≡◌, ◌++◌, ℕ, codes, decimal};
ghost use Rattle.run_text.specs.Puts.{Puts};
ghost use Rattle.run_text.specs.Rows.{row_text, rows_text, spaced_value};

use dcp_io::{Sink, Spool};
use itoa::Buffer;
use lockstep::Rows;

/// Puts the number that a row begins with.
fn put_number<K: Sink>(spool: &mut Spool, out: &mut K, number: usize)
    ensures { Puts (K.written out.old) (K.written out.new) (K.faults out.old) (K.faults out.new) spool.old spool.new (decimal number) }
{
    let mut digits = Buffer::new();
    spool.put(out, digits.format(number).as_bytes());
}

/// Puts a value of a row behind a space.
fn put_value<K: Sink>(spool: &mut Spool, out: &mut K, value: &i128)
    ensures { Puts (K.written out.old) (K.written out.new) (K.faults out.old) (K.faults out.new) spool.old spool.new (spaced_value value.now) }
{
    let mut digits = Buffer::new();
    spool.put(out, b" ");
    spool.put(out, digits.format(*value).as_bytes());
}

/// Puts the end of a row's line.
fn put_row_end<K: Sink>(spool: &mut Spool, out: &mut K)
    ensures { Puts (K.written out.old) (K.written out.new) (K.faults out.old) (K.faults out.new) spool.old spool.new (codes "\n") }
{
    spool.put(out, b"\n");
}

/// Puts a row: its number, and its values behind single spaces, in decimal.
pub fn put_row<K: Sink>(spool: &mut Spool, out: &mut K, number: usize, values: &[i128])
    ensures { Puts (K.written out.old) (K.written out.new) (K.faults out.old) (K.faults out.new) spool.old spool.new (row_text number values.now) }
{
    put_number(spool, out, number);
    for value in values {
        put_value(spool, out, value);
    }
    put_row_end(spool, out);
}

/// Puts all rows of a reference, numbered from 0.
pub fn put_reference_rows<K: Sink>(spool: &mut Spool, out: &mut K, rows: &Rows)
    ensures { Puts (K.written out.old) (K.written out.new) (K.faults out.old) (K.faults out.new) spool.old spool.new (rows_text 0 rows.now) }
{
    for number in 0..rows.len() {
        put_row(spool, out, number, rows.row(number));
    }
}
