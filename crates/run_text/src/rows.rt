//! The rows that a master counted, printed one a line.

ghost use Rattle.std.specs.Prelude.{List, reverse};
ghost use Rattle.dcp_ends.specs.Events.{Event};
ghost use Rattle.master_spec.specs.Course.{course};
ghost use Rattle.master_core.specs.Standing.{StandsAfter, core_setup};
ghost use Rattle.run_text.specs.Puts.{Puts};
ghost use Rattle.run_text.specs.Rows.{rows_text};

use crate::put_row;
use dcp_io::{Sink, Spool};
use master_core::MasterCore;

/// Puts all rows, numbered from 0.
pub(crate) fn put_rows<K: Sink>(spool: &mut Spool, out: &mut K, master: &MasterCore)
    ensures { (events : List Event) → StandsAfter master.now events → Puts (K.written out.old) (K.written out.new) (K.faults out.old) (K.faults out.new) spool.old spool.new
        (rows_text 0 (course (core_setup master.now) (reverse events)).rows) }
{
    for k in 0..master.rows() {
        if let Some(values) = master.row_values(k) {
            put_row(spool, out, k as usize, values);
        }
    }
}
