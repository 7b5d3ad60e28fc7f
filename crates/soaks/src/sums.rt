//! The sum of all values of all rows of a run.

ghost use Rattle.std.specs.Prelude.{◌≡◌, fold, List, reverse};
ghost use Rattle.dcp_ends.specs.Events.{Event};
ghost use Rattle.master_spec.specs.Course.{course};
ghost use Rattle.master_core.specs.Standing.{StandsAfter, core_setup};
ghost use Rattle.soaks.specs.Sums.{plus, sum_of_rows};

use master_core::MasterCore;

/// The sum with all values of a row.
fn plus_row(sum: i128, values: &[i128]) -> i128
    ensures { result ≡ fold plus sum values.now }
{
    let mut all = sum;
    for value in values {
        all = all.wrapping_add(*value);
    }
    all
}

/// The sum of all rows.
pub(crate) fn sum_of_rows(master: &MasterCore) -> i128
    ensures { (events : List Event) → StandsAfter master.now events → result ≡ sum_of_rows (course (core_setup master.now) (reverse events)).rows }
{
    let mut all = 0i128;
    for k in 0..master.rows() {
        if let Some(values) = master.row_values(k) {
            all = plus_row(all, values);
        }
    }
    all
}
