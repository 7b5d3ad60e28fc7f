//! Laws of the definitions.

ghost use Rattle.std.specs.Prelude.{◌≡◌, ℤ, List};
ghost use Rattle.soaks.specs.Sums.{AreSummable, sum_of_rows, whole_sum};

/// Where each value has at most 64 bits and there are fewer than 2^63 of them, their sum of 128 bits is their
/// sum as a whole number.
pub fn sums_are_exact()
    ensures { (rows : List (List ℤ)) → AreSummable rows → sum_of_rows rows ≡ whole_sum rows }
{}
