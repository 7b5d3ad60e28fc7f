//! What a slave shows stands in the reference's row, in its columns.
//!
//! There is no code.

ghost use Rattle.slave_laws.specs.Wiring.RowParts.{RowsHaveParts};

/// Each output that a slave shows stands in its column of the row.
pub fn rows_have_parts()
    ensures { RowsHaveParts }
{}
