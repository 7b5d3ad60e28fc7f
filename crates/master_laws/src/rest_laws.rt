//! A row event is asked of a slave only when none is under way there. There is no code.

ghost use Rattle.master_laws.specs.Rest.Laws.{RowsFindRest};

/// Where the master asks a slave for a row event, first or again, none is under way there by what is decided.
pub fn rows_find_rest()
    ensures { RowsFindRest }
{}
