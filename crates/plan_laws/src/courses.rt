//! What asking a slave in order gives of the exchanges with it: when it is opened for a run, and set up for it.
//!
//! There is no code.

ghost use Rattle.plan_laws.specs.Course.Orders.{BegunIsOpened, OpenedIsTuned, OpenedStays};

/// Who has begun a run, or is about an event of it, was opened for it.
pub fn begun_is_opened()
    ensures { BegunIsOpened }
{}

/// Who is opened for a run stays so through its events.
pub fn opened_stays()
    ensures { OpenedStays }
{}

/// Who is opened for a run is set up for it.
pub fn opened_is_tuned()
    ensures { OpenedIsTuned }
{}
