//! What holds over all deliveries: each request acts once and in order, and all models go in lockstep.
//!
//! The laws speak of any master and any slaves that meet the records of `specs/`. There is no code.

ghost use Rattle.lockstep_laws.specs.Laws.{Always, AskedInOrder, DecidedAsServed, DecidedByGiven, InStep, StepTogether, TakenInOrder};

/// What a slave has taken are the requests that the master sent it, one for each ordinal, in order.
pub fn taken_once_and_in_order()
    ensures { Always TakenInOrder }
{}

/// What decides a request is the answer that the slave gave when it took that request.
pub fn decided_as_given()
    ensures deciding { Always DecidedByGiven }
    ensures served { Always DecidedAsServed }
{}

/// What a slave has taken was asked of it in order: each request where the exchanges before it allow it.
pub fn asked_in_order()
    ensures { Always AskedInOrder }
{}

/// No slave is more than one row event ahead of another.
pub fn slaves_keep_together()
    ensures places { Always StepTogether }
    ensures steps { Always InStep }
{}
