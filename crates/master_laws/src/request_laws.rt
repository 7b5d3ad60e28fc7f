//! The requests of the master, in the words of the laws over a run.
//!
//! The laws over a run speak of any master that asks each slave one request after the other. The master of
//! the definition is such a master, on every network, honest or not. There is no code.

ghost use Rattle.master_laws.specs.Meets.Laws.{MasterAsksInTurn, OnlyRequestsAreSent, RequestsAreAsked};

/// The requests that were sent to a slave, one for each ordinal, are those that the log tells of the
/// master's asking.
pub fn requests_are_asked()
    ensures { RequestsAreAsked }
{}

/// What the master sends a slave is the newest request again, or the next one: under the next number, once
/// all before it are decided, and first of all the register with the slave's identity.
pub fn master_asks_in_turn()
    ensures { MasterAsksInTurn }
{}

/// The master sends nothing but requests.
pub fn only_requests_are_sent()
    ensures { OnlyRequestsAreSent }
{}
