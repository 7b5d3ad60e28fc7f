//! A small run in which all behave, so that the laws of any run speak of something.
//!
//! A master asks one slave for a session and then for its state. The register is sent twice and comes twice,
//! and so does its answer. No code stands here; each function is a fact on this run.

ghost use Rattle.std.specs.Prelude.{◌≡◌, [], ◌∷◌, length, map};
ghost use Rattle.lockstep_laws.specs.Runs.{AreSlaves, Behaves};
ghost use Rattle.log_spec.specs.Log.{requests_sent};
ghost use Rattle.log_spec.specs.Moves.{decided_exchanges};
ghost use Rattle.witness_laws.specs.Exchange.Small.{small_parties, slaves, log};

/// The slave is a slave of the laws, and the network, the master and the slave behave in the log.
pub fn a_run_behaves()
    ensures slaves { AreSlaves small_parties slaves }
    ensures run { Behaves small_parties slaves log }
{}

/// In it two requests are sent, both are taken, once each and in order, and both are decided by the answers
/// that were given.
pub fn a_run_shows()
    ensures sent { length (requests_sent small_parties 1 log) ≡ 2 }
    ensures taken { map (λ e. e.request) (slaves.desk 1 log).served ≡ requests_sent small_parties 1 log }
    ensures decided { decided_exchanges small_parties 1 log ≡ (slaves.desk 1 log).served }
{}
