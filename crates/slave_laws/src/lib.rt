//! The slave of the definition is a slave of the laws over a run, with no premise left but that no two parties
//! share an address.
//!
//! `Talk`: its requests and answers, and what it sends. `Model`: what it holds of its model and inputs, and what
//! the exchanges tell of its parameters and its state. `Wiring`: its wiring is that of the plan, and what it reads
//! off the payloads that it kept is what the reference reads. `Data`: the data that it owes and keeps, and the
//! slaves of a sound scenario as the laws of models see them. There is no code.
#![tactic(auto)]

pub mod courses;
pub mod data_laws;
pub mod emits;
pub mod holds;
pub mod inputs;
pub mod links;
pub mod meets;
pub mod payloads;
pub mod reads;
pub mod rows;
pub mod sends;
pub mod stages;
pub mod tuned;
pub mod whole;
