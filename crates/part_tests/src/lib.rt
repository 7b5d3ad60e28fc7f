//! Tests of each part by itself: bytes and lines of messages, steps of each kind of model, words, descriptions and
//! scenarios, and what a correct run prints; a wiring, the plan, one conversation and the master, by scripts of what comes
//! and what is sent then. The values are those of an independent model, and `tools/model_tables` makes them again. They
//! stand here, so that the crates below are proved once.
#![tactic(auto)]

#[cfg(test)]
mod conversations;
#[cfg(test)]
mod masters;
#[cfg(test)]
mod messages;
#[cfg(test)]
mod models;
#[cfg(test)]
mod plans;
#[cfg(test)]
mod rows;
#[cfg(test)]
mod scenarios;
#[cfg(test)]
mod scripts;
#[cfg(test)]
mod tables;
#[cfg(test)]
mod texts;
#[cfg(test)]
mod wiring_calls;
#[cfg(test)]
mod words;
