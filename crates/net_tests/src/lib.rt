//! Tests of the networks, in memory and over sockets of this machine, of the waits and the traces, with values
//! from their rules alone. They stand here, so that the crates below are proved once.
#![tactic(auto)]

#[cfg(test)]
mod ends;
#[cfg(test)]
mod hostile;
#[cfg(test)]
mod messages;
#[cfg(test)]
mod networks;
#[cfg(test)]
mod traces;
