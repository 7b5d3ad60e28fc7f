//! Tests of the commands over sockets, over networks and waits in memory: worked rows of each command,
//! a last acknowledgement that is lost, and networks and waits that fail.
#![tactic(auto)]

#[cfg(test)]
mod calls;
#[cfg(test)]
mod faults;
#[cfg(test)]
mod lost_answers;
#[cfg(test)]
mod rows;
#[cfg(test)]
mod scripts;
