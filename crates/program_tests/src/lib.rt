//! Tests of the program's calls and of its edge, where no clause speaks: worked rows of each command,
//! and readers and writers that are interrupted, fail, or give and take little.
#![tactic(auto)]

#[cfg(test)]
mod adapters;
#[cfg(test)]
mod memory;
#[cfg(test)]
mod programs;
#[cfg(test)]
mod rows;
#[cfg(test)]
mod runs;
#[cfg(test)]
mod tables;
