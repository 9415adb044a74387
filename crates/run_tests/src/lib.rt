//! Tests of runs: the commands over objects in memory, with any number of workers, and the pool that serves them.
//!
//! It has tests alone, and nothing rests on it. In a crate of their own they are proved without the functions that they try.
#![tactic(auto)]

#[cfg(test)]
mod checks;
#[cfg(test)]
mod drill_calls;
#[cfg(test)]
mod faults;
#[cfg(test)]
mod folders;
#[cfg(test)]
mod gates;
#[cfg(test)]
mod lives;
#[cfg(test)]
mod pools;
#[cfg(test)]
mod waits;
