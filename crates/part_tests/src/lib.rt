//! Tests of the parts of a run: queues, pieces, windows and turns, the register under two threads, that records are handed on before a read may
//! wait, and drills.
//!
//! It has tests alone, and nothing rests on it. In a crate of their own they are proved without the functions that they try.
#![tactic(auto)]

#[cfg(test)]
mod drills;
#[cfg(test)]
mod pieces;
#[cfg(test)]
mod queues;
#[cfg(test)]
mod runs;
#[cfg(test)]
mod threads;
#[cfg(test)]
mod turns;
#[cfg(test)]
mod windows;
