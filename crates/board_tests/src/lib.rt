//! Tests of boards: the command over objects in memory, a page that comes while the feed waits, and the calls of a pager.
//!
//! It has tests alone, and nothing rests on it. In a crate of their own they are proved without the functions that they try.
#![tactic(auto)]

#[cfg(test)]
mod boards;
#[cfg(test)]
mod faults;
#[cfg(test)]
mod objects;
#[cfg(test)]
mod pagers;
#[cfg(test)]
mod waits;
