//! Tests of texts that are audited: the command over objects in memory, and each object failing.
//!
//! It has tests alone, and nothing rests on it. In a crate of their own they are proved without the functions that they try.
#![tactic(auto)]

#[cfg(test)]
mod texts;
