//! Tests of what reads and writes: files and folders in memory and real ones.
//!
//! It has tests alone, and nothing rests on it. In a crate of their own they are proved without the functions that they try.
#![tactic(auto)]

#[cfg(test)]
mod files;
#[cfg(test)]
mod folders;
