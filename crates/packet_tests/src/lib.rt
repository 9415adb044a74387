//! Tests of what a packet goes through: fields beside the numbers of an outside program, the lines of values, and what compiled plans share between editions.
//!
//! It has tests alone, and nothing rests on it. In a crate of their own they are proved without the functions that they try.
#![tactic(auto)]

#[cfg(test)]
mod books;
#[cfg(test)]
mod fields;
#[cfg(test)]
mod records;
#[cfg(test)]
mod shared_parameters;
#[cfg(test)]
mod shared_sets;
