//! A queue of numbered jobs between threads. A pass lists the jobs that it put and got, as contracts see them.
//!
//! Once all passes are joined, what was got and what is left are what was put, each as often. Stands on
//! `crossbeam_queue`, whose queue keeps the rule that says so at each step.
#![tactic(auto)]

mod account;
mod queue;
mod rule;

pub use account::Account;
pub use queue::{Numbered, Pass, Queue};
