//! A window of fixed room in which results that come in any order wait for their turn, and are taken in the order of
//! their numbers, from 1 on.
//!
//! After `new` no call takes memory, and each takes constant time. Stands on the standard library alone.
#![tactic(auto)]

mod window;

pub use window::{Placed, Window};
