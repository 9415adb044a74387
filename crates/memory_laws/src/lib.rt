//! Laws of what is kept: which memories tell the same of all packets.
//!
//! Memories are alike where they differ in nothing but the latest raw numbers of names that no condition asks. Each law is the
//! contract of a function with an empty body, and its proof a lemma that the crates above may cite. It rests on `mib_model` and
//! `mib_laws`.
#![tactic(auto)]

mod alike;

pub use alike::{alike_is_same, entering_keeps_alike, finishing_keeps_alike};
