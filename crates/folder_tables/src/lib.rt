//! The sound tables of a folder, for all programs that read one.
//!
//! `sound_book` reads the 15 tables and tests them; the first fault refuses them, with the code of it. It stands on `session` for the
//! tables and on `mib_keys` for soundness.
#![tactic(auto)]

mod folder;

pub use folder::{Refusal, load_book, sound_book};
