//! The edition of the tables of a folder, with which a run begins.
//!
//! `folder_edition` reads the tables and compiles them; the first fault refuses them. It stands on `folder_tables` for the tables and
//! on `edition` for soundness and plans.
#![tactic(auto)]

mod folder;

pub use folder::{book_edition, folder_edition, let_go};
