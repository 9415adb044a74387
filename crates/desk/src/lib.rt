//! An operator's desk: a draft of the tables, which is edited line by line, saved as an edition and activated.
//!
//! `Desk::line` handles one line of a script: what it enters into the register, what it replies and what the desk is
//! then are those of the definitions. What a desk among several does as a single desk does stands for itself: a `Draft`,
//! `edit` for the requests that make no entry, `amended` for the edition that a draft is saved as, and `start` and
//! `reply_of` for an activation. The crate rests on `desk_lines` for what a line asks for, on `mib_rows`, `mib_tables` and
//! `edition` for rows, drafts and editions, and on `edition_register` for the register.
#![tactic(auto)]

mod desk;
mod draft;
mod edits;
mod saving;
mod using;

pub use desk::Desk;
pub use draft::Draft;
pub use edits::{Entering, edit};
pub use saving::{Ready, amended};
pub use using::{reply_of, start};
