//! The register of editions: which edition each packet has, over a turn that an intake and its desks share.
//!
//! A `Register` numbers the packets from 1 on, keeps up to 64 editions, and has one in use and up to 16 activations that
//! are pending. All that its seats do is one history that is legal for the definitions' register, and exists in
//! contracts alone. The machine keeps of past activations the last; that it has the same histories is a law, the contract
//! of a function with an empty body, as are the others that say what a history shows its seats. The crate rests on
//! `turn_cell` for the turn, on `mib_model` for the register's rules, and on lemmas of `mib_laws`.
#![tactic(auto)]

mod editions;
mod entry;
mod laws;
mod machine;
mod outcome;
mod panel;
mod register;
mod start;

pub use editions::Editions;
pub use entry::{Entry, Reply};
pub use laws::{
    bounded_serves, desk_shows_editions, few_activations, intake_counts, keeps_one_in_use,
    moves_kept, shown_stays, stamp_goes_on, tables_stay,
};
pub use outcome::{AddFault, AddOnFault, Closed, Drawn, LookFault, Stamp, UseFault};
pub use register::{Over, Register};
pub use start::{Pending, Start};
