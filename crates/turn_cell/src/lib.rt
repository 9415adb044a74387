//! A state that callers change in turn, by tickets, as one legal history.
//!
//! A `Turn` keeps the state of a machine. A caller has a seat: it waits for its turn, makes one entry with the state in
//! hand, and leaves. The order of all entries is one history that is legal for the machine, each reply is the machine's
//! at its place, and each seat lists the entries that were made under its numbers. The history exists in contracts
//! alone: nothing of it is stored. Only `enter` may wait. The crate rests on `atomic_table` for its atomic steps and on
//! `histories` for what a history is.
#![tactic(auto)]

mod machine;
mod rule;
mod slot;
mod sum;
mod turn;
mod view;

pub use machine::Machine;
pub use sum::Sum;
pub use turn::{Held, Seat, Turn};
pub use view::{Holding, Origin, Standing, View};
