//! Histories: what callers did with one machine, as one list of moves in the order in which they were made.
//!
//! A machine is two functions of its state and of an entry: the reply, and the state after. A history is legal from a
//! state where each reply is the machine's at that place. These words are said once, for any state, entry and reply,
//! so that a register and the lock that keeps it speak of the same histories. The crate promises their laws, and rests
//! on the standard library alone.
#![tactic(auto)]

mod history;
mod laws;

pub use history::Move;
pub use laws::{
    calls_in_parts, legal_in_parts, legal_with_a_move, permitted_in_parts, state_in_parts,
};
