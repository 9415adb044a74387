//! A fixed number of pieces of one size, all reserved at once, that are taken and given back without taking memory.
//!
//! A `Region` is made with all its pieces at home. `take` moves a piece out and `give` moves one back, each in constant
//! time; a piece is read and written as a slice, and may go to another thread. A piece has one owner, so no two pieces
//! that are out share a place. The crate is safe code over `Vec` and rests on the standard library alone.
#![tactic(auto)]

mod piece;
mod region;

pub use piece::Piece;
pub use region::Region;
