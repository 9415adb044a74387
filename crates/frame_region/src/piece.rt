//! One piece of a region.
ghost use Rattle.std.specs.Prelude.{◌≡◌, []};
ghost use Rattle.std.specs.Borrow.{Array, Lends, sem};
ghost use Rattle.frame_region.specs.Filled.{with_values};

use std::alloc::Global;
use std::marker::Model;

/// Values that one owner reads and writes. Contracts see them as a list.
#[derive(Drop)]
pub struct Piece<T: Copy> {
    pub(crate) values: Vec<T>,
}

impl<T: Copy> Model for Piece<T> {
    ghost use Rattle.std.specs.Prelude.{List};

    ghost Value = { List T };

    ghost view = { λ piece. piece.values.items };
}

impl<T: Copy> Piece<T> {
    ghost use Rattle.frame_region.specs.contracts.piece.Piece.{the_row};

    /// A piece of no region, without a value: what stands in the place of a piece that was given back. It takes no memory.
    pub fn empty(alloc: Global) -> Piece<T>
        ensures { result ≡ [] }
    {
        Piece {
            values: Vec::new(alloc),
        }
    }

    /// Its values.
    pub fn slice(&self) -> &[T]
        ensures { result.now ≡ self.now }
    {
        self.values.as_slice()
    }

    /// Its values, to be written. What is written there is what the piece then holds.
    pub fn slice_mut(&mut self) -> &mut [T]
        ensures* writes_back { sem 𝓛 (Lends (the_row T.row) (Array T.row 0) self.entry result (with_values self.old)) }
        ensures value { result.now ≡ self.old }
    {
        self.values.as_mut_slice()
    }
}
