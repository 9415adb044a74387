//! Pieces that are at home, and how many are out.
ghost use Rattle.std.specs.Prelude.{◌≡◌, ◌+◌, ◌<◌, ◌↔◌, length, IfOk, IsNone, MatchOption};

use crate::piece::Piece;
use std::alloc::{AllocError, Global};
use std::marker::Model;

/// Pieces of one size. Contracts see how many there are, their size, and how many are out.
#[derive(Drop)]
pub struct Region<T: Copy> {
    home: Vec<Piece<T>>,
    pieces: u16,
    size: usize,
}

impl<T: Copy> Model for Region<T> {
    ghost use Rattle.frame_region.specs.Stocks.{Stock};
    ghost use Rattle.frame_region.specs.Homes.{stock, IsHome};

    ghost Value = { Stock };

    ghost view = { stock };

    ghost invariant = { IsHome };
}

impl<T: Copy> Region<T> {
    /// All pieces at home, each of so many values, all of which are `fill`. No later call takes memory.
    pub fn new(alloc: Global, pieces: u16, size: usize, fill: T) -> Result<Region<T>, AllocError>
        ensures { IfOk result (λ region. region ≡ record { pieces = pieces; size = size; out = 0 }) }
    {
        let mut home = Vec::with_capacity(alloc, usize::from(pieces))?;
        for _ in 0..pieces {
            home.push_reserved(Piece {
                values: Vec::from_elem(alloc, fill, size)?,
            });
        }
        Ok(Region { home, pieces, size })
    }

    /// A piece that was at home, of the region's size. There is none exactly where all are out.
    pub fn take(&mut self) -> Option<Piece<T>>
        ensures none { IsNone result ↔ (self.old.out ≡ self.old.pieces) }
        ensures taken { MatchOption result (self.new ≡ self.old)
            (λ piece. (length piece ≡ self.old.size) × (self.new ≡ record self.old { out = self.old.out + 1 })) }
    {
        self.home.pop()
    }

    /// Takes a piece back.
    pub fn give(&mut self, piece: Piece<T>)
        requires out { 0 < self.old.out }
        requires size { length piece ≡ self.old.size }
        ensures { self.old ≡ record self.new { out = self.new.out + 1 } }
    {
        self.home.push_reserved(piece);
    }
}
