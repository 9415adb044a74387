// With lone rows of pid, a packet of two values takes 764 instead of 959 instructions: most rows stand where the numbers of their keys say, without a probe.
ghost use Rattle.std.specs.Prelude.{◌≡◌, ◌⊎◌, IfOk, IfSome};
ghost use Rattle.first_rows.specs.ByNumbers.{AreFree, IsAtHand};

use std::alloc::{AllocError, Global};
use std::marker::Model;

// A number without pattern, which spreads the products with it (Knuth, multiplicative hashing).
const SPREAD: u64 = 0x9E37_79B9_7F4A_7C15;

/// Rows by numbers, which are looked for first: each at the place that a number gives it. Any of them may be missing: a row that
/// comes to the place of another takes it. Contracts see the places.
#[derive(Drop)]
pub struct ByNumber<R> {
    places: Vec<Option<R>>,
}

impl<R> Model for ByNumber<R> {
    ghost use Rattle.std.specs.Prelude.{List, Option};

    ghost Value = { List (Option R) };

    ghost view = { λ rows. rows.places.items };
}

// The place of a number among so many.
#[inline(always)]
fn place_of(number: u64, places: usize) -> usize {
    let mixed = number.wrapping_mul(SPREAD) >> 32;
    (mixed.wrapping_mul(places as u64) >> 32) as usize
}

impl<R: Drop> ByNumber<R> {
    /// No places. They take no memory.
    pub fn none(alloc: Global) -> ByNumber<R>
        ensures { AreFree result }
    {
        ByNumber {
            places: Vec::new(alloc),
        }
    }

    /// Two places for each of so many rows, all free. An error is want of memory.
    pub fn with_room(alloc: Global, rows: usize) -> Result<ByNumber<R>, AllocError>
        ensures { IfOk result AreFree }
    {
        let count = rows.saturating_mul(2);
        let mut places = Vec::with_capacity(alloc, count)?;
        for _ in 0..count {
            places.push(None)?;
        }
        Ok(ByNumber { places })
    }

    /// Puts a row at the place of a number.
    pub fn put(&mut self, number: u64, row: R)
        ensures { (held : R) → IsAtHand self.new held → IsAtHand self.old held ⊎ (held ≡ row) }
    {
        let place = place_of(number, self.places.len());
        if place < self.places.len() {
            self.places[place] = Some(row);
        }
    }

    /// The row at the place of a number, if there is one.
    #[inline(always)]
    pub fn at(&self, number: u64) -> Option<&R>
        ensures { IfSome result (λ row. IsAtHand self.now row.now) }
    {
        let place = place_of(number, self.places.len());
        if place < self.places.len() {
            self.places[place].as_ref()
        } else {
            None
        }
    }
}
