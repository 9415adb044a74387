ghost use Rattle.std.specs.Prelude.{◌≡◌, ◌<◌, ◌≤◌, ◌^◌, ℕ, IfOk, MatchOption, None, true};
ghost use Rattle.commit_order.specs.Places.{all_numbered};
ghost use Rattle.std.specs.VecDeque.{deque_len, deque_capacity};

use std::alloc::{AllocError, Global};
use std::collections::VecDeque;

/// What became of a result that was placed.
#[derive(Drop)]
pub enum Placed<R> {
    /// It waits for its turn.
    Kept,
    /// Its number is before the window, behind it, or has its result already.
    Stranger { result: R },
}

/// Results by their numbers: those from the next number on, as far as the window's room goes.
#[derive(Drop)]
pub struct Window<R: Drop> {
    // The place of the next number, and those of the numbers after it.
    places: VecDeque<Option<R>>,
    // Past the last number of 64 bits comes one more, so that each of them can be taken.
    next: u128,
    ghost numbered: { all_numbered next places.items ≡ true },
    ghost reserved: { deque_len places ≤ deque_capacity places },
}

impl<R: Drop> Window<R> {
    ghost use Rattle.commit_order.specs.Windows.{next_of, waiting, room_of, Places, Advances, IsUnchanged};

    /// An empty window of this room, whose next number is 1.
    pub fn new(alloc: Global, room: u32) -> Result<Window<R>, AllocError>
        ensures next { IfOk result (λ window. next_of window ≡ 1) }
        ensures room { IfOk result (λ window. room_of window ≡ room) }
        ensures empty { IfOk result (λ window. (n : ℕ) → waiting window n ≡ None) }
    {
        let mut places = VecDeque::with_capacity(alloc, room as usize)?;
        for _ in 0..room {
            places.push_back(None)?;
        }
        Ok(Window { places, next: 1 })
    }

    /// Keeps a result until its number's turn. A stranger comes back: a number below the next one, one for which there is
    /// no room yet, or one whose result is there.
    pub fn place(&mut self, n: u64, value: R) -> Placed<R>
        ensures { Places self.old self.new n value result }
    {
        let n = u128::from(n);
        if n < self.next {
            return Placed::Stranger { result: value };
        }
        let ahead = n - self.next;
        if ahead >= self.places.len() as u128 {
            return Placed::Stranger { result: value };
        }
        let place = ahead as usize;
        if self.places[place].is_some() {
            return Placed::Stranger { result: value };
        }
        self.places[place] = Some(value);
        Placed::Kept
    }

    /// Takes the result of the next number, and the number after it is next. None says that it isn't there.
    pub fn take_next(&mut self) -> Option<R>
        ensures taken { result ≡ waiting self.old (next_of self.old) }
        ensures after { MatchOption result (IsUnchanged self.old self.new) (λ _. Advances self.old self.new) }
    {
        let Some(Some(_)) = self.places.front() else {
            return None;
        };
        let Some(Some(taken)) = self.places.pop_front() else {
            unreachable!();
        };
        self.places.push_back_reserved(None);
        self.next += 1;
        Some(taken)
    }
    /// Passes by the next number, whose result never comes here: the number after it is next. For numbers of 64 bits.
    pub fn pass_by(&mut self)
        requires absent { waiting self.old (next_of self.old) ≡ None }
        requires number { next_of self.old < 2 ^ 64 }
        ensures { Advances self.old self.new }
    {
        let Some(_absent) = self.places.pop_front() else {
            self.next += 1;
            return;
        };
        self.places.push_back_reserved(None);
        self.next += 1;
    }
}
