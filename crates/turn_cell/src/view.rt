//! What a seat knows. No value of these types is made.
use histories::Move;
use std::collections::LinkedList;

/// A number that a seat holds, with the moves that were made under it.
pub struct Holding<E, A> {
    pub number: u64,
    pub moves: LinkedList<Move<E, A>>,
}

/// Where a seat stands, with its ticket: it waits, has the turn, or has the turn and made its entry.
pub enum Standing {
    Idle,
    Waiting(u64),
    InTurn(u64),
    Entered(u64),
}

/// What a history begins with: its first state, and how many callers there are.
pub struct Origin<C> {
    pub state: C,
    pub callers: u8,
}

/// What a seat knows: the origin of the history (none where the seat was joined to another), its numbers,
/// where it stands, and how much of the history it has seen. `fronts` is what the two seats of a join had seen.
pub struct View<C, E, A> {
    pub origin: Option<Origin<C>>,
    pub holdings: LinkedList<Holding<E, A>>,
    pub standing: Standing,
    pub seen: LinkedList<Move<E, A>>,
    pub fronts: LinkedList<LinkedList<Move<E, A>>>,
}
