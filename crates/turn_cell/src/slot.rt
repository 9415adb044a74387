//! What the one slot of a turn holds.

/// The state; where a caller has it in hand, nothing, or a note of the entry that the caller makes.
#[derive(Drop)]
pub enum Slot<S, N> {
    Home(S),
    Noted(N),
    Out,
}

// A slot owns the state or the note, and has no other part: it may go to another thread wherever these may. The table
// lends it to one caller at a time, and no reference to it is shared.
unsafe impl<S: Send, N: Send> Send for Slot<S, N> {}
