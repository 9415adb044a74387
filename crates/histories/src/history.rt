//! One move of a history.

/// A caller's entry, with the number of the seat that it was made under and with the machine's reply. Contracts list
/// such moves, and no value of it is made.
pub struct Move<E, R> {
    pub seat: u64,
    pub entry: E,
    pub reply: R,
}
