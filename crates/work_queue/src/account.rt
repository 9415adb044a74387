// What a pass knows. No value of it is made.
use std::collections::LinkedList;

/// The jobs that a pass put and got, and its shares of the right to know the whole.
pub struct Account<J> {
    pub shares: u64,
    pub put: LinkedList<J>,
    pub got: LinkedList<J>,
}
