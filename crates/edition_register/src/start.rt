//! What an activation hands to the packet that begins it.
use std::sync::Arc;

/// A handle of the edition, and a board that was made for its tables.
#[derive(Drop)]
pub struct Start<E: Drop, B: Drop> {
    pub handle: Arc<E>,
    pub board: B,
}

/// An activation whose first packet isn't stamped yet.
#[derive(Drop)]
pub struct Pending<E: Drop, B: Drop> {
    pub from: u64,
    pub edition: u32,
    pub start: Start<E, B>,
}
