//! What the calls of a register give.
use crate::editions::Editions;
use crate::start::Start;
use mib_model::{MadeFor, Rows};
use std::snapshot::Snapshot;
use std::sync::Arc;
use turn_cell::Seat;

/// The number of a packet, from 1 on, and its edition. Where an activation begins with the packet, what it handed in.
#[derive(Drop)]
pub struct Stamp<E: Drop, B: Drop> {
    pub number: u64,
    pub edition: u32,
    pub start: Option<Start<E, B>>,
}

/// Why an edition isn't added.
#[derive(Drop)]
pub enum AddFault<E: Drop> {
    /// All 64 editions stand.
    Full { payload: Arc<E> },
}

/// Why an edition isn't added on a base. The payload comes back.
#[derive(Drop)]
pub enum AddOnFault<E: Drop> {
    /// The base isn't the newest edition; this is.
    Stale { newer: u32, payload: Arc<E> },
    /// All 64 editions stand.
    Full { payload: Arc<E> },
}

/// An edition, with a handle of it.
#[derive(Drop)]
pub struct Drawn<E: Drop> {
    pub edition: u32,
    pub handle: Arc<E>,
}

/// Why an edition isn't handed out.
#[derive(Drop)]
pub enum LookFault {
    /// There is no edition of this number; there are so many.
    NoEdition { count: u32 },
    /// Memory was wanting for the handle.
    Memory,
}

/// Why an edition isn't used. The start comes back.
#[derive(Drop)]
pub enum UseFault<E: Drop, B: Drop> {
    /// There is no edition of this number; there are so many.
    NoEdition {
        count: u32,
        start: Option<Start<E, B>>,
    },
    /// The packet is stamped; this is the next.
    Late {
        next: u64,
        start: Option<Start<E, B>>,
    },
    /// An activation is pending from this packet on, which isn't before the one that is asked for.
    Disorder {
        last: u64,
        start: Option<Start<E, B>>,
    },
    /// 16 activations are pending.
    Full {
        start: Option<Start<E, B>>,
    },
}

/// A register after its end: the number of the packet that would be next, how many editions there are, and the seat of
/// both sides, which shows the whole history.
#[derive(Drop)]
pub struct Closed<E: Rows + Drop, B: MadeFor + Drop> {
    pub next: u64,
    pub editions: u32,
    pub seat: Snapshot<Seat<Editions<E, B>>>,
}
