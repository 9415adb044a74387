//! What the machine takes in, and what it replies.
use crate::start::Start;
use std::alloc::AllocError;
use std::snapshot::Snapshot;
use std::sync::Arc;

/// An entry, with what it hands in.
#[derive(Drop)]
pub enum Entry<E: Drop, B: Drop> {
    /// A packet is given its number and edition.
    Stamp,
    /// A payload is added as a new edition.
    Add(Arc<E>),
    /// A payload is added, if the base is still the newest edition.
    AddOn {
        base: u32,
        payload: Arc<E>,
    },
    /// An edition is used from the next packet on.
    Use {
        edition: u32,
        start: Option<Start<E, B>>,
    },
    /// An edition is used from this packet on.
    UseFrom {
        edition: u32,
        from: u64,
        start: Option<Start<E, B>>,
    },
    /// Which edition is the newest.
    Newest,
    /// Whether there is an edition.
    Look {
        edition: u32,
    },
}

/// A reply, with what it hands out or back.
#[derive(Drop)]
pub enum Reply<E: Drop, B: Drop> {
    Stamped {
        number: u64,
        edition: u32,
        tables: Snapshot<E>,
        start: Option<Start<E, B>>,
    },
    Added {
        edition: u32,
    },
    FullEditions {
        payload: Arc<E>,
    },
    Stale {
        newest: u32,
        payload: Arc<E>,
    },
    Used {
        from: u64,
    },
    NoEdition {
        count: u32,
        start: Option<Start<E, B>>,
    },
    Late {
        next: u64,
        start: Option<Start<E, B>>,
    },
    Disorder {
        last: u64,
        start: Option<Start<E, B>>,
    },
    FullPending {
        start: Option<Start<E, B>>,
    },
    /// The handle is wanting where its count can rise no more.
    Drawn {
        edition: u32,
        tables: Snapshot<E>,
        handle: Result<Arc<E>, AllocError>,
    },
}
