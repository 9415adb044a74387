use mib_model::{Database, Plan};
use std::collections::LinkedList;

/// An activation: from this packet on, this edition.
pub struct Scheduled {
    pub from: u64,
    pub edition: u32,
}

/// The state of the register of editions as contracts see it: the number of the next packet, the tables of the
/// editions, of which the first has the number 1, and the activations in the order in which they were made.
pub struct Register {
    pub next: u64,
    pub editions: LinkedList<Database>,
    pub schedule: LinkedList<Scheduled>,
}

/// An entry of the register, as contracts see it.
pub enum Entry {
    /// A packet is given its number and edition.
    Stamp,
    /// Tables are added as a new edition, with their plans.
    Add {
        tables: Database,
        plans: LinkedList<Plan>,
    },
    /// Tables are added with their plans, if the base is still the newest edition.
    AddOn {
        base: u32,
        tables: Database,
        plans: LinkedList<Plan>,
    },
    /// An edition is used from the next packet on.
    Use {
        edition: u32,
    },
    /// An edition is used from this packet on.
    UseFrom {
        edition: u32,
        from: u64,
    },
    /// Which edition is the newest.
    Newest,
    /// Whether there is an edition.
    Look {
        edition: u32,
    },
}

/// The reply to an entry, as contracts see it; with an edition that is handed out stand its tables.
pub enum Answer {
    Stamped {
        number: u64,
        edition: u32,
        tables: Database,
    },
    Added {
        edition: u32,
    },
    /// All editions that can be stand.
    FullEditions,
    /// There is a newer edition than the base.
    Stale {
        newest: u32,
    },
    Used {
        from: u64,
    },
    NoEdition {
        count: u32,
    },
    Late {
        next: u64,
    },
    Disorder {
        last: u64,
    },
    /// All activations that can be are pending.
    FullPending,
    Drawn {
        edition: u32,
        tables: Database,
    },
}
