use mib_model::{MibCode, MibFault};

/// The answer to a line of the desk.
#[derive(Clone, Copy, Debug, PartialEq, Eq)]
pub enum Reply {
    /// The line has more than 4,096 octets.
    TooLong,
    /// The line has no form of the desk.
    BadLine,
    /// The word of the table is no table's name.
    BadTable,
    /// The row or key has a read fault, in this column of the table or in none (0).
    BadRow { code: MibCode, column: u8 },
    Added,
    Replaced,
    Deleted,
    NoRow,
    /// The draft is this edition, for which so many plans were compiled.
    Saved { edition: u32, plans: u32 },
    Unsound(MibFault),
    /// 64 editions stand.
    FullEditions,
    Dropped,
    /// The edition is used from this packet on.
    Used { edition: u32, from: u64 },
    /// There are only so many editions.
    NoEdition { count: u32 },
    /// The next packet has this number.
    Late { next: u64 },
    /// The last pending activation is from this packet on.
    Disorder { last: u64 },
    /// 16 activations are pending.
    FullPending,
    Go,
    /// Want of memory.
    Want,
    /// The desk is read no further.
    Limit,
}
