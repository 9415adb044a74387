/// How a run ended that nothing hindered.
#[derive(Clone, Copy, Debug, PartialEq, Eq)]
pub enum RunEnd {
    /// At the end of the feed.
    Whole,
    /// Inside a packet, of which so many octets are there.
    Cut(u32),
    /// After the most packets of a run.
    Limit,
}

/// What hindered a run.
#[derive(Clone, Copy, Debug, PartialEq, Eq)]
pub enum RunFault {
    Feed,
    Print(Stop),
}

/// Why nothing more was printed.
#[derive(Clone, Copy, Debug, PartialEq, Eq)]
pub enum Stop {
    /// Memory ran out before anything was read.
    Memory,
    Out,
}
