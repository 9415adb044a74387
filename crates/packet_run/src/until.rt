use decode_session::Filled;

/// Why no packet more is read.
#[derive(Clone, Copy, Debug, PartialEq, Eq)]
pub enum Until {
    /// The feed ended so.
    FeedEnds(Filled),
    /// The most packets of a run were read.
    Limit,
    /// The output failed.
    OutFault,
}
