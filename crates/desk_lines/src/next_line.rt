/// What comes next in a script.
#[derive(Clone, Copy, Debug, PartialEq, Eq)]
pub enum NextLine {
    /// A line of so many octets, 4,096 at most.
    Line { octets: u32 },
    /// A line of more than 4,096 octets.
    TooLong,
    /// No line is left.
    End,
    /// 1,000,000 lines or 1,073,741,824 octets are there: the script is read no further.
    Limit,
    /// The source failed.
    Failed,
}
