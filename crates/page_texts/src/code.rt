use mib_model::MibFault;
use run_model::Misuse;

/// An input of a board that isn't there.
#[derive(Clone, Copy, Debug, PartialEq, Eq)]
pub enum BoardInput {
    Feed,
    Desk,
    Page,
}

/// How a call of a board ends.
#[derive(Clone, Copy, Debug, PartialEq, Eq)]
pub enum BoardCode {
    /// All was read and written.
    Ok,
    /// The words break the word rules.
    Usage(Misuse),
    /// The tables are refused.
    BadMib(MibFault),
    /// An input isn't there.
    NoFile(BoardInput),
    /// The feed ends inside a packet, of which so many octets are there.
    Cut(u32),
    TablesFault,
    FeedFault,
    DeskFault,
    OutFault,
    ReplyFault,
    /// 1,000,000,000 packets were read.
    Limit,
    /// Want of memory.
    Want,
    ScreenFault,
    PageFault,
    /// The file of names is refused for this line, or for its size where the line is 0.
    BadPage { line: u32 },
}
