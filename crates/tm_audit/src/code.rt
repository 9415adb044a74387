use mib_model::MibFault;
use run_model::Misuse;

/// The most octets of a text that is audited.
pub const TEXT_MOST: usize = 67_108_864;

/// An input of an audit that isn't there.
#[derive(Clone, Copy, Debug, PartialEq, Eq)]
pub enum AuditInput {
    Feed,
    Desk,
    Text,
}

/// How an audit ends. There are no replies and no packet is stamped, so `ReplyFault` and `Limit` never come.
#[derive(Clone, Copy, Debug, PartialEq, Eq)]
pub enum AuditCode {
    /// The text is the one that is expected.
    Same,
    /// The words break the word rules.
    Usage(Misuse),
    /// The tables are refused.
    BadMib(MibFault),
    /// An input isn't there.
    NoFile(AuditInput),
    TablesFault,
    FeedFault,
    DeskFault,
    OutFault,
    ReplyFault,
    Limit,
    /// Want of memory.
    Want,
    /// The text isn't the one that is expected, and this line of it, counted from 1, is the first that differs.
    Differs { line: u32 },
    /// This line shows an edition, and none of the saved ones, which are so many.
    NoEdition { line: u32, count: u32 },
    TextFault,
    /// The text has more than 67,108,864 octets.
    Large,
}
