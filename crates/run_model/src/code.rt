ghost use Rattle.std.specs.Prelude.{◌≡◌};
ghost use Rattle.run_model.specs.Codes.{code_number};

use mib_model::MibFault;

/// What is wrong with the words of the command line.
#[derive(Clone, Copy, Debug, PartialEq, Eq)]
pub enum Misuse {
    Command,
    Words,
}

/// An input that isn't there.
#[derive(Clone, Copy, Debug, PartialEq, Eq)]
pub enum Input {
    Feed,
    Desk,
}

/// How a call of the tool ends.
#[derive(Clone, Copy, Debug, PartialEq, Eq)]
pub enum Code {
    /// All was read and written.
    Ok,
    /// The words break the word rules.
    Usage(Misuse),
    /// The tables are refused.
    BadMib(MibFault),
    /// An input isn't there.
    NoFile(Input),
    /// The feed ends inside a packet, of which so many octets are there.
    Cut(u32),
    TablesFault,
    FeedFault,
    DeskFault,
    OutFault,
    ReplyFault,
    /// 1,000,000,000 packets were read.
    Limit,
    /// Want of memory.
    Want,
}

impl Code {
    /// The exit status, from 0 to 12.
    pub fn number(&self) -> u8
        ensures { result ≡ code_number self.now }
    {
        match self {
            Code::Ok => 0,
            Code::Usage(_) => 2,
            Code::BadMib(_) => 3,
            Code::NoFile(_) => 4,
            Code::Cut(_) => 5,
            Code::TablesFault => 6,
            Code::FeedFault => 7,
            Code::DeskFault => 8,
            Code::OutFault => 9,
            Code::ReplyFault => 10,
            Code::Limit => 11,
            Code::Want => 12,
        }
    }
}
