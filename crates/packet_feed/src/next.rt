use mib_model::Header;

/// What comes next in a feed.
#[derive(Clone, Copy, Debug, PartialEq, Eq)]
pub enum Next {
    /// A packet of so many octets, and its header.
    Packet { octets: u32, header: Header },
    /// No octet is left.
    End,
    /// So many octets were left, at least one, and they begin no whole packet.
    Cut { octets: u32 },
    /// The source failed.
    Failed,
}
