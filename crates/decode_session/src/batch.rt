// A packet is read into a room.
ghost use Rattle.std.specs.Prelude.{◌≡◌, IfOk, IfErr, OnOk};
ghost use Rattle.decode_session.specs.Batches.{IsRead, EndsFeed};
ghost use Rattle.decode_session.specs.Causes.{HasFillCause};
ghost use Rattle.packet_feed.specs.Feed.{SourceStays, source_of};

use crate::cell::PacketCell;
use crate::room::Room;
use packet_feed::{Feed, Next};
use tm_io::Source;

/// The most packets of a run.
pub const MOST_PACKETS: u64 = 1_000_000_000;

/// How the reading of packets ended.
#[derive(Clone, Copy, Debug, PartialEq, Eq)]
pub enum Filled {
    /// With a packet, behind which none may be read yet.
    Paused,
    /// At the end of the feed.
    End,
    /// Inside a packet, of which so many octets are there.
    Cut { octets: u32 },
    /// With a fault of the feed.
    Failed,
}

/// A room that is still free, and why.
#[derive(Drop)]
pub struct Unread {
    pub room: Room,
    pub why: Filled,
}

/// Reads the next packet into a room, and gives it this number.
#[inline(always)]
pub fn read_packet<S: Source>(
    number: u64,
    feed: &mut Feed<S>,
    mut room: Room,
) -> Result<PacketCell, Unread>
    ensures read { IfOk result (λ cell. IsRead number cell (S.left (source_of feed.old)) (S.left (source_of feed.new))) }
    ensures unread { IfErr result (λ unread. EndsFeed unread.why (S.left (source_of feed.old)) (S.left (source_of feed.new))) }
    ensures ok { OnOk result (S.faults (source_of feed.new) ≡ S.faults (source_of feed.old)) }
    ensures cause { IfErr result (λ unread. HasFillCause unread.why (S.faults (source_of feed.old)) (S.faults (source_of feed.new))) }
    ensures kept { SourceStays S.holds S.missed S.borrow (source_of feed.old) (source_of feed.new) }
{
    match feed.next(room.buffers.frame.slice_mut()) {
        Next::Packet { octets, header } => Ok(PacketCell::new(number, octets, header, room)),
        Next::End => Err(Unread {
            room,
            why: Filled::End,
        }),
        Next::Cut { octets } => Err(Unread {
            room,
            why: Filled::Cut { octets },
        }),
        Next::Failed => Err(Unread {
            room,
            why: Filled::Failed,
        }),
    }
}
