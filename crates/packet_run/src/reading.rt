// A packet is read and stamped.
ghost use Rattle.std.specs.Prelude.{◌≡◌, ◌<◌, ◌+◌, length, IfOk, IfErr, OnOk};
ghost use Rattle.decode_session.specs.Batches.{EndsFeed};
ghost use Rattle.decode_session.specs.Causes.{HasFillCause};
ghost use Rattle.decode_session.specs.Run.{most_packets};
ghost use Rattle.edition_register.specs.Seats.{IsSeat, first_of};
ghost use Rattle.edition_register.specs.Shown.{last_stamped};
ghost use Rattle.histories.specs.History.{StartsWith};
ghost use Rattle.packet_feed.specs.Feed.{SourceStays, source_of};
ghost use Rattle.packet_run.specs.Reading.{IsStamped};
ghost use Rattle.turn_cell.specs.Seats.{own_moves, seen_by};

use decode_session::{PacketCell, Room, Unread, read_packet};
use edition_plans::Plans;
use edition_register::{Editions, Register, Stamp, Start, intake_counts};
use fold_state::BoardRoom;
use mib_model::Rows;
use packet_feed::Feed;
use std::sync::Wait;
use tm_io::Source;
use turn_cell::Seat;

/// A packet that was read and stamped: its edition, and what begins with it.
#[derive(Drop)]
pub(crate) struct StampedCell<P: Drop> {
    pub cell: PacketCell,
    pub edition: u32,
    pub start: Option<Start<P, BoardRoom>>,
}

/// Reads the next packet into a room, and stamps it.
pub(crate) fn read_stamped<P: Plans + Rows + Drop, R: Wait, S: Source>(
    rt: &R,
    register: &Register<P, BoardRoom>,
    seat: &mut Seat<Editions<P, BoardRoom>>,
    feed: &mut Feed<S>,
    room: Room,
) -> Result<StampedCell<P>, Unread>
    requires seat { IsSeat 0 register.now seat.old }
    requires room { length (own_moves seat.old) < most_packets }
    ensures seat { IsSeat 0 register.now seat.new }
    ensures seen { StartsWith (seen_by seat.new) (seen_by seat.old) }
    ensures read { IfOk result (λ read. IsStamped P.Rows.tables (last_stamped (1, first_of register.now) (own_moves seat.old)) read (own_moves seat.old)
        (own_moves seat.new) (S.left (source_of feed.old)) (S.left (source_of feed.new))) }
    ensures unread { IfErr result (λ unread. EndsFeed unread.why (S.left (source_of feed.old)) (S.left (source_of feed.new)) ×
        (own_moves seat.new ≡ own_moves seat.old)) }
    ensures ok { OnOk result (S.faults (source_of feed.new) ≡ S.faults (source_of feed.old)) }
    ensures cause { IfErr result (λ unread. HasFillCause unread.why (S.faults (source_of feed.old)) (S.faults (source_of feed.new))) }
    ensures kept { SourceStays S.holds S.missed S.borrow (source_of feed.old) (source_of feed.new) }
{
    let mut cell = match read_packet(0, feed, room) {
        Ok(cell) => cell,
        Err(unread) => return Err(unread),
    };
    let Stamp {
        number,
        edition,
        start,
    } = register.stamp(rt, seat);
    intake_counts();
    cell.number = number;
    Ok(StampedCell {
        cell,
        edition,
        start,
    })
}
