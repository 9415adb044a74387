// The lines of a desk, one after the other.
ghost use Rattle.std.specs.Prelude.{◌≡◌, ◌≤◌, ◌*◌, true, false, length, IsTrue};
ghost use Rattle.desk_lines.specs.Reader.{reading_of, source_of};
ghost use Rattle.desk_lines.specs.declared.reader.TheConstants.{LINE_ROOM};
ghost use Rattle.histories.specs.History.{StartsWith};
ghost use Rattle.live_desk.specs.Lines.{HandsOn};
ghost use Rattle.live_desk.specs.Operators.{IsSeated, number_if};
ghost use Rattle.live_desk.specs.Scripts.{HasDeskCause, HasRepliesCause, Worked, fails_to_reply};
ghost use Rattle.live_desk.specs.Standing.{standing_of};
ghost use Rattle.packet_feed.specs.Feed.{SourceStays};
ghost use Rattle.turn_cell.specs.Seats.{own_moves, seen_by};

use crate::desk_end::DeskEnd;
use crate::line::{Came, next_line};
use crate::operator::{Operator, Place};
use desk_lines::DeskReader;
use edition_register::Editions;
use fold_state::BoardRoom;
use mib_model::Steps;
use std::sync::Wait;
use std::sync::ledger::Ledger;
use tm_io::{Sink, Source};
use turn_cell::Seat;

// Whether a line is the `go` that is waited for.
fn is_awaited(go: bool, until_go: bool) -> bool
    ensures yes { IsTrue result → (until_go ≡ true) × (go ≡ true) }
    ensures no { result ≡ false → until_go ≡ true → go ≡ false }
{
    go && until_go
}

/// Handles the lines of a script to its end, or up to and with a `go` where that is to be waited for: then there is no end.
pub(crate) fn handle_lines<L: Ledger, R: Wait, O: Operator, D: Source, P: Sink>(
    place: &Place<'_, O::Plans, R>,
    seat: &mut Seat<Editions<O::Plans, BoardRoom>>,
    operator: &mut O,
    reader: &mut DeskReader<D>,
    buffer: &mut [u8],
    replies: &mut P,
    steps: &mut Steps<L>,
    until_go: bool,
) -> Option<DeskEnd>
    requires seated { IsSeated (number_if O.several place.now.desk) place.now.register.now seat.old (O.keeps operator.old) }
    requires room { length (own_moves seat.old) ≤ 2 * (reading_of reader.old).lines }
    requires buffer { length buffer.old ≡ LINE_ROOM }
    ensures seated { IsSeated (number_if O.several place.now.desk) place.now.register.now seat.new (O.keeps operator.new) }
    ensures worked { Worked (number_if O.several place.now.desk) until_go result
        (standing_of O.state D.left P.written reader.old operator.old seat.old replies.old)
        (standing_of O.state D.left P.written reader.new operator.new seat.new replies.new) }
    ensures room { length (own_moves seat.new) ≤ 2 * (reading_of reader.new).lines }
    ensures seen { StartsWith (seen_by seat.new) (seen_by seat.old) }
    ensures desk { HasDeskCause result (D.faults (source_of reader.old)) (D.faults (source_of reader.new)) }
    ensures replies { HasRepliesCause result (P.faults replies.old) (P.faults replies.new) }
    ensures handed { HandsOn (fails_to_reply result) P.written P.handed replies.old replies.new }
    ensures buffer { length buffer.new ≡ LINE_ROOM }
    ensures kept { SourceStays D.holds D.missed D.borrow (source_of reader.old) (source_of reader.new) }
{
    loop {
        match next_line(place, seat, operator, reader, buffer, replies, steps) {
            Came::Handled { go } => {
                if is_awaited(go, until_go) {
                    return None;
                }
            }
            Came::Ended(end) => return Some(end),
        }
    }
}
