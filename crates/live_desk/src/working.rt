// A desk's work on its script.
ghost use Rattle.std.specs.Prelude.{◌≡◌, ◌≤◌, ◌*◌, length};
ghost use Rattle.desk_lines.specs.Reader.{reading_of, source_of};
ghost use Rattle.histories.specs.History.{StartsWith};
ghost use Rattle.live_desk.specs.Lines.{HandsOn};
ghost use Rattle.live_desk.specs.Operators.{IsSeated, number_if};
ghost use Rattle.live_desk.specs.Scripts.{HasDeskCause, HasRepliesCause, Worked, fails_to_reply};
ghost use Rattle.live_desk.specs.Standing.{standing_of};
ghost use Rattle.packet_feed.specs.Feed.{SourceStays};
ghost use Rattle.turn_cell.specs.Seats.{own_moves, seen_by};

use crate::desk_end::DeskEnd;
use crate::operator::{Operator, Place};
use crate::script::handle_lines;
use desk_lines::{DeskReader, LINE_ROOM};
use edition_register::Editions;
use fold_state::BoardRoom;
use mib_model::Steps;
use std::marker::Brand;
use std::sync::Wait;
use std::sync::ledger::{Blank, Ledger};
use tm_io::{Sink, Source};
use turn_cell::Seat;

// Handles the lines of a script, and counts the plans that are compiled on a ledger of its own.
fn work_counted<L: Ledger, R: Wait, O: Operator, D: Source, P: Sink>(
    place: &Place<'_, O::Plans, R>,
    seat: &mut Seat<Editions<O::Plans, BoardRoom>>,
    operator: &mut O,
    reader: &mut DeskReader<D>,
    replies: &mut P,
    until_go: bool,
    blank: Blank,
) -> Option<DeskEnd>
    requires blank { (blank.name ≡ L.name) × (blank.parts ≡ L.parts) × (blank.parts ≡ 1) }
    requires seated { IsSeated (number_if O.several place.now.desk) place.now.register.now seat.old (O.keeps operator.old) }
    requires room { length (own_moves seat.old) ≤ 2 * (reading_of reader.old).lines }
    ensures seated { IsSeated (number_if O.several place.now.desk) place.now.register.now seat.new (O.keeps operator.new) }
    ensures worked { Worked (number_if O.several place.now.desk) until_go result
        (standing_of O.state D.left P.written reader.old operator.old seat.old replies.old)
        (standing_of O.state D.left P.written reader.new operator.new seat.new replies.new) }
    ensures room { length (own_moves seat.new) ≤ 2 * (reading_of reader.new).lines }
    ensures seen { StartsWith (seen_by seat.new) (seen_by seat.old) }
    ensures desk { HasDeskCause result (D.faults (source_of reader.old)) (D.faults (source_of reader.new)) }
    ensures replies { HasRepliesCause result (P.faults replies.old) (P.faults replies.new) }
    ensures handed { HandsOn (fails_to_reply result) P.written P.handed replies.old replies.new }
    ensures kept { SourceStays D.holds D.missed D.borrow (source_of reader.old) (source_of reader.new) }
{
    let mut steps = Steps::<L>::new(blank);
    let mut buffer = [0; LINE_ROOM];
    handle_lines(
        place,
        seat,
        operator,
        reader,
        &mut buffer,
        replies,
        &mut steps,
        until_go,
    )
}

/// Handles the lines of a script to its end, or up to and with a `go` where that is to be waited for: then there is no end.
pub fn work<R: Wait, O: Operator, D: Source, P: Sink>(
    place: &Place<'_, O::Plans, R>,
    seat: &mut Seat<Editions<O::Plans, BoardRoom>>,
    operator: &mut O,
    reader: &mut DeskReader<D>,
    replies: &mut P,
    until_go: bool,
) -> Option<DeskEnd>
    requires seated { IsSeated (number_if O.several place.now.desk) place.now.register.now seat.old (O.keeps operator.old) }
    requires room { length (own_moves seat.old) ≤ 2 * (reading_of reader.old).lines }
    ensures seated { IsSeated (number_if O.several place.now.desk) place.now.register.now seat.new (O.keeps operator.new) }
    ensures worked { Worked (number_if O.several place.now.desk) until_go result
        (standing_of O.state D.left P.written reader.old operator.old seat.old replies.old)
        (standing_of O.state D.left P.written reader.new operator.new seat.new replies.new) }
    ensures room { length (own_moves seat.new) ≤ 2 * (reading_of reader.new).lines }
    ensures seen { StartsWith (seen_by seat.new) (seen_by seat.old) }
    ensures desk { HasDeskCause result (D.faults (source_of reader.old)) (D.faults (source_of reader.new)) }
    ensures replies { HasRepliesCause result (P.faults replies.old) (P.faults replies.new) }
    ensures handed { HandsOn (fails_to_reply result) P.written P.handed replies.old replies.new }
    ensures kept { SourceStays D.holds D.missed D.borrow (source_of reader.old) (source_of reader.new) }
{
    let blank = Blank::new(1);
    work_counted::<Brand, R, O, D, P>(place, seat, operator, reader, replies, until_go, blank)
}
