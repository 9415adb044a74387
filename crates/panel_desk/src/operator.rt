// A desk among several, whose replies begin with its number.
ghost use Rattle.std.specs.Prelude.{◌≡◌, ◌≤◌, ◌*◌, true, length, Some};
ghost use Rattle.desk_lines.specs.Reader.{reading_of, source_of};
ghost use Rattle.edition_register.specs.Panels.{IsDeskSeat};
ghost use Rattle.histories.specs.History.{StartsWith};
ghost use Rattle.live_desk.specs.Lines.{HandsOn};
ghost use Rattle.live_desk.specs.Scripts.{HasDeskCause, HasRepliesCause, Worked, fails_to_reply};
ghost use Rattle.live_desk.specs.Standing.{standing_of};
ghost use Rattle.run_model.specs.Replies.{desk_line};
ghost use Rattle.packet_feed.specs.Feed.{SourceStays};
ghost use Rattle.panel_lines.specs.Replies.{told};
ghost use Rattle.turn_cell.specs.Seats.{own_moves, seen_by};

use crate::panel_desk::PanelDesk;
use desk_lines::DeskReader;
use edition::Edition;
use edition_register::Editions;
use fold_state::BoardRoom;
use live_desk::{DeskEnd, Operator, Place, work};
use mib_model::{Line, Steps};
use panel_lines::{PanelReply, panel_reply_line};
use run_model::Reply;
use std::sync::Wait;
use std::sync::ledger::Ledger;
use tm_io::{Sink, Source};
use turn_cell::Seat;

// The line of a reply.
fn line_of(desk: u8, reply: &PanelReply) -> Line
    ensures { result ≡ desk_line (Some desk) (told reply.now) }
{
    let mut line = Line::new();
    panel_reply_line(desk, reply, &mut line);
    line
}

impl Operator for PanelDesk {
    type Plans = Edition;

    ghost use Rattle.panel_desk.specs.State.{panel_state};

    ghost several = { true };

    ghost state = { panel_state };

    ghost keeps = { λ _ _ _. Unit {0} };

    fn handle_line<L: Ledger, R: Wait>(
        &mut self,
        place: &Place<'_, Edition, R>,
        seat: &mut Seat<Editions<Edition, BoardRoom>>,
        line: &[u8],
        steps: &mut Steps<L>,
    ) -> Option<Line> {
        let reply = self.line(place.rt, place.alloc, place.register, seat, line, steps)?;
        Some(line_of(place.desk, &reply))
    }

    fn reply_line(desk: u8, reply: &Reply) -> Line {
        line_of(desk, &PanelReply::Plain(*reply))
    }
}

impl PanelDesk {
    ghost use Rattle.panel_desk.specs.State.{panel_state};

    /// Handles the lines of a script to its end, or up to and with a `go` where that is to be waited for: then there is no end. Each
    /// reply begins with the number of the place.
    pub fn work<R: Wait, D: Source, P: Sink>(
        &mut self,
        place: &Place<'_, Edition, R>,
        seat: &mut Seat<Editions<Edition, BoardRoom>>,
        reader: &mut DeskReader<D>,
        replies: &mut P,
        until_go: bool,
    ) -> Option<DeskEnd>
        requires seat { IsDeskSeat place.now.desk place.now.register.now seat.old }
        requires room { length (own_moves seat.old) ≤ 2 * (reading_of reader.old).lines }
        ensures seat { IsDeskSeat place.now.desk place.now.register.now seat.new }
        ensures worked { Worked (Some place.now.desk) until_go result (standing_of panel_state D.left P.written reader.old self.old seat.old replies.old)
            (standing_of panel_state D.left P.written reader.new self.new seat.new replies.new) }
        ensures room { length (own_moves seat.new) ≤ 2 * (reading_of reader.new).lines }
        ensures seen { StartsWith (seen_by seat.new) (seen_by seat.old) }
        ensures desk { HasDeskCause result (D.faults (source_of reader.old)) (D.faults (source_of reader.new)) }
        ensures replies { HasRepliesCause result (P.faults replies.old) (P.faults replies.new) }
        ensures handed { HandsOn (fails_to_reply result) P.written P.handed replies.old replies.new }
        ensures kept { SourceStays D.holds D.missed D.borrow (source_of reader.old) (source_of reader.new) }
    {
        work(place, seat, self, reader, replies, until_go)
    }
}
