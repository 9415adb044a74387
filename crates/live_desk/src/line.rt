// One line of a desk.
ghost use Rattle.std.specs.Prelude.{◌≡◌, ◌<◌, ◌≤◌, ◌+◌, ◌^◌, false, length, OnOk, OnErr};
ghost use Rattle.std.specs.Io.KnownBytes.{Appends};
ghost use Rattle.desk_lines.specs.Reader.{source_of};
ghost use Rattle.desk_lines.specs.declared.reader.TheConstants.{LINE_ROOM};
ghost use Rattle.histories.specs.History.{StartsWith};
ghost use Rattle.live_desk.specs.Lines.{Answers, Comes, TellsLimit, HandsOn, HasReplyCause, HasScriptCause, fails_replying, line_text};
ghost use Rattle.live_desk.specs.DeskEnds.{is_reply_fault};
ghost use Rattle.live_desk.specs.Operators.{IsSeated, number_if};
ghost use Rattle.live_desk.specs.Standing.{held_by, standing_of};
ghost use Rattle.run_model.specs.DeskLines.{request_of};
ghost use Rattle.run_model.specs.DeskRuns as Spec;
ghost use Rattle.packet_feed.specs.Feed.{SourceStays};
ghost use Rattle.tm_io.specs.Causes.{HasCause, RisesWhere};
ghost use Rattle.tm_io.specs.Octets.{AppendsPrefix};
ghost use Rattle.turn_cell.specs.Seats.{own_moves, seen_by};

use crate::desk_end::DeskEnd;
use crate::operator::{Operator, Place};
use desk_lines::{DeskReader, LINE_ROOM, NextLine, Request, request_of};
use edition_register::Editions;
use fold_state::BoardRoom;
use mib_model::{Line, Steps};
use run_model::Reply;
use std::sync::Wait;
use std::sync::ledger::Ledger;
use tm_io::{Failed, Sink, Source, write_all};
use turn_cell::Seat;

/// What came of the next line: it was handled, and is a `go` or not; or the script ended.
#[derive(Clone, Copy, Debug, PartialEq, Eq)]
pub(crate) enum Came {
    Handled { go: bool },
    Ended(DeskEnd),
}

// Whether a line is a `go`; several desks have no other.
fn is_go(line: &[u8]) -> bool
    ensures { result ≡ Spec.is_go (request_of false line.now) }
{
    matches!(request_of(line), Request::Go)
}

// Writes a line, and hands it on.
fn write_line<P: Sink>(line: &Line, replies: &mut P) -> Result<(), Failed>
    ensures all { OnOk result (Appends (P.written replies.old) (P.written replies.new) line.now) }
    ensures part { OnErr result (AppendsPrefix (P.written replies.old) (P.written replies.new) line.now) }
    ensures handed { OnOk result (P.handed replies.new ≡ P.written replies.new) }
    ensures cause { HasCause (P.faults replies.old) (P.faults replies.new) result }
{
    write_all(replies, line.bytes())?;
    replies.flush()
}

// Writes the line of a reply, where there is one.
fn write_given<P: Sink>(line: &Option<Line>, replies: &mut P) -> Result<(), Failed>
    ensures all { OnOk result (Appends (P.written replies.old) (P.written replies.new) (line_text line.now)) }
    ensures part { OnErr result (AppendsPrefix (P.written replies.old) (P.written replies.new) (line_text line.now)) }
    ensures handed { OnOk result (P.handed replies.old ≡ P.written replies.old → P.handed replies.new ≡ P.written replies.new) }
    ensures cause { HasCause (P.faults replies.old) (P.faults replies.new) result }
{
    match line {
        Some(line) => write_line(line, replies),
        None => Ok(()),
    }
}

// Handles a line, and writes its reply.
fn handle<L: Ledger, R: Wait, O: Operator, P: Sink>(
    place: &Place<'_, O::Plans, R>,
    seat: &mut Seat<Editions<O::Plans, BoardRoom>>,
    operator: &mut O,
    line: &[u8],
    replies: &mut P,
    steps: &mut Steps<L>,
) -> Came
    requires seated { IsSeated (number_if O.several place.now.desk) place.now.register.now seat.old (O.keeps operator.old) }
    requires room { length (own_moves seat.old) + 1 < 2 ^ 32 }
    ensures seated { IsSeated (number_if O.several place.now.desk) place.now.register.now seat.new (O.keeps operator.new) }
    ensures answers { Answers (number_if O.several place.now.desk) result line.now (held_by O.state P.written operator.old seat.old replies.old)
        (held_by O.state P.written operator.new seat.new replies.new) }
    ensures few { length (own_moves seat.new) ≤ length (own_moves seat.old) + 2 }
    ensures seen { StartsWith (seen_by seat.new) (seen_by seat.old) }
    ensures replies { HasReplyCause result (P.faults replies.old) (P.faults replies.new) }
    ensures handed { HandsOn (fails_replying result) P.written P.handed replies.old replies.new }
{
    let reply = operator.handle_line(place, seat, line, steps);
    let go = is_go(line);
    match write_given(&reply, replies) {
        Ok(()) => Came::Handled { go },
        Err(_) => Came::Ended(DeskEnd::ReplyFault),
    }
}

// Ends at the script's limit, and writes the line of it.
fn end_at_limit<O: Operator, P: Sink>(desk: u8, replies: &mut P) -> DeskEnd
    ensures ends { TellsLimit (number_if O.several desk) result (P.written replies.old) (P.written replies.new) }
    ensures handed { HandsOn (is_reply_fault result) P.written P.handed replies.old replies.new }
    ensures cause { RisesWhere (is_reply_fault result) (P.faults replies.old) (P.faults replies.new) }
{
    let line = O::reply_line(desk, &Reply::Limit);
    match write_line(&line, replies) {
        Ok(()) => DeskEnd::Limit,
        Err(_) => DeskEnd::ReplyFault,
    }
}

/// Handles the next line of a script, and writes its reply; at the script's limit the line of it.
pub(crate) fn next_line<L: Ledger, R: Wait, O: Operator, D: Source, P: Sink>(
    place: &Place<'_, O::Plans, R>,
    seat: &mut Seat<Editions<O::Plans, BoardRoom>>,
    operator: &mut O,
    reader: &mut DeskReader<D>,
    buffer: &mut [u8],
    replies: &mut P,
    steps: &mut Steps<L>,
) -> Came
    requires seated { IsSeated (number_if O.several place.now.desk) place.now.register.now seat.old (O.keeps operator.old) }
    requires room { length (own_moves seat.old) + 1 < 2 ^ 32 }
    requires buffer { length buffer.old ≡ LINE_ROOM }
    ensures seated { IsSeated (number_if O.several place.now.desk) place.now.register.now seat.new (O.keeps operator.new) }
    ensures comes { Comes (number_if O.several place.now.desk) result (standing_of O.state D.left P.written reader.old operator.old seat.old replies.old)
        (standing_of O.state D.left P.written reader.new operator.new seat.new replies.new) }
    ensures few { length (own_moves seat.new) ≤ length (own_moves seat.old) + 2 }
    ensures seen { StartsWith (seen_by seat.new) (seen_by seat.old) }
    ensures script { HasScriptCause result (D.faults (source_of reader.old)) (D.faults (source_of reader.new)) }
    ensures replies { HasReplyCause result (P.faults replies.old) (P.faults replies.new) }
    ensures handed { HandsOn (fails_replying result) P.written P.handed replies.old replies.new }
    ensures buffer { length buffer.new ≡ LINE_ROOM }
    ensures kept { SourceStays D.holds D.missed D.borrow (source_of reader.old) (source_of reader.new) }
{
    match reader.next(buffer) {
        NextLine::Line { octets } => {
            let line = &buffer[..octets as usize];
            return handle(place, seat, operator, line, replies, steps);
        }
        NextLine::TooLong => {
            return handle(place, seat, operator, buffer, replies, steps);
        }
        NextLine::End => return Came::Ended(DeskEnd::Done),
        NextLine::Limit => return Came::Ended(end_at_limit::<O, P>(place.desk, replies)),
        NextLine::Failed => return Came::Ended(DeskEnd::DeskFault),
    }
}
