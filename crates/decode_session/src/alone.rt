// Packets that are read, decoded and finished in turn.
ghost use Rattle.std.specs.Prelude.{◌≡◌, ◌≢◌, ◌+◌, ◌<◌, ◌≤◌, [], MatchOption, length};
ghost use Rattle.decode_session.specs.Causes.{HasFillCause};
ghost use Rattle.decode_session.specs.Run.{most_packets};
ghost use Rattle.decode_session.specs.Finishing.{AreDemandsIn, Leads};
ghost use Rattle.decode_session.specs.Turns.{AddsOne, AddsNothing, AddsBatch};
ghost use Rattle.edition_plans.specs.Params.{param_slices};
ghost use Rattle.fold_state.specs.Boards.{memory_of};
ghost use Rattle.param_state.specs.ParamPlans.{plan_names};
ghost use Rattle.fold_state.specs.declared.finish.TheConstants.{TEXT_BEFORE};
ghost use Rattle.packet_feed.specs.Feed.{SourceStays, source_of};

use crate::batch::{Filled, MOST_PACKETS};
use crate::room::OwnRoom;
use decode_one::finish;
use edition_plans::Plans;
use fold_state::{Board, TEXT_BEFORE};
use packet_feed::{Feed, Next};
use param_state::Demand;
use record_text::Lines;
use tm_io::Source;

/// The most packets that are read one by one and whose records are written at once.
pub(crate) const AT_ONCE: u64 = 16;

// Reads the next packet into a room, decodes it and appends its record; else tells why there is none.
#[inline(always)]
fn add_next<P: Plans, S: Source>(
    number: u64,
    plans: &P,
    demands: &[Demand],
    feed: &mut Feed<S>,
    room: &mut OwnRoom,
    board: &mut Board,
    lines: &mut Lines,
) -> Option<Filled>
    requires demands { AreDemandsIn (P.tables plans.now) demands.now }
    requires board { board.old.names ≡ plan_names (param_slices (P.tables plans.now)) }
    requires room { length lines.old ≤ TEXT_BEFORE }
    ensures board { board.new.names ≡ board.old.names }
    ensures adds { let left = S.left (source_of feed.old) in let new = S.left (source_of feed.new) in
        MatchOption result (Leads (P.tables plans.now) (memory_of board.old) (memory_of board.new)
        (λ m after. AddsOne (P.tables plans.now) number left new m after lines.old lines.new))
        (λ why. AddsNothing why left new (memory_of board.old) (memory_of board.new) lines.old lines.new) }
    ensures cause { let before = S.faults (source_of feed.old) in let now = S.faults (source_of feed.new) in
        MatchOption result (now ≡ before) (λ why. HasFillCause why before now) }
    ensures kept { SourceStays S.holds S.missed S.borrow (source_of feed.old) (source_of feed.new) }
{
    let OwnRoom { frame, values } = room;
    match feed.next(frame) {
        Next::Packet { octets, header } => {
            let packet = &frame[..octets as usize];
            values.decode(plans, &header, packet);
            finish(plans, demands, number, packet, values, board, lines);
            None
        }
        Next::End => Some(Filled::End),
        Next::Cut { octets } => Some(Filled::Cut { octets }),
        Next::Failed => Some(Filled::Failed),
    }
}

/// Makes the text of the next packets, from one number up to another, while the run's limit isn't reached and the next one is at hand,
/// and tells the number behind them.
pub(crate) fn add_batch<P: Plans, S: Source>(
    number: u64,
    end: u64,
    plans: &P,
    demands: &[Demand],
    feed: &mut Feed<S>,
    room: &mut OwnRoom,
    board: &mut Board,
    lines: &mut Lines,
) -> (u64, Filled)
    requires demands { AreDemandsIn (P.tables plans.now) demands.now }
    requires number { number ≤ most_packets }
    requires some { number < end }
    requires board { board.old.names ≡ plan_names (param_slices (P.tables plans.now)) }
    ensures board { board.new.names ≡ board.old.names }
    ensures adds { let left = S.left (source_of feed.old) in let new = S.left (source_of feed.new) in
        Leads (P.tables plans.now) (memory_of board.old) (memory_of board.new)
        (λ m after. AddsBatch result.1 (P.tables plans.now) number result.0 left new m after lines.new) }
    ensures some { result.1 ≡ Filled.Paused → number < result.0 }
    ensures few { result.0 ≤ end }
    ensures limit { result.0 ≤ most_packets + 1 }
    ensures below { result.1 ≢ Filled.Paused → result.0 ≤ most_packets }
    ensures cause { HasFillCause result.1 (S.faults (source_of feed.old)) (S.faults (source_of feed.new)) }
    ensures kept { SourceStays S.holds S.missed S.borrow (source_of feed.old) (source_of feed.new) }
{
    lines.clear();
    let mut next = number;
    while next < end {
        if let Some(why) = add_next(next, plans, demands, feed, room, board, lines) {
            return (next, why);
        }
        next += 1;
        if next > MOST_PACKETS || lines.bytes().len() > TEXT_BEFORE || !feed.is_next_at_hand() {
            return (next, Filled::Paused);
        }
    }
    (next, Filled::Paused)
}
