// Packets that were drawn ahead are read, and their sheet is played.
ghost use Rattle.std.specs.Prelude.{◌≡◌, ◌<◌, ◌≤◌, ◌+◌, List, Option, ℕ, length, take, IfSome, OnErr, OnOk};
ghost use Rattle.std.specs.List.{All};
ghost use Rattle.decode_session.specs.Ahead.{Come, IsJob};
ghost use Rattle.decode_session.specs.Batches.{Reads};
ghost use Rattle.decode_session.specs.Causes.{HasFillCause};
ghost use Rattle.decode_session.specs.Finishing.{AreDemandsIn, Finishes, Leads, Serves};
ghost use Rattle.decode_session.specs.Run.{most_in_flight, most_packets};
ghost use Rattle.decode_session.specs.Turns.{Prints, PrintsNext, PrintsPart, StopsNext};
ghost use Rattle.edition_plans.specs.Params.{param_slices};
ghost use Rattle.fold_state.specs.Boards.{memory_of};
ghost use Rattle.param_state.specs.ParamPlans.{plan_names};
ghost use Rattle.fold_state.specs.declared.finish.TheConstants.{TEXT_BEFORE};
ghost use Rattle.mib_model.specs.Kept.{Memory};
ghost use Rattle.mib_model.specs.Interpreter.{stamped_first};
ghost use Rattle.mib_model.specs.Packets.{IsPacket};
ghost use Rattle.packet_feed.specs.Feed.{SourceStays, source_of};
ghost use Rattle.packet_feed.specs.declared.feed.TheConstants.{PACKET_SIZE};
ghost use Rattle.tm_io.specs.Causes.{HasCause};

use crate::batch::Filled;
use crate::job::DrawingJob;
use crate::room::OwnRoom;
use decode_one::{finish, play_sheet};
use edition_plans::Plans;
use fold_state::Board;
use packet_feed::{Feed, Next, header_at};
use param_state::Demand;
use record_text::Lines;
use tm_io::{Failed, Sink, Source, write_all};

// Reads so many packets, or as many as come, and tells how many those are, and how it ended.
fn read_packets<S: Source>(count: usize, feed: &mut Feed<S>, room: &mut OwnRoom) -> (usize, Filled)
    requires { 0 < count }
    ensures few { result.0 ≤ count }
    ensures all { result.1 ≡ Filled.Paused → result.0 ≡ count }
    ensures reads { (start : Option (List ℕ)) (number : ℕ) (packets : List (List ℕ)) → All IsPacket packets → count ≤ length packets
        → IfSome start (λ octets. Come packets (S.left (source_of feed.old)))
        → Reads result.1 start number (number + result.0) (take result.0 packets) (S.left (source_of feed.old)) (S.left (source_of feed.new)) }
    ensures cause { HasFillCause result.1 (S.faults (source_of feed.old)) (S.faults (source_of feed.new)) }
    ensures kept { SourceStays S.holds S.missed S.borrow (source_of feed.old) (source_of feed.new) }
{
    for k in 0..count {
        match feed.next(&mut room.frame) {
            Next::Packet { .. } => (),
            Next::End => return (k, Filled::End),
            Next::Cut { octets } => return (k, Filled::Cut { octets }),
            Next::Failed => return (k, Filled::Failed),
        }
    }
    (count, Filled::Paused)
}

// Decodes a packet and appends its record.
fn add_record<P: Plans>(
    plans: &P,
    demands: &[Demand],
    number: u64,
    packet: &[u8],
    room: &mut OwnRoom,
    board: &mut Board,
    lines: &mut Lines,
)
    requires demands { AreDemandsIn (P.tables plans.now) demands.now }
    requires packet { IsPacket packet.now }
    requires short { length packet.now ≤ PACKET_SIZE }
    requires board { board.old.names ≡ plan_names (param_slices (P.tables plans.now)) }
    requires room { length lines.old ≤ TEXT_BEFORE }
    ensures board { board.new.names ≡ board.old.names }
    ensures finishes { let s = stamped_first (P.tables plans.now) (number, packet.now) in
        Leads (P.tables plans.now) (memory_of board.old) (memory_of board.new) (Finishes 1 (P.tables plans.now) s lines.old lines.new) }
{
    let values = &mut room.values;
    values.decode(plans, &header_at(packet), packet);
    finish(plans, demands, number, packet, values, board, lines);
}

// Writes the records of the first packets of a job, so many, each by itself.
fn write_each<P: Plans, O: Sink>(
    count: usize,
    job: &DrawingJob,
    plans: &P,
    demands: &[Demand],
    room: &mut OwnRoom,
    board: &mut Board,
    lines: &mut Lines,
    out: &mut O,
) -> Result<(), Failed>
    requires count { count ≤ length job.now.stretch.packets }
    requires demands { AreDemandsIn (P.tables plans.now) demands.now }
    requires board { board.old.names ≡ plan_names (param_slices (P.tables plans.now)) }
    ensures board { board.new.names ≡ board.old.names }
    ensures done { OnOk result (Leads (P.tables plans.now) (memory_of board.old) (memory_of board.new)
        (λ m after. Prints (P.tables plans.now) job.now.number (take count job.now.stretch.packets) m after (O.written out.old) (O.written out.new))) }
    ensures part { OnErr result ((m : Memory) → Serves (P.tables plans.now) m (memory_of board.old)
        → PrintsPart (P.tables plans.now) job.now.number (take count job.now.stretch.packets) m (O.written out.old) (O.written out.new)) }
    ensures cause { HasCause (O.faults out.old) (O.faults out.new) result }
{
    for k in 0..count {
        lines.clear();
        let number = job.number + k as u64;
        add_record(
            plans,
            demands,
            number,
            job.stretch.packet(k),
            room,
            board,
            lines,
        );
        let Ok(()) = write_all(out, lines.bytes()) else {
            return Err(Failed);
        };
    }
    Ok(())
}

// Writes the records of the packets of a job that are drawn.
fn write_sheet<P: Plans, O: Sink>(
    job: &DrawingJob,
    plans: &P,
    board: &mut Board,
    lines: &mut Lines,
    out: &mut O,
) -> Result<(), Failed>
    requires job { IsJob (P.tables plans.now) job.now }
    requires some { 0 < job.now.drawn }
    requires board { board.old.names ≡ plan_names (param_slices (P.tables plans.now)) }
    ensures board { board.new.names ≡ board.old.names }
    ensures done { OnOk result (Leads (P.tables plans.now) (memory_of board.old) (memory_of board.new)
        (λ m after. Prints (P.tables plans.now) job.now.number (take job.now.drawn job.now.stretch.packets) m after (O.written out.old) (O.written out.new))) }
    ensures part { OnErr result ((m : Memory) → Serves (P.tables plans.now) m (memory_of board.old)
        → PrintsPart (P.tables plans.now) job.now.number (take job.now.drawn job.now.stretch.packets) m (O.written out.old) (O.written out.new)) }
    ensures cause { HasCause (O.faults out.old) (O.faults out.new) result }
{
    lines.clear();
    play_sheet(plans, &job.sheet, board, lines);
    write_all(out, lines.bytes())
}

/// Reads the packets of a job that are drawn, and writes their records.
pub(crate) fn print_job<P: Plans, S: Source, O: Sink>(
    job: &DrawingJob,
    plans: &P,
    demands: &[Demand],
    feed: &mut Feed<S>,
    room: &mut OwnRoom,
    board: &mut Board,
    lines: &mut Lines,
    out: &mut O,
) -> (u64, Filled, Result<(), Failed>)
    requires job { IsJob (P.tables plans.now) job.now }
    requires some { 0 < job.now.drawn }
    requires demands { AreDemandsIn (P.tables plans.now) demands.now }
    requires board { board.old.names ≡ plan_names (param_slices (P.tables plans.now)) }
    ensures board { board.new.names ≡ board.old.names }
    ensures done { OnOk result.2 ((start : Option (List ℕ)) → IfSome start (λ octets. Come job.now.stretch.packets (S.left (source_of feed.old)))
        → Leads (P.tables plans.now) (memory_of board.old) (memory_of board.new)
        (λ m after. PrintsNext result.1 (P.tables plans.now) start job.now.number result.0 (S.left (source_of feed.old)) (S.left (source_of feed.new)) m after
        (O.written out.old) (O.written out.new))) }
    ensures part { OnErr result.2 ((start : Option (List ℕ)) (m : Memory) → IfSome start (λ octets. Come job.now.stretch.packets (S.left (source_of feed.old)))
        → Serves (P.tables plans.now) m (memory_of board.old)
        → StopsNext result.1 (P.tables plans.now) start job.now.number result.0 (S.left (source_of feed.old)) (S.left (source_of feed.new)) m
        (O.written out.old) (O.written out.new)) }
    ensures some { result.1 ≡ Filled.Paused → job.now.number < result.0 }
    ensures few { result.0 ≤ job.now.number + most_in_flight }
    ensures limit { result.0 ≤ most_packets }
    ensures causes { HasFillCause result.1 (S.faults (source_of feed.old)) (S.faults (source_of feed.new))
        × HasCause (O.faults out.old) (O.faults out.new) result.2 }
    ensures kept { SourceStays S.holds S.missed S.borrow (source_of feed.old) (source_of feed.new) }
{
    let (count, filled) = read_packets(job.drawn, feed, room);
    let next = job.number + count as u64;
    if count < job.drawn {
        let written = write_each(count, job, plans, demands, room, board, lines, out);
        return (next, filled, written);
    }
    (next, filled, write_sheet(job, plans, board, lines, out))
}
