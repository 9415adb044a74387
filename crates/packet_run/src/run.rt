// The packets of a feed are read, and handed to workers or done by the caller.
ghost use Rattle.std.specs.Prelude.{◌≡◌, ◌≢◌, ◌⊎◌, ◌≤◌, ◌<◌, ◌+◌, ◌++◌, ◌∷◌, [], List, true, OnOk, OnErr, IfSome, MatchOption, None, ⊤, length};
ghost use Rattle.std.specs.Arc.{arc_value};
ghost use Rattle.commit_order.specs.Windows.{next_of};
ghost use Rattle.decode_session.specs.Run.{most_packets};
ghost use Rattle.edition_register.specs.Seats.{IsSeat, first_of};
ghost use Rattle.fold_state.specs.Boards.{is_made_for};
ghost use Rattle.histories.specs.History.{StartsWith};
ghost use Rattle.mib_model.specs.declared.database.Database.{Database};
ghost use Rattle.mib_model.specs.Interpreter.{StampedPacket};
ghost use Rattle.packet_feed.specs.Feed.{BeginsWithPacket, SourceStays, source_of};
ghost use Rattle.packet_run.specs.Feeding.{Fed, HasUntilCause, HasWriteCause};
ghost use Rattle.packet_jobs.specs.declared.job.Task.TheVariants as task;
ghost use Rattle.packet_run.specs.Told.{From, Member};
ghost use Rattle.packet_run.specs.Piping.{GoesOn, Keeps, Piping, StaysInUse, Stopped, Takes, put_by};
ghost use Rattle.packet_run.specs.Reading.{stamped_as};
ghost use Rattle.packet_run.specs.Stocks.{HasPasses, IsFirst, IsUnused};
ghost use Rattle.packet_run.specs.declared.stock.TheConstants.{MOST_AHEAD};
ghost use Rattle.packet_jobs.specs.Turning.{AreSame, ComesBehind};
ghost use Rattle.tm_io.specs.Causes.{HasCause};
ghost use Rattle.turn_cell.specs.Seats.{own_moves, seen_by};
ghost use Rattle.work_queue.specs.Passes.{IsOf};

use crate::alone::do_alone;
use crate::commit::commit_to;
use crate::parts::{Crew, Intake, Pipeline};
use crate::pipeline::{keep_room, offer};
use crate::reading::{StampedCell, read_stamped};
use crate::stock::MOST_AHEAD;
use crate::until::Until;
use crate::watch::Watch;
use decode_session::{Filled, MOST_PACKETS, PacketCell, Unread};
use edition_plans::Plans;
use edition_register::{Editions, Start};
use fold_state::BoardRoom;
use mib_model::Rows;
use packet_feed::Feed;
use packet_jobs::{InUse, Job, Task};
use std::sync::{Arc, Wait};
use tm_io::{Failed, Sink, Source};
use turn_cell::Seat;

// The first packets of a run go to workers in any case, and with several workers others where one of the last so many was as large as this.
const FIRST: u64 = 64;

const LARGE: u32 = 96;

// Hands on what was written, and tells the watch that the run may wait.
fn come_to_rest<O: Sink, W: Watch, R: Wait>(
    rt: &R,
    out: &mut O,
    watch: &mut W,
) -> Result<(), Failed>
    ensures bytes { O.written out.new ≡ O.written out.old }
    ensures handed { OnOk result (O.handed out.new ≡ O.written out.new) }
    ensures rests { (told : List Member) → W.stands watch.old told → W.stands watch.new told }
    ensures cause { HasCause (O.faults out.old) (O.faults out.new) result }
{
    out.flush()?;
    watch.rests(rt);
    Ok(())
}

// Commits packets until one more may be read: some of those in work, and all of them where reading may wait, when what was written
// is handed on too.
fn make_way<P: Plans + Drop, S: Source, O: Sink, W: Watch, R: Wait>(
    rt: &R,
    crew: &Crew<P>,
    pipeline: &mut Pipeline<P>,
    in_use: &mut InUse<P>,
    feed: &Feed<S>,
    out: &mut O,
    watch: &mut W,
) -> Result<(), Failed>
    requires passes { IsOf crew.now.jobs pipeline.old.first × IsOf crew.now.results pipeline.old.second }
    requires next { next_of pipeline.old.window ≡ pipeline.old.done + 1 }
    ensures passes { IsOf crew.now.jobs pipeline.new.first × IsOf crew.now.results pipeline.new.second }
    ensures next { OnOk result (next_of pipeline.new.window ≡ pipeline.new.done + 1) }
    ensures room { OnOk result (pipeline.new.read < pipeline.new.done + MOST_AHEAD) }
    ensures handed { OnOk result ((O.handed out.new ≡ O.written out.new) × (pipeline.new.read ≤ pipeline.new.done)
        ⊎ IfSome (S.left (source_of feed.now)) BeginsWithPacket) }
    ensures goes_on { GoesOn pipeline.old pipeline.new }
    ensures keeps { Keeps P.tables pipeline.old pipeline.new }
    ensures in_use { StaysInUse in_use.old in_use.new }
    ensures piping { OnOk result ((from : From W) (stamped : List StampedPacket)
        → Piping P.tables W.stands from stamped pipeline.old in_use.old watch.old (O.written out.old)
        → Piping P.tables W.stands from stamped pipeline.new in_use.new watch.new (O.written out.new)) }
    ensures stopped { OnErr result ((from : From W) (stamped : List StampedPacket)
        → Piping P.tables W.stands from stamped pipeline.old in_use.old watch.old (O.written out.old)
        → Stopped P.tables W.stands from stamped pipeline.new watch.new (O.written out.new)) }
    ensures cause { HasCause (O.faults out.old) (O.faults out.new) result }
{
    let read = pipeline.read;
    if feed.is_next_at_hand() {
        let most = u64::from(crew.rooms.min(MOST_AHEAD)).max(1);
        let least = read.saturating_sub(most - 1);
        return commit_to(rt, crew, pipeline, in_use, least, out, watch);
    }
    let Ok(()) = commit_to(rt, crew, pipeline, in_use, read, out, watch) else {
        return Err(Failed);
    };
    come_to_rest(rt, out, watch)
}

// Puts the job of a packet that was read, with a handle of its edition.
fn hand_over<P: Plans + Drop, R: Wait>(
    rt: &R,
    crew: &Crew<P>,
    pipeline: &mut Pipeline<P>,
    cell: PacketCell,
    handle: Arc<P>,
)
    requires first { IsOf crew.now.jobs pipeline.old.first }
    requires few { pipeline.old.read < most_packets }
    ensures first { IsOf crew.now.jobs pipeline.new.first }
    ensures second { pipeline.new.second ≡ pipeline.old.second }
    ensures put { (job : _) × (put_by pipeline.new ≡ put_by pipeline.old ++ task.Packet job ∷ []) × (job.cell ≡ cell) × (job.handle ≡ handle) }
    ensures done { pipeline.new.done ≡ pipeline.old.done }
    ensures read { pipeline.new.read ≡ pipeline.old.read + 1 }
    ensures next { next_of pipeline.new.window ≡ next_of pipeline.old.window }
    ensures keeps { Keeps P.tables pipeline.old pipeline.new }
{
    let job = Job {
        cell,
        handle,
        is_drawn: false,
    };
    offer(rt, crew, pipeline, Task::Packet(job));
    pipeline.read += 1;
}

// A handle for a packet that goes to a worker: none where an activation begins with it, or where no handle is had.
fn handle_for<P: Plans + Drop>(
    start: &Option<Start<P, BoardRoom>>,
    in_use: &InUse<P>,
    goes_to_worker: bool,
) -> Option<Arc<P>>
    ensures { IfSome result (λ handle. (start.now ≡ None) × (arc_value handle ≡ arc_value in_use.now.handle)) }
{
    if !goes_to_worker {
        return None;
    }
    match start {
        Some(_) => None,
        None => match Arc::try_clone(&in_use.handle) {
            Ok(handle) => Some(handle),
            Err(_) => None,
        },
    }
}

// Hands a packet that was read to the workers, or does it itself once all before it are committed: where an activation begins with
// it, where it isn't to go to a worker, or where no handle is had.
fn take_packet<P: Plans + Rows + Drop, O: Sink, W: Watch, R: Wait>(
    rt: &R,
    crew: &Crew<P>,
    pipeline: &mut Pipeline<P>,
    in_use: &mut InUse<P>,
    read: StampedCell<P>,
    goes_to_worker: bool,
    out: &mut O,
    watch: &mut W,
) -> Result<(), Failed>
    requires passes { IsOf crew.now.jobs pipeline.old.first × IsOf crew.now.results pipeline.old.second }
    requires same { AreSame P.Rows.tables P.Structures.tables }
    requires start { MatchOption read.start ⊤ (λ start. is_made_for (P.Rows.tables (arc_value start.handle)) start.board ≡ true) }
    requires next { next_of pipeline.old.window ≡ pipeline.old.done + 1 }
    requires counts { (pipeline.old.done ≤ pipeline.old.read) × (pipeline.old.read < most_packets) }
    ensures passes { IsOf crew.now.jobs pipeline.new.first × IsOf crew.now.results pipeline.new.second }
    ensures next { OnOk result (next_of pipeline.new.window ≡ pipeline.new.done + 1) }
    ensures read { (pipeline.new.read ≡ pipeline.old.read + 1) × (pipeline.old.done ≤ pipeline.new.done) × (pipeline.new.done ≤ pipeline.new.read) }
    ensures keeps { Keeps P.Structures.tables pipeline.old pipeline.new }
    ensures piping { OnOk result ((from : From W) (stamped : List StampedPacket) (shown : Database)
        → ComesBehind P.Structures.tables P.Rows.tables in_use.old read.edition shown read.start → read.cell.number ≡ length stamped + 1
        → Piping P.Structures.tables W.stands from stamped pipeline.old in_use.old watch.old (O.written out.old)
        → Takes P.Structures.tables W.stands from stamped (stamped_as read shown) pipeline.new in_use.new watch.new (O.written out.new)) }
    ensures stopped { OnErr result ((from : From W) (stamped : List StampedPacket) (shown : Database)
        → ComesBehind P.Structures.tables P.Rows.tables in_use.old read.edition shown read.start → read.cell.number ≡ length stamped + 1
        → Piping P.Structures.tables W.stands from stamped pipeline.old in_use.old watch.old (O.written out.old)
        → Stopped P.Structures.tables W.stands from (stamped ++ stamped_as read shown ∷ []) pipeline.new watch.new (O.written out.new)) }
    ensures cause { HasCause (O.faults out.old) (O.faults out.new) result }
{
    let StampedCell {
        cell,
        edition,
        start,
    } = read;
    if let Some(handle) = handle_for(&start, in_use, goes_to_worker) {
        hand_over(rt, crew, pipeline, cell, handle);
        return Ok(());
    }
    let all = pipeline.read;
    let Ok(()) = commit_to(rt, crew, pipeline, in_use, all, out, watch) else {
        keep_room(&mut pipeline.rooms, cell.into_room());
        pipeline.read += 1;
        return Err(Failed);
    };
    let read = StampedCell {
        cell,
        edition,
        start,
    };
    do_alone(rt, read, pipeline, in_use, out, watch)
}

// Whether a packet goes to a worker: the first ones of a run do, and with several workers later ones where a large one was among the last,
// but not where nothing is in work and the next isn't at hand. With one worker the caller would only wait for it. It says nothing.
fn goes_to_worker<S: Source>(
    workers: u8,
    number: u64,
    last_large: u64,
    is_idle: bool,
    feed: &Feed<S>,
) -> bool {
    number <= FIRST
        || workers > 1
            && number.saturating_sub(last_large) < FIRST
            && (!is_idle || feed.is_next_at_hand())
}

/// Reads the packets of a feed up to its end or the limit. Each is stamped as soon as it is read, and goes its way to its record.
pub(crate) fn run_feed<P: Plans + Rows + Drop, S: Source, O: Sink, W: Watch, R: Wait, G>(
    intake: &Intake<P, R, G>,
    seat: &mut Seat<Editions<P, BoardRoom>>,
    pipeline: &mut Pipeline<P>,
    in_use: &mut InUse<P>,
    feed: &mut Feed<S>,
    out: &mut O,
    watch: &mut W,
) -> Until
    requires same { AreSame P.Rows.tables P.Structures.tables }
    requires seat { IsSeat 0 intake.now.register.now seat.old × (own_moves seat.old ≡ []) }
    requires passes { HasPasses intake.now.crew.now pipeline.old }
    requires unused { IsUnused pipeline.old }
    requires in_use { IsFirst P.Structures.tables (first_of intake.now.register.now) in_use.old }
    ensures seat { IsSeat 0 intake.now.register.now seat.new × StartsWith (seen_by seat.new) (seen_by seat.old) }
    ensures passes { HasPasses intake.now.crew.now pipeline.new }
    ensures counts { (result ≢ Until.OutFault → next_of pipeline.new.window ≡ pipeline.new.done + 1) × (pipeline.new.done ≤ pipeline.new.read) }
    ensures keeps { Keeps P.Structures.tables pipeline.old pipeline.new }
    ensures fed { (from : From W) → from.first ≡ first_of intake.now.register.now
        → Piping P.Structures.tables W.stands from [] pipeline.old in_use.old watch.old (O.written out.old)
        → Fed P.Structures.tables W.stands result from (own_moves seat.new) pipeline.new in_use.new watch.new
        (S.left (source_of feed.old)) (S.left (source_of feed.new)) (O.written out.new) }
    ensures causes { HasUntilCause result (S.faults (source_of feed.old)) (S.faults (source_of feed.new))
        × HasWriteCause result (O.faults out.old) (O.faults out.new) }
    ensures kept { SourceStays S.holds S.missed S.borrow (source_of feed.old) (source_of feed.new) }
{
    let Intake {
        rt,
        crew,
        register,
        ..
    } = *intake;
    let mut last_large = 0;
    for _ in rt.forever() {
        if pipeline.read >= MOST_PACKETS {
            return Until::Limit;
        }
        let Ok(()) = make_way(rt, crew, pipeline, in_use, feed, out, watch) else {
            return Until::OutFault;
        };
        let Some(room) = pipeline.rooms.pop() else {
            continue;
        };
        let read = match read_stamped(rt, register, seat, feed, room) {
            Ok(read) => read,
            Err(Unread { room, why }) => {
                keep_room(&mut pipeline.rooms, room);
                return Until::FeedEnds(why);
            }
        };
        let number = pipeline.read + 1;
        if read.cell.octets >= LARGE {
            last_large = number;
        }
        let is_idle = pipeline.done == pipeline.read;
        let goes = goes_to_worker(pipeline.workers, number, last_large, is_idle, feed);
        let Ok(()) = take_packet(rt, crew, pipeline, in_use, read, goes, out, watch) else {
            return Until::OutFault;
        };
    }
    unreachable!()
}
