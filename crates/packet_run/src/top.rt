//! A run over the packets of a feed.
ghost use Rattle.std.specs.Prelude.{◌≡◌, ◌≢◌, ◌≤◌, Err, [], true};
ghost use Rattle.std.specs.Arc.{arc_value};
ghost use Rattle.decode_pool.specs.Served.{AllServe, Ready};
ghost use Rattle.decode_session.specs.Causes.{HasOutCause};
ghost use Rattle.edition_register.specs.Seats.{IsSeat, first_of};
ghost use Rattle.fold_state.specs.Boards.{is_made_for, memory_of};
ghost use Rattle.histories.specs.History.{StartsWith};
ghost use Rattle.mib_model.specs.Kept.{empty_memory};
ghost use Rattle.packet_feed.specs.Feed.{SourceStays, source_of};
ghost use Rattle.packet_run.specs.Piping.{SharesStay};
ghost use Rattle.packet_run.specs.declared.stock.TheConstants.{MOST_WORKERS};
ghost use Rattle.packet_run.specs.Runs.{Drove, Runs};
ghost use Rattle.packet_run.specs.Told.{begun};
ghost use Rattle.packet_run.specs.Stocks.{AreHome, HasPasses, IsFirst, IsFresh, IsUnused, rooms_out};
ghost use Rattle.packet_jobs.specs.Tasks.{IsWorked, number_in};
ghost use Rattle.packet_jobs.specs.Turning.{AreSame};
ghost use Rattle.turn_cell.specs.Seats.{own_moves, seen_by};

use crate::beside::{beside, join_all};
use crate::ends::{call_home, end_all, finish_run};
use crate::parts::{Intake, Pipeline};
use crate::run::run_feed;
use crate::stock::Stock;
use crate::watch::Watch;
use decode_session::{RunEnd, RunFault, Stop};
use edition_plans::Plans;
use edition_register::{Editions, Register};
use fold_state::{Board, BoardRoom};
use mib_model::Rows;
use packet_feed::Feed;
use packet_jobs::{InUse, Task};
use std::sync::{Arc, Wait};
use std::thread::Threads;
use tm_io::{Gate, Sink, Source};
use turn_cell::Seat;
use work_queue::Pass;

// The intake's side of a run: it reads, commits and prints all packets, and ends the workers.
fn drive_feed<P: Plans + Rows + Drop, S: Source, O: Sink, W: Watch, R: Wait, G>(
    intake: &Intake<P, R, G>,
    seat: &mut Seat<Editions<P, BoardRoom>>,
    pipeline: &mut Pipeline<P>,
    in_use: &mut InUse<P>,
    feed: &mut Feed<S>,
    out: &mut O,
    watch: &mut W,
) -> Result<RunEnd, RunFault>
    requires same { AreSame P.Rows.tables P.Structures.tables }
    requires seat { IsSeat 0 intake.now.register.now seat.old × (own_moves seat.old ≡ []) }
    requires passes { HasPasses intake.now.crew.now pipeline.old }
    requires unused { IsUnused pipeline.old }
    requires in_use { IsFirst P.Structures.tables (first_of intake.now.register.now) in_use.old }
    ensures seat { IsSeat 0 intake.now.register.now seat.new × StartsWith (seen_by seat.new) (seen_by seat.old) }
    ensures passes { HasPasses intake.now.crew.now pipeline.new }
    ensures home { SharesStay pipeline.old pipeline.new × AreHome intake.now.crew.now pipeline.new }
    ensures drove { Drove P.Structures.tables W.stands result (begun (first_of intake.now.register.now) watch.old (O.written out.old)) (own_moves seat.new)
        (S.faults (source_of feed.old)) (S.faults (source_of feed.new)) (S.left (source_of feed.old)) (S.left
        (source_of feed.new)) pipeline.new watch.new (O.written out.new) }
    ensures out { HasOutCause result (O.faults out.old) (O.faults out.new) }
    ensures handed { result ≢ Err (RunFault.Print Stop.Out) → O.handed out.new ≡ O.written out.new }
    ensures kept { SourceStays S.holds S.missed S.borrow (source_of feed.old) (source_of feed.new) }
{
    let Intake { rt, crew, .. } = *intake;
    let until = run_feed(intake, seat, pipeline, in_use, feed, out, watch);
    let ended = finish_run(rt, crew, pipeline, in_use, until, out, watch);
    call_home(rt, crew, pipeline);
    end_all(rt, crew, pipeline);
    ended
}

// The intake's side of a run over the packets of a source.
fn drive<P: Plans + Rows + Drop, S: Source, O: Sink, W: Watch, R: Wait, G>(
    intake: &Intake<P, R, G>,
    seat: &mut Seat<Editions<P, BoardRoom>>,
    pipeline: &mut Pipeline<P>,
    in_use: &mut InUse<P>,
    source: &mut S,
    out: &mut O,
    watch: &mut W,
) -> Result<RunEnd, RunFault>
    requires same { AreSame P.Rows.tables P.Structures.tables }
    requires seat { IsSeat 0 intake.now.register.now seat.old × (own_moves seat.old ≡ []) }
    requires passes { HasPasses intake.now.crew.now pipeline.old }
    requires unused { IsUnused pipeline.old }
    requires in_use { IsFirst P.Structures.tables (first_of intake.now.register.now) in_use.old }
    ensures seat { IsSeat 0 intake.now.register.now seat.new × StartsWith (seen_by seat.new) (seen_by seat.old) }
    ensures passes { HasPasses intake.now.crew.now pipeline.new }
    ensures home { SharesStay pipeline.old pipeline.new × AreHome intake.now.crew.now pipeline.new }
    ensures drove { Drove P.Structures.tables W.stands result (begun (first_of intake.now.register.now) watch.old (O.written out.old)) (own_moves seat.new)
        (S.faults source.old) (S.faults source.new) (S.left source.old) (S.left source.new) pipeline.new watch.new (O.written out.new) }
    ensures out { HasOutCause result (O.faults out.old) (O.faults out.new) }
    ensures handed { result ≢ Err (RunFault.Print Stop.Out) → O.handed out.new ≡ O.written out.new }
    ensures kept { (S.holds source.new ≡ S.holds source.old) × (S.missed source.new ≡ S.missed source.old) }
{
    let mut feed = Feed::new(source);
    drive_feed(intake, seat, pipeline, in_use, &mut feed, out, watch)
}

// The caller's side in this thread, beside the workers in threads of their own.
fn run_beside<
    P: Plans + Rows + Drop + Send + Sync,
    F: Source,
    O: Sink,
    G: Gate + Sync,
    W: Watch,
    R: Threads + Wait + Sync,
>(
    intake: &Intake<P, R, G>,
    passes: &mut Vec<Pass<Task<P>>>,
    seat: &mut Seat<Editions<P, BoardRoom>>,
    pipeline: &mut Pipeline<P>,
    in_use: &mut InUse<P>,
    feed: &mut F,
    out: &mut O,
    watch: &mut W,
) -> Result<RunEnd, RunFault>
    requires ready { Ready intake.now.crew.now.jobs intake.now.crew.now.results passes.old.items }
    requires same { AreSame P.Rows.tables P.Structures.tables }
    requires seat { IsSeat 0 intake.now.register.now seat.old × (own_moves seat.old ≡ []) }
    requires pipeline { HasPasses intake.now.crew.now pipeline.old × IsUnused pipeline.old }
    requires in_use { IsFirst P.Structures.tables (first_of intake.now.register.now) in_use.old }
    ensures serves { AllServe intake.now.crew.now.jobs intake.now.crew.now.results (IsWorked P.Structures.tables) number_in passes.old.items passes.new.items
        × Ready intake.now.crew.now.jobs intake.now.crew.now.results passes.new.items }
    ensures seat { IsSeat 0 intake.now.register.now seat.new × StartsWith (seen_by seat.new) (seen_by seat.old) }
    ensures pipeline { HasPasses intake.now.crew.now pipeline.new × SharesStay pipeline.old pipeline.new × AreHome intake.now.crew.now pipeline.new }
    ensures drove { Drove P.Structures.tables W.stands result (begun (first_of intake.now.register.now) watch.old (O.written out.old)) (own_moves seat.new)
        (F.faults feed.old) (F.faults feed.new) (F.left feed.old) (F.left feed.new) pipeline.new watch.new (O.written out.new) }
    ensures out { HasOutCause result (O.faults out.old) (O.faults out.new) }
    ensures handed { result ≢ Err (RunFault.Print Stop.Out) → O.handed out.new ≡ O.written out.new }
    ensures kept { (F.holds feed.new ≡ F.holds feed.old) × (F.missed feed.new ≡ F.missed feed.old) }
{
    let Intake { rt, crew, gate, .. } = *intake;
    beside(
        rt,
        crew,
        gate,
        passes,
        &mut || -> Result<RunEnd, RunFault>
            requires same { AreSame P.Rows.tables P.Structures.tables }
            requires seat { IsSeat 0 intake.now.register.now seat.now × (own_moves seat.now ≡ []) }
            requires passes { HasPasses intake.now.crew.now pipeline.now }
            requires unused { IsUnused pipeline.now }
            requires in_use { IsFirst P.Structures.tables (first_of intake.now.register.now) in_use.now }
        { drive(intake, seat, pipeline, in_use, feed, out, watch) },
    )
}

/// Runs over the packets of a feed: each is stamped as soon as it is read and decoded by one of so many workers, and its record
/// is written by the tables of its edition, in the order of the stamps, of which the watch is told. It reads at most 64 packets
/// ahead of what it has written, hands on what it wrote before it may wait for the feed, and at its end. It takes no memory, and waits
/// for its turn at the register. A worker calls the gate before it works on a packet.
pub fn run_packets<
    P: Plans + Rows + Drop + Send + Sync,
    F: Source,
    O: Sink,
    G: Gate + Sync,
    W: Watch,
    R: Threads + Wait + Sync,
>(
    rt: &R,
    stock: &mut Stock<P>,
    register: &Register<P, BoardRoom>,
    seat: &mut Seat<Editions<P, BoardRoom>>,
    first: Arc<P>,
    board: Board,
    feed: &mut F,
    out: &mut O,
    gate: &G,
    watch: &mut W,
    workers: u8,
) -> Result<RunEnd, RunFault>
    requires workers { (1 ≤ workers) × (workers ≤ MOST_WORKERS) }
    requires same { AreSame P.Rows.tables P.Structures.tables }
    requires seat { IsSeat 0 register.now seat.old × (own_moves seat.old ≡ []) }
    requires first { P.Rows.tables (arc_value first) ≡ first_of register.now }
    requires board { (is_made_for (first_of register.now) board ≡ true) × (memory_of board ≡ empty_memory) }
    requires fresh { IsFresh stock.old × (rooms_out stock.old ≡ 0) }
    ensures seat { IsSeat 0 register.now seat.new × StartsWith (seen_by seat.new) (seen_by seat.old) }
    ensures runs { Runs W.stands result (begun (first_of register.now) watch.old (O.written out.old)) (own_moves seat.new) (F.faults feed.old)
        (F.faults feed.new)
        (F.left feed.old) (F.left feed.new) watch.new (O.written out.new) }
    ensures out { HasOutCause result (O.faults out.old) (O.faults out.new) }
    ensures handed { result ≢ Err (RunFault.Print Stop.Out) → O.handed out.new ≡ O.written out.new }
    ensures kept { (F.holds feed.new ≡ F.holds feed.old) × (F.missed feed.new ≡ F.missed feed.old) }
    ensures home { rooms_out stock.new ≡ 0 }
{
    stock.deal(workers);
    let mut in_use = InUse::at_first(first, board);
    let Stock {
        crew,
        pipeline,
        passes,
        ..
    } = stock;
    let intake = Intake {
        rt,
        crew,
        gate,
        register,
    };
    let ended = run_beside(
        &intake,
        passes,
        seat,
        pipeline,
        &mut in_use,
        feed,
        out,
        watch,
    );
    join_all(crew, &mut pipeline.first, &mut pipeline.second, passes);
    ended
}
