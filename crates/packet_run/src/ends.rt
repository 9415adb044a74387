// A run ends: all packets are committed and all rooms come home, and the workers end.
ghost use Rattle.std.specs.Prelude.{◌≡◌, ◌≢◌, ◌⊎◌, ◌≤◌, ◌+◌, ℕ, List, Option, Err};
ghost use Rattle.commit_order.specs.Windows.{next_of};
ghost use Rattle.decode_session.specs.Causes.{HasOutCause};
ghost use Rattle.run_model.specs.RegisterHistories.{RegisterHistory};
ghost use Rattle.packet_run.specs.Ending.{EndsAs, PutsEnds};
ghost use Rattle.packet_run.specs.Feeding.{Fed, HasUntilCause, HasWriteCause};
ghost use Rattle.packet_run.specs.Told.{From};
ghost use Rattle.packet_run.specs.Piping.{Keeps, put_by};
ghost use Rattle.packet_run.specs.Runs.{Drove, is_out_failed};
ghost use Rattle.packet_run.specs.Stocks.{AreHome};
ghost use Rattle.work_queue.specs.Passes.{IsOf};

use crate::commit::commit_to;
use crate::parts::{Crew, Pipeline};
use crate::pipeline::{collect, free};
use crate::until::Until;
use crate::watch::Watch;
use decode_session::{Filled, RunEnd, RunFault, Stop, write_cut};
use edition_plans::Plans;
use packet_jobs::{InUse, Task};
use record_text::Lines;
use std::sync::Wait;
use std::thread;
use tm_io::Sink;

// The end of a run whose packets are committed: of a rest a line is written.
fn end_as<O: Sink>(until: Until, lines: &mut Lines, out: &mut O) -> Result<RunEnd, RunFault>
    requires feed { until ≢ Until.FeedEnds Filled.Paused }
    requires out { until ≢ Until.OutFault }
    ensures ends { EndsAs until result (O.written out.old) (O.written out.new) }
    ensures cause { HasOutCause result (O.faults out.old) (O.faults out.new) }
{
    match until {
        Until::FeedEnds(Filled::End) => Ok(RunEnd::Whole),
        Until::FeedEnds(Filled::Cut { octets }) => match write_cut(octets, lines, out) {
            Ok(()) => Ok(RunEnd::Cut(octets)),
            Err(_) => Err(RunFault::Print(Stop::Out)),
        },
        Until::FeedEnds(Filled::Failed) => Err(RunFault::Feed),
        Until::FeedEnds(Filled::Paused) => unreachable!(),
        Until::Limit => Ok(RunEnd::Limit),
        Until::OutFault => unreachable!(),
    }
}

// Whether the output failed.
fn is_out_fault(ended: &Result<RunEnd, RunFault>) -> bool
    ensures { result ≡ is_out_failed ended.now }
{
    matches!(ended, Err(RunFault::Print(Stop::Out)))
}

// Hands on what was written, unless the output failed.
fn hand_on<O: Sink>(ended: Result<RunEnd, RunFault>, out: &mut O) -> Result<RunEnd, RunFault>
    ensures written { O.written out.new ≡ O.written out.old }
    ensures ended { (result ≡ ended) ⊎ (result ≡ Err (RunFault.Print Stop.Out)) }
    ensures cause { (before : ℕ) → HasOutCause ended before (O.faults out.old) → HasOutCause result before (O.faults out.new) }
    ensures handed { result ≢ Err (RunFault.Print Stop.Out) → O.handed out.new ≡ O.written out.new }
{
    if is_out_fault(&ended) {
        return ended;
    }
    match out.flush() {
        Ok(()) => ended,
        Err(_) => Err(RunFault::Print(Stop::Out)),
    }
}

/// Commits what was read, writes the line of a rest, and hands on what was written, unless the output failed.
pub(crate) fn finish_run<P: Plans + Drop, O: Sink, W: Watch, R: Wait>(
    rt: &R,
    crew: &Crew<P>,
    pipeline: &mut Pipeline<P>,
    in_use: &mut InUse<P>,
    until: Until,
    out: &mut O,
    watch: &mut W,
) -> Result<RunEnd, RunFault>
    requires passes { IsOf crew.now.jobs pipeline.old.first × IsOf crew.now.results pipeline.old.second }
    requires next { until ≢ Until.OutFault → next_of pipeline.old.window ≡ pipeline.old.done + 1 }
    requires read { until ≢ Until.FeedEnds Filled.Paused }
    requires below { pipeline.old.done ≤ pipeline.old.read }
    ensures passes { IsOf crew.now.jobs pipeline.new.first × IsOf crew.now.results pipeline.new.second }
    ensures put { put_by pipeline.new ≡ put_by pipeline.old }
    ensures keeps { Keeps P.tables pipeline.old pipeline.new }
    ensures drove { (from : From W) (own : RegisterHistory) (start_left left : Option (List ℕ)) (before now : ℕ) → HasUntilCause until before now
        → Fed P.tables W.stands until from own pipeline.old in_use.old watch.old start_left left (O.written out.old)
        → Drove P.tables W.stands result from own before now start_left left pipeline.new watch.new (O.written out.new) }
    ensures out { (before : ℕ) → HasWriteCause until before (O.faults out.old) → HasOutCause result before (O.faults out.new) }
    ensures handed { result ≢ Err (RunFault.Print Stop.Out) → O.handed out.new ≡ O.written out.new }
{
    if let Until::OutFault = until {
        return Err(RunFault::Print(Stop::Out));
    }
    let all = pipeline.read;
    let Ok(()) = commit_to(rt, crew, pipeline, in_use, all, out, watch) else {
        return Err(RunFault::Print(Stop::Out));
    };
    let ended = end_as(until, &mut pipeline.record.lines, out);
    hand_on(ended, out)
}

/// Gets results until all rooms are free.
pub(crate) fn call_home<P: Plans + Drop, R: Wait>(
    rt: &R,
    crew: &Crew<P>,
    pipeline: &mut Pipeline<P>,
)
    requires passes { IsOf crew.now.jobs pipeline.old.first × IsOf crew.now.results pipeline.old.second }
    ensures passes { IsOf crew.now.jobs pipeline.new.first × IsOf crew.now.results pipeline.new.second }
    ensures put { put_by pipeline.new ≡ put_by pipeline.old }
    ensures keeps { Keeps P.tables pipeline.old pipeline.new }
    ensures home { AreHome crew.now pipeline.new }
{
    for _ in rt.forever() {
        if pipeline.rooms.len() == usize::from(crew.rooms) {
            return;
        }
        match pipeline.window.take_next() {
            Some(task) => free(&mut pipeline.rooms, task),
            None => collect(rt, crew, pipeline),
        }
    }
    unreachable!()
}

// Puts the end of a worker, again while the queue is full.
fn put_end<P: Plans + Drop, R: Wait>(rt: &R, crew: &Crew<P>, pipeline: &mut Pipeline<P>)
    requires first { IsOf crew.now.jobs pipeline.old.first }
    ensures first { IsOf crew.now.jobs pipeline.new.first }
    ensures puts { PutsEnds pipeline.old pipeline.new }
{
    for _ in rt.forever() {
        if crew.jobs.put(rt, &mut pipeline.first, Task::End).is_ok() {
            return;
        }
        thread::yield_now();
    }
    unreachable!()
}

/// Ends all workers.
pub(crate) fn end_all<P: Plans + Drop, R: Wait>(rt: &R, crew: &Crew<P>, pipeline: &mut Pipeline<P>)
    requires first { IsOf crew.now.jobs pipeline.old.first }
    ensures first { IsOf crew.now.jobs pipeline.new.first }
    ensures puts { PutsEnds pipeline.old pipeline.new }
{
    for _ in 0..pipeline.workers {
        put_end(rt, crew, pipeline);
    }
}
