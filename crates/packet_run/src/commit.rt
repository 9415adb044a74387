// Packets are committed in their order.
ghost use Rattle.std.specs.Prelude.{◌≡◌, ◌≤◌, ◌<◌, ◌+◌, List, ℕ, OnOk, OnErr};
ghost use Rattle.commit_order.specs.Windows.{next_of};
ghost use Rattle.mib_model.specs.Interpreter.{StampedPacket, record_for};
ghost use Rattle.mib_model.specs.Texts.{record_text};
ghost use Rattle.packet_run.specs.Told.{From};
ghost use Rattle.packet_run.specs.Piping.{GoesOn, IsOfInUse, Keeps, Piping, StaysInUse, Stopped};
ghost use Rattle.packet_run.specs.Printing.{HasPrinted, IsResultOf};
ghost use Rattle.packet_jobs.specs.Turning.{course_of};
ghost use Rattle.tm_io.specs.Causes.{HasCause};
ghost use Rattle.tm_io.specs.Octets.{AppendsPart};
ghost use Rattle.work_queue.specs.Passes.{IsOf};

use crate::finishing::write_record;
use crate::parts::{Crew, Pipeline};
use crate::pipeline::{collect, free};
use crate::watch::Watch;
use edition_plans::Plans;
use packet_jobs::{InUse, RecordRoom, Task, finish_job};
use std::sync::Wait;
use tm_io::{Failed, Sink};

// Prints the record of a result. An end of a worker, which never comes, has none.
fn print_result<P: Plans + Drop, O: Sink, W: Watch, R: Wait>(
    rt: &R,
    task: &Task<P>,
    in_use: &mut InUse<P>,
    room: &mut RecordRoom,
    out: &mut O,
    watch: &mut W,
) -> Result<(), Failed>
    ensures in_use { StaysInUse in_use.old in_use.new }
    ensures printed { OnOk result ((s : StampedPacket) → IsOfInUse P.tables in_use.old s → IsResultOf P.tables s task.now
        → HasPrinted P.tables W.stands (course_of P.tables in_use.old) s in_use.new (O.written out.old) (O.written out.new) watch.old watch.new) }
    ensures part { OnErr result ((s : StampedPacket) → IsOfInUse P.tables in_use.old s → IsResultOf P.tables s task.now
        → AppendsPart (O.written out.old) (O.written out.new) (record_text (record_for (course_of P.tables in_use.old) s))) }
    ensures untold { OnErr result (watch.new ≡ watch.old) }
    ensures cause { HasCause (O.faults out.old) (O.faults out.new) result }
{
    let Task::Packet(job) = task else {
        return Ok(());
    };
    room.lines.clear();
    finish_job(job, in_use, room);
    write_record(rt, job.cell.number, in_use, &room.lines, out, watch)
}

// Commits the next packet, where its result is there.
#[inline(never)]
fn commit_next<P: Plans + Drop, O: Sink, W: Watch, R: Wait>(
    rt: &R,
    pipeline: &mut Pipeline<P>,
    in_use: &mut InUse<P>,
    out: &mut O,
    watch: &mut W,
) -> Result<bool, Failed>
    requires next { next_of pipeline.old.window ≡ pipeline.old.done + 1 }
    requires some { pipeline.old.done < pipeline.old.read }
    ensures first { pipeline.new.first ≡ pipeline.old.first }
    ensures second { pipeline.new.second ≡ pipeline.old.second }
    ensures next { OnOk result (next_of pipeline.new.window ≡ pipeline.new.done + 1) }
    ensures goes_on { GoesOn pipeline.old pipeline.new }
    ensures keeps { Keeps P.tables pipeline.old pipeline.new }
    ensures in_use { StaysInUse in_use.old in_use.new }
    ensures piping { OnOk result ((from : From W) (stamped : List StampedPacket)
        → Piping P.tables W.stands from stamped pipeline.old in_use.old watch.old (O.written out.old)
        → Piping P.tables W.stands from stamped pipeline.new in_use.new watch.new (O.written out.new)) }
    ensures stopped { OnErr result ((from : From W) (stamped : List StampedPacket)
        → Piping P.tables W.stands from stamped pipeline.old in_use.old watch.old (O.written out.old)
        → Stopped P.tables W.stands from stamped pipeline.new watch.new (O.written out.new)) }
    ensures cause { HasCause (O.faults out.old) (O.faults out.new) result }
{
    let Some(task) = pipeline.window.take_next() else {
        return Ok(false);
    };
    let printed = print_result(rt, &task, in_use, &mut pipeline.record, out, watch);
    free(&mut pipeline.rooms, task);
    let Ok(()) = printed else {
        return Err(Failed);
    };
    pipeline.done += 1;
    Ok(true)
}

/// Gets results and commits packets, until so many are committed.
#[inline(always)]
pub(crate) fn commit_to<P: Plans + Drop, O: Sink, W: Watch, R: Wait>(
    rt: &R,
    crew: &Crew<P>,
    pipeline: &mut Pipeline<P>,
    in_use: &mut InUse<P>,
    least: u64,
    out: &mut O,
    watch: &mut W,
) -> Result<(), Failed>
    requires passes { IsOf crew.now.jobs pipeline.old.first × IsOf crew.now.results pipeline.old.second }
    requires next { next_of pipeline.old.window ≡ pipeline.old.done + 1 }
    requires least { least ≤ pipeline.old.read }
    ensures passes { IsOf crew.now.jobs pipeline.new.first × IsOf crew.now.results pipeline.new.second }
    ensures next { OnOk result (next_of pipeline.new.window ≡ pipeline.new.done + 1) }
    ensures least { OnOk result (least ≤ pipeline.new.done) }
    ensures goes_on { GoesOn pipeline.old pipeline.new }
    ensures keeps { Keeps P.tables pipeline.old pipeline.new }
    ensures in_use { StaysInUse in_use.old in_use.new }
    ensures piping { OnOk result ((from : From W) (stamped : List StampedPacket)
        → Piping P.tables W.stands from stamped pipeline.old in_use.old watch.old (O.written out.old)
        → Piping P.tables W.stands from stamped pipeline.new in_use.new watch.new (O.written out.new)) }
    ensures stopped { OnErr result ((from : From W) (stamped : List StampedPacket)
        → Piping P.tables W.stands from stamped pipeline.old in_use.old watch.old (O.written out.old)
        → Stopped P.tables W.stands from stamped pipeline.new watch.new (O.written out.new)) }
    ensures cause { HasCause (O.faults out.old) (O.faults out.new) result }
{
    for _ in rt.forever() {
        if pipeline.done >= least {
            return Ok(());
        }
        match commit_next(rt, pipeline, in_use, out, watch) {
            Err(_) => return Err(Failed),
            Ok(true) => (),
            Ok(false) => collect(rt, crew, pipeline),
        }
    }
    unreachable!()
}
