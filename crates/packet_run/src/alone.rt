// A packet that the caller does itself.
ghost use Rattle.std.specs.Prelude.{◌≡◌, ◌≤◌, ◌<◌, ◌+◌, ◌++◌, ◌∷◌, [], List, true, OnOk, OnErr, MatchOption, ⊤, length};
ghost use Rattle.std.specs.Arc.{arc_value};
ghost use Rattle.commit_order.specs.Windows.{next_of};
ghost use Rattle.decode_session.specs.Cells.{stamped_cell};
ghost use Rattle.decode_session.specs.Run.{most_packets};
ghost use Rattle.fold_state.specs.Boards.{is_made_for};
ghost use Rattle.mib_model.specs.declared.database.Database.{Database};
ghost use Rattle.mib_model.specs.Interpreter.{StampedPacket, record_for};
ghost use Rattle.mib_model.specs.Texts.{record_text};
ghost use Rattle.packet_run.specs.Told.{From};
ghost use Rattle.packet_run.specs.Piping.{Keeps, Piping, Stopped, Takes};
ghost use Rattle.packet_run.specs.Printing.{HasPrinted};
ghost use Rattle.packet_run.specs.Reading.{stamped_as};
ghost use Rattle.packet_jobs.specs.Turning.{AreSame, ComesBehind, course_of};
ghost use Rattle.tm_io.specs.Causes.{HasCause};
ghost use Rattle.tm_io.specs.Octets.{AppendsPart};

use crate::finishing::write_record;
use crate::parts::Pipeline;
use crate::pipeline::{keep_room, pass_by};
use crate::reading::StampedCell;
use crate::watch::Watch;
use decode_session::PacketCell;
use edition_plans::Plans;
use edition_register::Start;
use fold_state::BoardRoom;
use mib_model::Rows;
use packet_jobs::{InUse, RecordRoom, finish_alone, turn};
use std::sync::Wait;
use tm_io::{Failed, Sink};

// Decodes a packet and prints its record, by its own edition, which comes into use.
fn print_alone<P: Plans + Rows + Drop, O: Sink, W: Watch, R: Wait>(
    rt: &R,
    cell: &PacketCell,
    edition: u32,
    start: Option<Start<P, BoardRoom>>,
    in_use: &mut InUse<P>,
    room: &mut RecordRoom,
    out: &mut O,
    watch: &mut W,
) -> Result<(), Failed>
    requires same { AreSame P.Rows.tables P.Structures.tables }
    requires start { MatchOption start ⊤ (λ start. is_made_for (P.Rows.tables (arc_value start.handle)) start.board ≡ true) }
    ensures printed { OnOk result ((shown : Database) → ComesBehind P.Structures.tables P.Rows.tables in_use.old edition shown start
        → HasPrinted P.Structures.tables W.stands (course_of P.Structures.tables in_use.old) (stamped_cell edition shown cell.now) in_use.new
        (O.written out.old) (O.written out.new) watch.old watch.new) }
    ensures part { OnErr result ((shown : Database) → ComesBehind P.Structures.tables P.Rows.tables in_use.old edition shown start
        → AppendsPart (O.written out.old) (O.written out.new)
        (record_text (record_for (course_of P.Structures.tables in_use.old) (stamped_cell edition shown cell.now)))) }
    ensures untold { OnErr result (watch.new ≡ watch.old) }
    ensures cause { HasCause (O.faults out.old) (O.faults out.new) result }
{
    room.lines.clear();
    turn(edition, start, in_use, &mut room.lines);
    finish_alone(cell, in_use, room);
    write_record(rt, cell.number, in_use, &room.lines, out, watch)
}

/// Decodes a packet that was read, once all before it are committed, and commits it.
pub(crate) fn do_alone<P: Plans + Rows + Drop, O: Sink, W: Watch, R: Wait>(
    rt: &R,
    read: StampedCell<P>,
    pipeline: &mut Pipeline<P>,
    in_use: &mut InUse<P>,
    out: &mut O,
    watch: &mut W,
) -> Result<(), Failed>
    requires same { AreSame P.Rows.tables P.Structures.tables }
    requires start { MatchOption read.start ⊤ (λ start. is_made_for (P.Rows.tables (arc_value start.handle)) start.board ≡ true) }
    requires next { next_of pipeline.old.window ≡ pipeline.old.done + 1 }
    requires counts { (pipeline.old.done ≡ pipeline.old.read) × (pipeline.old.read < most_packets) }
    ensures passes { (pipeline.new.first ≡ pipeline.old.first) × (pipeline.new.second ≡ pipeline.old.second) }
    ensures read { pipeline.new.read ≡ pipeline.old.read + 1 }
    ensures done { OnOk result ((pipeline.new.done ≡ pipeline.new.read) × (next_of pipeline.new.window ≡ pipeline.new.done + 1)) }
    ensures stays { OnErr result (pipeline.new.done ≡ pipeline.old.done) }
    ensures keeps { Keeps P.Structures.tables pipeline.old pipeline.new }
    ensures piping { OnOk result ((from : From W) (stamped : List StampedPacket) (shown : Database)
        → ComesBehind P.Structures.tables P.Rows.tables in_use.old read.edition shown read.start → read.cell.number ≡ length stamped + 1
        → Piping P.Structures.tables W.stands from stamped pipeline.old in_use.old watch.old (O.written out.old)
        → Takes P.Structures.tables W.stands from stamped (stamped_as read shown) pipeline.new in_use.new watch.new (O.written out.new)) }
    ensures stopped { OnErr result ((from : From W) (stamped : List StampedPacket) (shown : Database)
        → ComesBehind P.Structures.tables P.Rows.tables in_use.old read.edition shown read.start → read.cell.number ≡ length stamped + 1
        → Piping P.Structures.tables W.stands from stamped pipeline.old in_use.old watch.old (O.written out.old)
        → Stopped P.Structures.tables W.stands from (stamped ++ stamped_as read shown ∷ []) pipeline.new watch.new (O.written out.new)) }
    ensures cause { HasCause (O.faults out.old) (O.faults out.new) result }
{
    let StampedCell {
        cell,
        edition,
        start,
    } = read;
    pipeline.read += 1;
    let printed = print_alone(
        rt,
        &cell,
        edition,
        start,
        in_use,
        &mut pipeline.record,
        out,
        watch,
    );
    keep_room(&mut pipeline.rooms, cell.into_room());
    let Ok(()) = printed else {
        return Err(Failed);
    };
    pass_by(pipeline);
    pipeline.done += 1;
    Ok(())
}
