// The record of a packet.
ghost use Rattle.std.specs.Prelude.{◌≡◌, ◌≤◌, length};
ghost use Rattle.std.specs.Arc.{arc_value};
ghost use Rattle.decode_one.specs.Steps.{ComesTo, HasStepped};
ghost use Rattle.decode_session.specs.Cells.{packet_in};
ghost use Rattle.fold_state.specs.Boards.{memory_of};
ghost use Rattle.fold_state.specs.declared.finish.TheConstants.{TEXT_BEFORE};
ghost use Rattle.mib_model.specs.Interpreter.{Course, StampedPacket};

use crate::in_use::InUse;
use crate::job::Job;
use crate::room::RecordRoom;
use decode_one::{finish, play_sheet};
use decode_session::PacketCell;
use edition_plans::Plans;

/// Appends the record of a job's packet, without the line of its edition. It is the record by the edition in use, where that has the
/// tables of the job's handle.
pub fn finish_job<P: Plans + Drop>(job: &Job<P>, in_use: &mut InUse<P>, room: &mut RecordRoom)
    requires room { length room.old.lines ≤ TEXT_BEFORE }
    ensures edition { in_use.new.edition ≡ in_use.old.edition }
    ensures handle { in_use.new.handle ≡ in_use.old.handle }
    ensures step { P.tables (arc_value job.now.handle) ≡ P.tables (arc_value in_use.old.handle) → (c : Course) (s : StampedPacket)
        → ComesTo c s job.now.cell.number (packet_in job.now.cell) (P.tables (arc_value in_use.old.handle)) (memory_of in_use.old.board)
        → HasStepped c s (memory_of in_use.new.board) room.old.lines room.new.lines }
{
    if !job.is_drawn {
        finish_alone(&job.cell, in_use, room);
        return;
    }
    play_sheet(
        &*in_use.handle,
        &job.cell.buffers.sheet,
        &mut in_use.board,
        &mut room.lines,
    );
}

/// Decodes a packet by the edition in use, and appends its record, without the line of its edition.
pub fn finish_alone<P: Plans + Drop>(
    cell: &PacketCell,
    in_use: &mut InUse<P>,
    room: &mut RecordRoom,
)
    requires room { length room.old.lines ≤ TEXT_BEFORE }
    ensures edition { in_use.new.edition ≡ in_use.old.edition }
    ensures handle { in_use.new.handle ≡ in_use.old.handle }
    ensures step { (c : Course) (s : StampedPacket)
        → ComesTo c s cell.now.number (packet_in cell.now) (P.tables (arc_value in_use.old.handle)) (memory_of in_use.old.board)
        → HasStepped c s (memory_of in_use.new.board) room.old.lines room.new.lines }
{
    let plans = &*in_use.handle;
    let packet = cell.packet();
    let RecordRoom { values, lines } = room;
    values.decode(plans, &cell.header, packet);
    finish(
        plans,
        &[],
        cell.number,
        packet,
        values,
        &mut in_use.board,
        lines,
    );
}
