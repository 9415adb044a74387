// An edition comes into use.
ghost use Rattle.std.specs.Prelude.{◌≡◌, ◌≤◌, ◌+◌, ◌++◌, true, length, MatchOption, ⊤};
ghost use Rattle.std.specs.Arc.{arc_value};
ghost use Rattle.fold_state.specs.Boards.{is_made_for, memory_of};
ghost use Rattle.mib_model.specs.Carry.{carry};
ghost use Rattle.mib_model.specs.declared.database.Database.{Database};
ghost use Rattle.mib_model.specs.Texts.{edition_text};
ghost use Rattle.packet_jobs.specs.Turning.{AreSame, ComesBehind, IsTurned};
ghost use Rattle.record_text.specs.declared.lines.TheConstants.{LINES_ROOM, LINE_MOST, NOTE_ROOM};

use crate::in_use::InUse;
use edition_plans::Plans;
use edition_register::Start;
use fold_state::BoardRoom;
use mib_model::Rows;
use record_text::{Lines, edition_line};
use std::mem;

// The edition of a start comes into use: what was kept is carried over, and the line of its edition is appended.
fn begin<P: Plans + Drop>(
    edition: u32,
    start: Start<P, BoardRoom>,
    in_use: &mut InUse<P>,
    lines: &mut Lines,
)
    requires start { is_made_for (P.tables (arc_value start.handle)) start.board ≡ true }
    requires room { length lines.old + LINE_MOST ≤ LINES_ROOM }
    ensures edition { in_use.new.edition ≡ edition }
    ensures handle { in_use.new.handle ≡ start.handle }
    ensures memory { memory_of in_use.new.board ≡ carry (memory_of in_use.old.board) (P.tables (arc_value in_use.old.handle))
        (P.tables (arc_value start.handle)) }
    ensures text { lines.new ≡ lines.old ++ edition_text edition }
    ensures room { length lines.new ≤ length lines.old + NOTE_ROOM }
{
    let Start {
        handle,
        board: room,
    } = start;
    let from = mem::replace(&mut in_use.handle, handle);
    in_use
        .board
        .carry(room, from.params(), in_use.handle.params());
    in_use.edition = edition;
    edition_line(edition, lines);
}

/// The edition of a packet comes into use, where it isn't the one in use: what was kept is carried over, and its line is
/// appended. It takes no memory.
pub fn turn<P: Plans + Rows + Drop>(
    edition: u32,
    start: Option<Start<P, BoardRoom>>,
    in_use: &mut InUse<P>,
    lines: &mut Lines,
)
    requires same { AreSame P.Rows.tables P.Structures.tables }
    requires start { MatchOption start ⊤ (λ start. is_made_for (P.Rows.tables (arc_value start.handle)) start.board ≡ true) }
    requires room { length lines.old + LINE_MOST ≤ LINES_ROOM }
    ensures turned { (shown : Database) → ComesBehind P.Structures.tables P.Rows.tables in_use.old edition shown start
        → IsTurned P.Structures.tables in_use.old in_use.new edition shown lines.old lines.new }
    ensures room { length lines.new ≤ length lines.old + NOTE_ROOM }
{
    let Some(start) = start else {
        return;
    };
    if edition != in_use.edition {
        begin(edition, start, in_use, lines);
    }
}
