// A sheet that is played.
ghost use Rattle.std.specs.Prelude.{◌≡◌, ◌≤◌, ◌<◌, ◌+◌, ◌++◌, length};
ghost use Rattle.fold_state.specs.Boards.{memory_of};
ghost use Rattle.param_state.specs.ParamPlans.{plan_names, IsParamsOf};
ghost use Rattle.fold_state.specs.declared.finish.TheConstants.{TEXT_BEFORE};
ghost use Rattle.line_sheets.specs.Pieces.{played, played_one};
ghost use Rattle.line_sheets.specs.Readings.{HasPlayed, HasRaw};
ghost use Rattle.line_sheets.specs.Lying.{act_as};
ghost use Rattle.line_sheets.specs.Sheets.{AreSeated, piece_of, pieces_of};
ghost use Rattle.mib_model.specs.declared.database.Database.{Database};
ghost use Rattle.record_text.specs.declared.lines.TheConstants.{END_ROOM, LINES_ROOM, LINE_MOST, NOTE_ROOM};

use crate::reading::{Reading, SheetWork};
use crate::sheet::{Sheet, SheetEvent};
use fold_state::Board;
use mib_model::Eng;
use param_plan::Params;
use record_text::{Lines, VALUE_ROOM, add_written};

// What is kept of so many names is read ahead at once.
const AHEAD: usize = 64;

// A number made of what is kept of the names behind the next ones. It says nothing.
fn touch(board: &Board, events: &[SheetEvent]) -> usize {
    let mut seen = 0;
    for at in AHEAD..events.len().min(AHEAD + AHEAD) {
        seen ^= board.touch_at(events[at].seat as usize);
    }
    seen
}

// Reads ahead what is kept of them, once for so many.
#[inline(always)]
fn read_ahead(board: &mut Board, events: &[SheetEvent])
    ensures { board.new ≡ board.old }
{
    if events.len() % AHEAD == 0 {
        let seen = touch(board, events);
        board.keep_ahead(seen);
    }
}

// Appends octets, however many.
fn add_octets(text: &[u8], out: &mut Lines)
    requires { length out.old + length text.now + LINE_MOST ≤ LINES_ROOM }
    ensures { out.new ≡ out.old ++ text.now }
{
    let mut left = text;
    while left.len() > VALUE_ROOM {
        let (first, others) = left.split_at(VALUE_ROOM);
        add_written(first, out);
        left = others;
    }
    add_written(left, out);
}

// The alarm of a name takes a step after a nominal number.
#[inline(always)]
fn play_calm(
    board: &mut Board,
    seat: usize,
    number: Eng,
    reading: &mut Reading<'_>,
    out: &mut Lines,
)
    requires { length out.old + length reading.old.pending + LINE_MOST ≤ LINES_ROOM }
    ensures names { board.new.names ≡ board.old.names }
    ensures left { reading.new.left ≡ reading.old.left }
    ensures played { (db : Database) → seat < length board.old.names
        → HasPlayed (played_one db (piece_of board.old.names (act_as seat (SheetWork.Calm number))) (memory_of board.old)) (memory_of board.new)
        (out.old ++ reading.old.pending) (out.new ++ reading.new.pending) }
    ensures room { length out.new + length reading.new.pending ≤ length out.old + length reading.old.pending + NOTE_ROOM }
{
    if let Some(change) = board.step_at(seat, number) {
        add_octets(reading.flush(), out);
        board.change_at(seat, change, out);
    }
}

// A value is finished.
#[inline(always)]
fn play_open(
    board: &mut Board,
    params: &Params,
    seat: usize,
    raw: Option<i128>,
    reading: &mut Reading<'_>,
    out: &mut Lines,
)
    requires raw { HasRaw (SheetWork.Open raw) }
    requires room { length out.old + length reading.old.pending + END_ROOM + LINE_MOST ≤ LINES_ROOM }
    ensures names { board.new.names ≡ board.old.names }
    ensures left { reading.new.left ≡ reading.old.left }
    ensures played { (db : Database) → IsParamsOf db params.now → board.old.names ≡ plan_names params.now → seat < length board.old.names
        → HasPlayed (played_one db (piece_of board.old.names (act_as seat (SheetWork.Open raw))) (memory_of board.old)) (memory_of board.new)
        (out.old ++ reading.old.pending) (out.new ++ reading.new.pending) }
    ensures room { length out.new + length reading.new.pending ≤ length out.old + length reading.old.pending + (END_ROOM + NOTE_ROOM) }
{
    add_octets(reading.flush(), out);
    board.open_at(params, seat, raw, out);
}

// Does what is to be done with the name of a seat behind the octets that are pending.
#[inline(always)]
fn play_one(
    board: &mut Board,
    params: &Params,
    seat: usize,
    work: SheetWork,
    reading: &mut Reading<'_>,
    out: &mut Lines,
)
    requires raw { HasRaw work }
    requires room { length out.old + length reading.old.pending + END_ROOM + LINE_MOST ≤ LINES_ROOM }
    ensures names { board.new.names ≡ board.old.names }
    ensures left { reading.new.left ≡ reading.old.left }
    ensures played { (db : Database) → IsParamsOf db params.now → board.old.names ≡ plan_names params.now → seat < length board.old.names
        → HasPlayed (played_one db (piece_of board.old.names (act_as seat work)) (memory_of board.old)) (memory_of board.new)
        (out.old ++ reading.old.pending) (out.new ++ reading.new.pending) }
    ensures room { length out.new + length reading.new.pending ≤ length out.old + length reading.old.pending + (END_ROOM + NOTE_ROOM) }
{
    match work {
        SheetWork::Enter(raw) => board.enter_at(seat, raw),
        SheetWork::Calm(number) => play_calm(board, seat, number, reading, out),
        SheetWork::Open(raw) => play_open(board, params, seat, raw, reading, out),
    }
}

/// Plays a sheet: does in their order what is to be done with what is kept, and appends its octets and those that this tells. What is
/// kept and appended is that of the definitions where the board was made for these plans, they are those of all parameters, and the
/// sheet speaks of names that have seats alone. The text before has at most `TEXT_BEFORE` octets. It takes no memory.
pub fn play(board: &mut Board, params: &Params, sheet: &Sheet, out: &mut Lines)
    requires { length out.old ≤ TEXT_BEFORE }
    ensures names { board.new.names ≡ board.old.names }
    ensures played { (db : Database) → IsParamsOf db params.now → board.old.names ≡ plan_names params.now → AreSeated board.old.names sheet.now.runs
        → HasPlayed (played db (pieces_of board.old.names sheet.now) (memory_of board.old)) (memory_of board.new) out.old out.new }
    ensures room { length out.new + LINE_MOST ≤ LINES_ROOM }
{
    let mut reading = sheet.read();
    while let Some((seat, work)) = reading.pass() {
        read_ahead(board, reading.ahead());
        play_one(board, params, seat as usize, work, &mut reading, out);
    }
    add_octets(reading.rest(), out);
}
