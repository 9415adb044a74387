// Records that are drawn as a sheet, and played.
ghost use Rattle.std.specs.Prelude.{◌≡◌, ◌≤◌, ◌+◌, ◌∷◌, [], ℕ, Bool, List, IsFalse, IsTrue, length};
ghost use Rattle.decode_one.specs.Halves.{HasDecoded};
ghost use Rattle.decode_one.specs.Steps.{ComeTo, ComesTo, HasRunFor, HasSteppedFor, IsStampedOf};
ghost use Rattle.edition_plans.specs.Params.{param_slices};
ghost use Rattle.fold_state.specs.Boards.{memory_of};
ghost use Rattle.param_state.specs.ParamPlans.{plan_names};
ghost use Rattle.param_state.specs.Demands.{AreDemandsOf};
ghost use Rattle.fold_state.specs.declared.finish.TheConstants.{TEXT_BEFORE};
ghost use Rattle.line_sheets.specs.Drawings.{AddsFor, IsSheetFor, packet_played};
ghost use Rattle.memory_laws.specs.Alike.{AreAlike};
ghost use Rattle.mib_model.specs.Interpreter.{Course, StampedPacket};
ghost use Rattle.mib_model.specs.Kept.{Memory};
ghost use Rattle.record_text.specs.declared.lines.TheConstants.{LINES_ROOM, LINE_MOST};

use crate::finishing::title;
use crate::values::PacketValues;
use edition_plans::Plans;
use fold_state::{Board, Seen};
use line_sheets::{Sheet, play};
use param_state::Demand;
use plan_places::Places;
use record_text::Lines;

/// Draws the record of a packet that was decoded so behind a sheet, where that has room for it. Raw numbers are entered as far as they
/// are demanded. It takes no memory.
pub fn draw_record<P: Plans>(
    plans: &P,
    demands: &[Demand],
    number: u64,
    packet: &[u8],
    values: &PacketValues,
    places: &mut Places,
    sheet: &mut Sheet,
) -> bool
    requires decoded { HasDecoded (P.tables plans.now) packet.now values.now }
    ensures drawn { IsTrue result → (asked : List ℕ → Bool) (s : StampedPacket)
        → AreDemandsOf asked (param_slices (P.tables plans.now)) demands.now → IsStampedOf s number packet.now (P.tables plans.now)
        → AddsFor asked (P.tables plans.now) (plan_names (param_slices (P.tables plans.now))) sheet.old sheet.new (packet_played s) }
    ensures full { IsFalse result → sheet.new ≡ sheet.old }
{
    let params = plans.params();
    let half = &values.half;
    let seen = Seen {
        number,
        header: &half.header,
        found: &half.found,
        ended: &half.ended,
        packet,
        values: &values.slots[..half.used as usize],
        title: title(plans, &half.found),
    };
    sheet.draw(places, params, demands, &seen)
}

/// Plays a sheet of packets by these plans: appends their records, without lines of editions, and leaves what is kept, for each memory that
/// is alike to what was; those of one packet whatever edition the packet before was of. The board was made for the parameters of these plans, and the text before has at most `TEXT_BEFORE` octets. It takes no memory.
pub fn play_sheet<P: Plans>(plans: &P, sheet: &Sheet, board: &mut Board, out: &mut Lines)
    requires board { board.old.names ≡ plan_names (param_slices (P.tables plans.now)) }
    requires room { length out.old ≤ TEXT_BEFORE }
    ensures names { board.new.names ≡ board.old.names }
    ensures run { (asked : List ℕ → Bool) (m : Memory) (c : Course) (ss : List StampedPacket) → AreAlike asked m (memory_of board.old)
        → ComeTo c ss (P.tables plans.now) m → IsSheetFor asked (P.tables plans.now) board.old.names ss sheet.now
        → HasRunFor asked c ss (memory_of board.new) out.old out.new }
    ensures step { (asked : List ℕ → Bool) (m : Memory) (c : Course) (s : StampedPacket) → AreAlike asked m (memory_of board.old)
        → ComesTo c s s.number s.packet (P.tables plans.now) m → IsSheetFor asked (P.tables plans.now) board.old.names (s ∷ []) sheet.now
        → HasSteppedFor asked c s (memory_of board.new) out.old out.new }
    ensures room { length out.new + LINE_MOST ≤ LINES_ROOM }
{
    play(board, plans.params(), sheet, out);
}
