// The sheet of a packet, and of a stretch.
ghost use Rattle.std.specs.Prelude.{◌≡◌, ◌≤◌, ◌<◌, ◌+◌, ◌∷◌, [], ℕ, Bool, List, IsFalse, IsTrue, length, take};
ghost use Rattle.decode_one.specs.Steps.{IsStampedOf};
ghost use Rattle.edition_plans.specs.Params.{param_slices};
ghost use Rattle.param_state.specs.ParamPlans.{plan_names};
ghost use Rattle.param_state.specs.Demands.{AreDemandsOf};
ghost use Rattle.line_sheets.specs.Drawings.{AddsFor, IsSheetFor, packet_played};
ghost use Rattle.mib_model.specs.Interpreter.{StampedPacket, stamped_from};
ghost use Rattle.mib_model.specs.Packets.{IsPacket};
ghost use Rattle.packet_feed.specs.declared.feed.TheConstants.{PACKET_SIZE};

use crate::stretch::Stretch;
use crate::tool::DrawingTool;
use decode_one::draw_record;
use edition_plans::Plans;
use line_sheets::Sheet;
use packet_feed::header_at;
use param_state::Demand;

// Decodes a packet, and draws its record behind a sheet, where that has room for it.
fn draw_next<P: Plans>(
    plans: &P,
    demands: &[Demand],
    number: u64,
    packet: &[u8],
    tool: &mut DrawingTool,
    sheet: &mut Sheet,
) -> bool
    requires packet { IsPacket packet.now }
    requires short { length packet.now ≤ PACKET_SIZE }
    ensures drawn { let db = P.tables plans.now in
        IsTrue result → (asked : List ℕ → Bool) (s : StampedPacket) → AreDemandsOf asked (param_slices db) demands.now
        → IsStampedOf s number packet.now db → AddsFor asked db (plan_names (param_slices db)) sheet.old sheet.new (packet_played s) }
    ensures full { IsFalse result → sheet.new ≡ sheet.old }
{
    let DrawingTool { values, places } = tool;
    values.decode(plans, &header_at(packet), packet);
    draw_record(plans, demands, number, packet, values, places, sheet)
}

/// Makes a sheet that of one packet, and tells whether it has room for it. Raw numbers are entered as far as they are demanded. It takes no memory.
pub fn draw_packet<P: Plans>(
    plans: &P,
    demands: &[Demand],
    number: u64,
    packet: &[u8],
    tool: &mut DrawingTool,
    sheet: &mut Sheet,
) -> bool
    requires packet { IsPacket packet.now }
    requires short { length packet.now ≤ PACKET_SIZE }
    ensures { let db = P.tables plans.now in
        IsTrue result → (asked : List ℕ → Bool) (s : StampedPacket) → AreDemandsOf asked (param_slices db) demands.now
        → IsStampedOf s number packet.now db → IsSheetFor asked db (plan_names (param_slices db)) (s ∷ []) sheet.new }
{
    sheet.clear();
    draw_next(plans, demands, number, packet, tool, sheet)
}

/// Makes a sheet that of the first packets of a stretch, numbered from this number on, as far as it has room, and tells how many those are. Raw
/// numbers are entered as far as they are demanded. It takes no memory.
pub fn draw_stretch<P: Plans>(
    plans: &P,
    demands: &[Demand],
    number: u64,
    stretch: &Stretch,
    tool: &mut DrawingTool,
    sheet: &mut Sheet,
) -> usize
    requires { number + length stretch.now.packets < 18446744073709551616 }
    ensures few { result ≤ length stretch.now.packets }
    ensures drawn { let db = P.tables plans.now in
        (asked : List ℕ → Bool) → AreDemandsOf asked (param_slices db) demands.now
        → IsSheetFor asked db (plan_names (param_slices db)) (stamped_from db number (take result stretch.now.packets)) sheet.new }
{
    sheet.clear();
    let count = stretch.len();
    for k in 0..count {
        let packet = stretch.packet(k);
        if !draw_next(plans, demands, number + k as u64, packet, tool, sheet) {
            return k;
        }
    }
    count
}
