// The record of a packet that was decoded, and what is kept after it.
ghost use Rattle.std.specs.Prelude.{◌≡◌, ◌≤◌, ◌+◌, ℕ, Bool, List, length};
ghost use Rattle.std.specs.Option.{option_copied};
ghost use Rattle.decode_one.specs.Halves.{HasDecoded};
ghost use Rattle.decode_one.specs.Steps.{ComesTo, HasSteppedFor};
ghost use Rattle.edition_plans.specs.Params.{param_slices};
ghost use Rattle.fold_state.specs.Boards.{memory_of};
ghost use Rattle.param_state.specs.ParamPlans.{plan_names};
ghost use Rattle.param_state.specs.Demands.{AreDemandsOf};
ghost use Rattle.fold_state.specs.declared.finish.TheConstants.{TEXT_BEFORE};
ghost use Rattle.memory_laws.specs.Alike.{AreAlike};
ghost use Rattle.mib_model.specs.Interpreter.{Course, StampedPacket, title_of};
ghost use Rattle.mib_model.specs.Kept.{Memory};
ghost use Rattle.record_text.specs.declared.lines.TheConstants.{LINES_ROOM, LINE_MOST};

use crate::values::PacketValues;
use edition_plans::Plans;
use fold_state::{Board, Seen, finish_is_a_step};
use mib_model::{Found, Text};
use param_state::Demand;
use record_text::Lines;

// The name of a packet that was found, where it has one.
#[tactic(auto, unfolding(mib_model::specs::Interpreter::title_of))]
#[inline(always)]
pub(crate) fn title<'a, P: Plans>(plans: &'a P, found: &Found) -> Option<&'a Text>
    ensures { option_copied result ≡ title_of (P.tables plans.now) found.now }
{
    match *found {
        Found::Spid { spid, .. } => plans.title(spid),
        _ => None,
    }
}

/// Finishes a packet that was decoded so: appends its record, without the line of its edition, and leaves what is kept, for each
/// memory that is alike to what was. The board was made for the parameters of these plans, and the text before has at most
/// `TEXT_BEFORE` octets. It takes no memory.
#[inline(always)]
pub fn finish<P: Plans>(
    plans: &P,
    demands: &[Demand],
    number: u64,
    packet: &[u8],
    values: &PacketValues,
    board: &mut Board,
    out: &mut Lines,
)
    requires decoded { HasDecoded (P.tables plans.now) packet.now values.now }
    requires board { board.old.names ≡ plan_names (param_slices (P.tables plans.now)) }
    requires room { length out.old ≤ TEXT_BEFORE }
    ensures names { board.new.names ≡ board.old.names }
    ensures step { (asked : List ℕ → Bool) (m : Memory) (c : Course) (s : StampedPacket)
        → AreDemandsOf asked (param_slices (P.tables plans.now)) demands.now → AreAlike asked m (memory_of board.old)
        → ComesTo c s number packet.now (P.tables plans.now) m
        → HasSteppedFor asked c s (memory_of board.new) out.old out.new }
    ensures room { length out.new + LINE_MOST ≤ LINES_ROOM }
{
    let params = plans.params();
    let half = &values.half;
    let seen = Seen {
        number,
        header: &half.header,
        found: &half.found,
        ended: &half.ended,
        packet,
        values: &values.slots[..half.used as usize],
        title: title(plans, &half.found),
    };
    board.finish(params, demands, &seen, out);
    finish_is_a_step();
}
