// What is noted of the values at a place.
ghost use Rattle.std.specs.Prelude.{◌≡◌, ◌≤◌, ◌+◌, ◌++◌, ℕ, Bool, List, length, true};
ghost use Rattle.std.specs.List.{position};
ghost use Rattle.std.specs.Str.{bytes_eq};
ghost use Rattle.param_state.specs.Demands.{AreNoted};
ghost use Rattle.param_state.specs.ParamPlans.{IsParamsOf};
ghost use Rattle.param_state.specs.FinishedValues.{IsRaw};
ghost use Rattle.line_marks.specs.Marks.{IsShown, behind};
ghost use Rattle.mib_model.specs.Bits.{is_inside};
ghost use Rattle.mib_model.specs.declared.database.Database.{Database};
ghost use Rattle.record_text.specs.declared.lines.TheConstants.{LINES_ROOM, LINE_MOST, VALUE_ROOM};

use line_marks::{Mark, draw_at};
use mib_model::Value;
use param_plan::Params;
use param_state::{Demand, add_plain_value, is_plain};
use record_text::Lines;

/// Draws the line of a value whose plan has a place among the plans, where the line doesn't depend on what is kept. The plan isn't read where
/// it is noted that the raw number alone is shown.
#[inline(always)]
pub(crate) fn draw_noted(
    params: &Params,
    demands: &[Demand],
    place: Option<usize>,
    value: &Value,
    packet: &[u8],
    out: &mut Lines,
) -> Mark
    requires inside { is_inside packet.now value.now.at value.now.shape.width ≡ true }
    requires room { length out.old + VALUE_ROOM + LINE_MOST ≤ LINES_ROOM }
    ensures shown { (asked : List ℕ → Bool) (db : Database) → IsParamsOf db params.now → AreNoted asked params.now demands.now → IsRaw value.now
        → place ≡ position (λ slice. bytes_eq slice.pcf.name value.now.name) params.now
        → IsShown db packet.now value.now (result, behind out.old out.new) }
    ensures added { out.new ≡ out.old ++ behind out.old out.new }
    ensures open { result ≡ Mark.Open → out.new ≡ out.old }
    ensures room { length out.new ≤ length out.old + VALUE_ROOM }
{
    let Some(at) = place else {
        return Mark::Open;
    };
    if is_plain(demands, at) {
        add_plain_value(value, packet, out);
        return Mark::Told;
    }
    draw_at(params, place, value, packet, out)
}
