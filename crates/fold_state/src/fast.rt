// A packet of plain values takes 721 instead of 874 instructions, and a feed of such 1.02 instead of 1.25 times the plain program: where of all values the raw numbers
// alone are shown, and no condition asks for these, nothing is entered and no place is noted.
ghost use Rattle.std.specs.Prelude.{◌≡◌, ◌≤◌, ◌+◌, ◌*◌, length, map, true, false, IsTrue};
ghost use Rattle.std.specs.List.{All};
ghost use Rattle.fold_state.specs.Boards.{board_of};
ghost use Rattle.param_state.specs.SlotViews.{slot_name};
ghost use Rattle.param_state.specs.Demands.{demand_at};
ghost use Rattle.fold_state.specs.Entering.{AreQuiet};
ghost use Rattle.param_state.specs.FinishedValues.{IsToldPlain, AreFinished};
ghost use Rattle.fold_state.specs.Places.{Rise};
ghost use Rattle.mib_model.specs.Bits.{is_inside};
ghost use Rattle.mib_model.specs.declared.database.Database.{Database};
ghost use Rattle.mib_model.specs.Fixed.{most_values};
ghost use Rattle.mib_model.specs.Kept.{Memory};
ghost use Rattle.record_text.specs.declared.lines.TheConstants.{LINES_ROOM, LINE_MOST, VALUE_ROOM, NOTE_ROOM};

use crate::board::Board;
use crate::enter::is_named;
use mib_model::Value;
use param_state::{Demand, ParamSlot, add_plain_value, is_asked, is_plain};
use record_text::Lines;

// Whether nothing is demanded of the values at a place but their raw numbers.
#[inline(always)]
fn is_quiet(demands: &[Demand], at: usize) -> bool
    ensures plain { IsTrue result → (demand_at demands.now at).plain ≡ true }
    ensures unasked { IsTrue result → (demand_at demands.now at).asked ≡ false }
{
    is_plain(demands, at) && !is_asked(demands, at)
}

// Whether the names of all values stand at these places, and nothing more is demanded there.
#[inline(always)]
fn are_quiet(slots: &[ParamSlot], demands: &[Demand], values: &[Value], places: &[u32]) -> bool
    requires places { length values.now ≤ length places.now }
    requires rise { Rise (map slot_name slots.now) }
    ensures { IsTrue result → AreQuiet demands.now (board_of slots.now) values.now }
{
    for k in 0..values.len() {
        let at = places[k] as usize;
        if !is_quiet(demands, at) || !is_named(slots, at, &values[k].name) {
            return false;
        }
    }
    true
}

/// Appends the lines of values of which the raw numbers alone are shown.
#[inline(always)]
pub(crate) fn add_plain_values(values: &[Value], packet: &[u8], out: &mut Lines)
    requires few { length values.now ≤ most_values }
    requires inside { All (λ v. is_inside packet.now v.at v.shape.width ≡ true) values.now }
    requires room { length out.old + most_values * (VALUE_ROOM + NOTE_ROOM) + LINE_MOST ≤ LINES_ROOM }
    ensures finished { (db : Database) (memory : Memory) → All (IsToldPlain db) values.now
        → AreFinished db packet.now values.now memory memory out.old out.new }
    ensures room { length out.new ≤ length out.old + most_values * (VALUE_ROOM + NOTE_ROOM) }
{
    for value in values {
        add_plain_value(value, packet, out);
    }
}

impl Board {
    /// Whether the guesses of the places of all values are right, and nothing but the raw numbers is demanded there.
    #[inline(always)]
    pub(crate) fn are_quiet(&self, demands: &[Demand], values: &[Value], first: usize) -> bool
        ensures { IsTrue result → AreQuiet demands.now self.now values.now }
    {
        let places = self.guesses.places(first, values.len());
        if places.len() < values.len() {
            return false;
        }
        are_quiet(&self.slots, demands, values, places)
    }
}
