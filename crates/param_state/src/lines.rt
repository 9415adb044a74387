// Lines of values and changes.
ghost use Rattle.std.specs.Prelude.{◌≡◌, ◌≤◌, ◌+◌, ◌++◌, length, true};
ghost use Rattle.param_state.specs.FinishedValues.{IsFinished, IsToldPlain};
ghost use Rattle.mib_model.specs.AlarmTexts.{change_text_of};
ghost use Rattle.mib_model.specs.Bits.{is_inside};
ghost use Rattle.mib_model.specs.declared.database.Database.{Database};
ghost use Rattle.mib_model.specs.Kept.{Memory};
ghost use Rattle.mib_model.specs.Tails.{Plain};
ghost use Rattle.mib_model.specs.Texts.{value_text};
ghost use Rattle.record_text.specs.declared.lines.TheConstants.{LINES_ROOM, LINE_MOST, VALUE_ROOM, NOTE_ROOM};

use mib_model::{Change, Value};
use record_text::{Lines, begin_value, change_line, end_plain_value};

/// Appends the line of a value of which the raw number alone is shown.
#[tactic(auto, unfolding(mib_model::specs::Texts::value_text))]
#[inline(always)]
pub fn add_plain_value(value: &Value, packet: &[u8], out: &mut Lines)
    requires inside { is_inside packet.now value.now.at value.now.shape.width ≡ true }
    requires room { length out.old + VALUE_ROOM + LINE_MOST ≤ LINES_ROOM }
    ensures text { out.new ≡ out.old ++ value_text value.now packet.now Plain }
    ensures finished { (db : Database) (memory : Memory) → IsToldPlain db value.now → IsFinished db packet.now value.now memory memory out.old out.new }
    ensures room { length out.new ≤ length out.old + VALUE_ROOM }
{
    begin_value(value, packet, out);
    end_plain_value(out);
}

/// Appends the line of a change, where one is told.
#[inline(always)]
pub fn add_change(value: &Value, change: Option<Change>, out: &mut Lines)
    requires { length out.old + LINE_MOST ≤ LINES_ROOM }
    ensures text { out.new ≡ out.old ++ change_text_of value.now.name change }
    ensures room { length out.new ≤ length out.old + NOTE_ROOM }
{
    if let Some(change) = change {
        change_line(value.name, change, out);
    }
}
