// What is done with the name at a place of a board.
ghost use Rattle.std.specs.Prelude.{◌≡◌, ◌≤◌, ◌<◌, ◌+◌, ◌++◌, ◌≤ℤ◌, Some, length, IfSome};
ghost use Rattle.fold_state.specs.Boards.{memory_of, place_of};
ghost use Rattle.param_state.specs.ParamPlans.{plan_names, IsParamsOf};
ghost use Rattle.param_state.specs.FinishedValues.{bare_value};
ghost use Rattle.fold_state.specs.Opened.{name_at, opened};
ghost use Rattle.line_marks.specs.Marks.{HasShown, after_nominal};
ghost use Rattle.mib_model.specs.AlarmTexts.{change_text};
ghost use Rattle.mib_model.specs.declared.database.Database.{Database};
ghost use Rattle.mib_model.specs.Finish as Spec;
ghost use Rattle.mib_model.specs.Kept.{entered};
ghost use Rattle.mib_model.specs.WholeNumbers.{least_raw, greatest_raw};
ghost use Rattle.record_text.specs.declared.lines.TheConstants.{LINES_ROOM, LINE_MOST, END_ROOM, NOTE_ROOM};

use crate::board::Board;
use mib_model::{Change, Eng, Name};
use param_plan::Params;
use param_state::{add_change, bare_value};
use record_text::{Lines, change_line, end_value};

impl Board {
    // The name at a place, which is its own.
    #[inline(always)]
    fn named(&self, seat: usize) -> Name
        requires { seat < length self.now.names }
        ensures name { result ≡ name_at self.now seat }
        ensures place { place_of self.now (name_at self.now seat) ≡ Some seat }
    {
        self.slots[seat].name
    }

    /// A number made of what is kept at a place: who asks for it early has it at hand later. It says nothing.
    #[inline(always)]
    pub fn touch_at(&self, seat: usize) -> usize {
        if seat < self.slots.len() {
            return self.slots[seat].touch();
        }
        0
    }

    /// Keeps a number made of what was read ahead.
    pub fn keep_ahead(&mut self, seen: usize)
        ensures { self.new ≡ self.old }
    {
        self.ahead = seen;
    }

    /// Keeps a raw number of the name at a place.
    #[inline(always)]
    pub fn enter_at(&mut self, seat: usize, raw: i128)
        requires low { least_raw ≤ℤ raw }
        requires high { raw ≤ℤ greatest_raw }
        ensures names { self.new.names ≡ self.old.names }
        ensures memory { seat < length self.old.names → memory_of self.new ≡ entered (memory_of self.old) (bare_value (name_at self.old seat) (Some raw)) }
    {
        if self.has_seat(seat) {
            let _name = self.named(seat);
            self.set_latest(seat, raw);
        }
    }

    /// Takes the step of the alarm of the name at a place after a nominal number, and gives what is told of it.
    #[inline(always)]
    pub fn step_at(&mut self, seat: usize, number: Eng) -> Option<Change>
        ensures names { self.new.names ≡ self.old.names }
        ensures stepped { seat < length self.old.names
            → (memory_of self.new, result) ≡ after_nominal (memory_of self.old) (name_at self.old seat) number.count }
    {
        if !self.has_seat(seat) {
            return None;
        }
        let _name = self.named(seat);
        self.step_nominal(seat, number)
    }

    /// Appends the line of a change of the name at a place.
    #[inline(never)]
    pub fn change_at(&self, seat: usize, change: Change, out: &mut Lines)
        requires { length out.old + LINE_MOST ≤ LINES_ROOM }
        ensures text { seat < length self.now.names → out.new ≡ out.old ++ change_text (name_at self.now seat) change }
        ensures room { length out.new ≤ length out.old + NOTE_ROOM }
    {
        if self.has_seat(seat) {
            change_line(self.named(seat), change, out);
        }
    }

    /// Finishes a value of the name at a place, with its raw number where it has one, and appends how its line goes on and the line
    /// of its change.
    #[inline(never)]
    pub fn open_at(&mut self, params: &Params, seat: usize, raw: Option<i128>, out: &mut Lines)
        requires raw { IfSome raw (λ number. (least_raw ≤ℤ number) × (number ≤ℤ greatest_raw)) }
        requires room { length out.old + END_ROOM + LINE_MOST ≤ LINES_ROOM }
        ensures names { self.new.names ≡ self.old.names }
        ensures opened { (db : Database) → IsParamsOf db params.now → self.old.names ≡ plan_names params.now → seat < length self.old.names
            → HasShown (opened (Spec.finished db (memory_of self.old) (bare_value (name_at self.old seat) raw))) (memory_of self.new) out.old out.new }
        ensures room { length out.new ≤ length out.old + (END_ROOM + NOTE_ROOM) }
    {
        if !self.has_seat(seat) {
            return;
        }
        let value = bare_value(self.named(seat), raw);
        let (tail, change) = self.finish_by(params, seat, &value);
        end_value(&tail, out);
        add_change(&value, change, out);
    }
}
