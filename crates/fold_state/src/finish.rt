ghost use Rattle.std.specs.Prelude.{◌≡◌, ◌≤◌, ◌<◌, ◌+◌, ◌*◌, ◌++◌, Bool, List, ℕ, None, Some, length, get_or, true, IsTrue};
ghost use Rattle.std.specs.List.{All, flat_map};
ghost use Rattle.std.specs.Option.{option_copied};
ghost use Rattle.fold_state.specs.Boards.{memory_of, place_of};
ghost use Rattle.param_state.specs.ParamPlans.{plan_names, IsParamsOf, IsSliceOf};
ghost use Rattle.fold_state.specs.declared.finish.TheConstants.{TEXT_BEFORE};
ghost use Rattle.fold_state.specs.Entering.{AreEntered, FinishesAll, StandsFor};
ghost use Rattle.param_state.specs.FinishedValues.{AreFinished, IsFinished, IsRaw};
ghost use Rattle.fold_state.specs.Premises.{AreSeated, Fits, HasSlot};
ghost use Rattle.memory_laws.specs.Alike.{AreAlike};
ghost use Rattle.mib_model.specs.Bits.{is_inside};
ghost use Rattle.mib_model.specs.declared.database.Database.{Database};
ghost use Rattle.mib_model.specs.Finish as Spec;
ghost use Rattle.mib_model.specs.Fixed.{most_values};
ghost use Rattle.mib_model.specs.Kept.{Memory, all_entered};
ghost use Rattle.mib_model.specs.Tails.{Plain};
ghost use Rattle.mib_model.specs.Texts.{ended_text, head_text, told_text, value_text};
ghost use Rattle.param_plan.specs.Plain.{AreMarksOf};
ghost use Rattle.param_plan.specs.Slices.{ParamSlice};
ghost use Rattle.record_text.specs.TailViews.{tail_as};
ghost use Rattle.record_text.specs.declared.lines.TheConstants.{LINES_ROOM, LINE_MOST, VALUE_ROOM, NOTE_ROOM};

use crate::board::Board;
use crate::fast::add_plain_values;
use mib_model::{Change, Ended, Found, Header, Text, Value};
use param_plan::{Param, Params};
use param_state::{Demand, add_change, is_raw, tail_for};
use plan_places::kind_of;
use record_text::{Lines, Tail, begin_value, end_plain_value, end_value, ended_line, head_line};

/// The most octets of text behind which a record may be appended.
pub const TEXT_BEFORE: usize = 65_536;

/// A packet that was decoded: its number, its header, what it is, its values and how they end, its octets, and its name
/// where there is one.
#[derive(Clone, Copy)]
pub struct Seen<'a> {
    pub number: u64,
    pub header: &'a Header,
    pub found: &'a Found,
    pub ended: &'a Ended,
    pub packet: &'a [u8],
    pub values: &'a [Value],
    pub title: Option<&'a Text>,
}

// The plans of a packet's values, and which of them are plain.
#[derive(Clone, Copy)]
struct MarkedPlans<'a> {
    params: &'a Params,
    plain: &'a [bool],
}

impl Board {
    // Finishes a value of the name at a place by its plan: its tail, and the change that is told with it.
    #[inline(always)]
    fn finish_at<'a>(
        &mut self,
        at: usize,
        plan: &'a Param,
        value: &Value,
    ) -> (Tail<'a>, Option<Change>)
        requires { at < length self.old.names }
        ensures names { self.new.names ≡ self.old.names }
        ensures finished { (db : Database) → IsSliceOf db value.now.name plan.now → place_of self.old value.now.name ≡ Some at → IsRaw value.now
            → Spec.told value.now (tail_as result.0) (memory_of self.new, result.1) ≡ Spec.finished db (memory_of self.old) value.now }
    {
        if !plan.valid(self) {
            return (Tail::Invalid, None);
        }
        if !is_raw(value) {
            return (Tail::Plain, None);
        }
        let given = plan.calibrate(value.raw, self);
        let change = self.check(at, plan, value, given);
        (tail_for(plan.decimals(), given), change)
    }

    // Whether of a value of the name at a place the raw number alone is shown, by the marks of plans.
    #[inline(always)]
    fn is_shown_raw(&self, plain: &[bool], seat: usize, value: &Value) -> bool
        ensures { IsTrue result → (db : Database) (params : List ParamSlice) → AreMarksOf params plain.now → IsParamsOf db params
            → self.now.names ≡ plan_names params → place_of self.now value.now.name ≡ Some seat
            → Spec.told value.now Plain (memory_of self.now, None) ≡ Spec.finished db (memory_of self.now) value.now }
    {
        seat < plain.len() && plain[seat]
    }

    // Finishes a value by the plan of its name, which is at this place.
    #[inline(always)]
    pub(crate) fn finish_by<'a>(
        &mut self,
        params: &'a Params,
        seat: usize,
        value: &Value,
    ) -> (Tail<'a>, Option<Change>)
        ensures names { self.new.names ≡ self.old.names }
        ensures finished { (db : Database) → IsParamsOf db params.now → self.old.names ≡ plan_names params.now
            → place_of self.old value.now.name ≡ Some seat → IsRaw value.now
            → Spec.told value.now (tail_as result.0) (memory_of self.new, result.1) ≡ Spec.finished db (memory_of self.old) value.now }
    {
        if seat >= params.len() {
            return (Tail::Plain, None);
        }
        if !self.has_seat(seat) {
            return (Tail::Plain, None);
        }
        self.finish_at(seat, params.plan(seat), value)
    }

    // Finishes a value, whose place is this, and appends its line and that of what its check tells.
    #[tactic(auto, unfolding(mib_model::specs::Texts::value_text))]
    #[inline(always)]
    fn finish_value(
        &mut self,
        plans: &MarkedPlans<'_>,
        seat: usize,
        value: &Value,
        packet: &[u8],
        out: &mut Lines,
    )
        requires marks { AreMarksOf plans.now.params.now plans.now.plain.now }
        requires inside { is_inside packet.now value.now.at value.now.shape.width ≡ true }
        requires room { length out.old + VALUE_ROOM + LINE_MOST ≤ LINES_ROOM }
        ensures names { self.new.names ≡ self.old.names }
        ensures finished { (db : Database) → IsParamsOf db plans.now.params.now → self.old.names ≡ plan_names plans.now.params.now
            → place_of self.old value.now.name ≡ Some seat → IsRaw value.now
            → IsFinished db packet.now value.now (memory_of self.old) (memory_of self.new) out.old out.new }
        ensures room { length out.new ≤ length out.old + (VALUE_ROOM + NOTE_ROOM) }
    {
        begin_value(value, packet, out);
        if self.is_shown_raw(plans.plain, seat, value) {
            end_plain_value(out);
            return;
        }
        let (tail, change) = self.finish_by(plans.params, seat, value);
        end_value(&tail, out);
        add_change(value, change, out);
    }

    // The place of the k-th value, which is noted where there are seats enough.
    fn seat_of(&self, seats: &[usize], k: usize, value: &Value) -> usize
        ensures { (k < length seats.now → place_of self.now value.now.name ≡ Some (get_or seats.now k 0)) → HasSlot self.now value.now.name
            → place_of self.now value.now.name ≡ Some result }
    {
        if k < seats.len() {
            return seats[k];
        }
        self.seat_past(value)
    }

    // The place of a value for which there is no seat.
    #[cold]
    #[inline(never)]
    fn seat_past(&self, value: &Value) -> usize
        ensures { HasSlot self.now value.now.name → place_of self.now value.now.name ≡ Some result }
    {
        match self.place(&value.name) {
            Some(at) => at,
            None => usize::MAX,
        }
    }

    // Finishes values in their order, whose places were noted, and appends their lines.
    fn finish_all(
        &mut self,
        params: &Params,
        seats: &[usize],
        values: &[Value],
        packet: &[u8],
        out: &mut Lines,
    )
        requires few { length values.now ≤ most_values }
        requires inside { All (λ v. is_inside packet.now v.at v.shape.width ≡ true) values.now }
        requires room { length out.old + most_values * (VALUE_ROOM + NOTE_ROOM) + LINE_MOST ≤ LINES_ROOM }
        ensures names { self.new.names ≡ self.old.names }
        ensures finished { (db : Database) → Fits db params.now self.old values.now → AreSeated self.old values.now (length values.now) seats.now
            → AreFinished db packet.now values.now (memory_of self.old) (memory_of self.new) out.old out.new }
        ensures room { length out.new ≤ length out.old + most_values * (VALUE_ROOM + NOTE_ROOM) }
    {
        let plain = params.plain();
        for k in 0..values.len() {
            let value = &values[k];
            let seat = self.seat_of(seats, k, value);
            let plans = MarkedPlans { params, plain };
            self.finish_value(&plans, seat, value, packet, out);
        }
    }

    // Enters the raw numbers of values that are asked, and gives the places of all, as far as there are seats for them. The places are
    // looked for where the guesses from here on say.
    #[inline(always)]
    fn enter_seated(&mut self, demands: &[Demand], values: &[Value], first: usize) -> Vec<usize>
        ensures names { self.new.names ≡ self.old.names }
        ensures entered { (db : Database) (params : List ParamSlice) → Fits db params self.old values.now
            → AreEntered db params demands.now values.now self.old self.new result.items }
    {
        let mut seats = self.take_seats();
        self.enter_all(demands, values, first, &mut seats);
        seats
    }

    // Enters the raw numbers of a packet's values that are asked, then finishes each in its order, and appends their lines.
    fn finish_entered(
        &mut self,
        params: &Params,
        demands: &[Demand],
        seen: &Seen<'_>,
        first: usize,
        out: &mut Lines,
    )
        requires few { length seen.now.values.now ≤ most_values }
        requires inside { All (λ v. is_inside seen.now.packet.now v.at v.shape.width ≡ true) seen.now.values.now }
        requires room { length out.old + most_values * (VALUE_ROOM + NOTE_ROOM) + LINE_MOST ≤ LINES_ROOM }
        ensures names { self.new.names ≡ self.old.names }
        ensures finished { FinishesAll params.now demands.now self.old seen.now.packet.now seen.now.values.now (memory_of self.new) out.old out.new }
        ensures room { length out.new ≤ length out.old + most_values * (VALUE_ROOM + NOTE_ROOM) }
    {
        let seats = self.enter_seated(demands, seen.values, first);
        self.finish_all(params, &seats, seen.values, seen.packet, out);
        self.give_seats(seats);
    }

    // Finishes the values of a packet, and appends their lines. Nothing is entered or noted where the raw numbers of all are shown alone,
    // and none is asked.
    #[inline(always)]
    fn finish_values(
        &mut self,
        params: &Params,
        demands: &[Demand],
        seen: &Seen<'_>,
        first: usize,
        out: &mut Lines,
    )
        requires few { length seen.now.values.now ≤ most_values }
        requires inside { All (λ v. is_inside seen.now.packet.now v.at v.shape.width ≡ true) seen.now.values.now }
        requires room { length out.old + most_values * (VALUE_ROOM + NOTE_ROOM) + LINE_MOST ≤ LINES_ROOM }
        ensures names { self.new.names ≡ self.old.names }
        ensures finished { FinishesAll params.now demands.now self.old seen.now.packet.now seen.now.values.now (memory_of self.new) out.old out.new }
        ensures room { length out.new ≤ length out.old + most_values * (VALUE_ROOM + NOTE_ROOM) }
    {
        if self.are_quiet(demands, seen.values, first) {
            add_plain_values(seen.values, seen.packet, out);
        } else {
            self.finish_entered(params, demands, seen, first, out);
        }
    }

    /// Finishes the values of a packet: enters their raw numbers as far as plans ask them, then calibrates and checks each in its
    /// order, and appends the packet's record without its edition. There are at most 8,192 values, whose bits are in the packet, and
    /// the text before has at most `TEXT_BEFORE` octets. What is appended is that of the definitions for each memory that is alike to
    /// what is kept, and what is kept is alike to what they leave, where the board was made for these plans, each value's name has a
    /// plan, its number is a raw number, and what is asked is demanded; else some text that fits is appended and the names stay. It
    /// takes no memory.
    pub fn finish(&mut self, params: &Params, demands: &[Demand], seen: &Seen<'_>, out: &mut Lines)
        requires few { length seen.now.values.now ≤ most_values }
        requires inside { All (λ v. is_inside seen.now.packet.now v.at v.shape.width ≡ true) seen.now.values.now }
        requires room { length out.old ≤ TEXT_BEFORE }
        ensures names { self.new.names ≡ self.old.names }
        ensures memory { (asked : List ℕ → Bool) (db : Database) (m : Memory) → StandsFor asked db params.now demands.now self.old seen.now.values.now m
            → AreAlike asked (Spec.all_finished db (all_entered m seen.now.values.now) seen.now.values.now).0 (memory_of self.new) }
        ensures text { (asked : List ℕ → Bool) (db : Database) (m : Memory) → StandsFor asked db params.now demands.now self.old seen.now.values.now m
            → out.new ≡ out.old ++ (head_text seen.now.number seen.now.header.now seen.now.found.now (option_copied seen.now.title)
            ++ flat_map (told_text seen.now.packet.now) (Spec.all_finished db (all_entered m seen.now.values.now) seen.now.values.now).1
            ++ ended_text seen.now.ended.now) }
        ensures room { length out.new + LINE_MOST ≤ LINES_ROOM }
    {
        head_line(seen.number, seen.header, seen.found, seen.title, out);
        let first = self.begin(params, kind_of(seen.found), seen.values.len());
        self.finish_values(params, demands, seen, first, out);
        ended_line(seen.ended, out);
    }
}
