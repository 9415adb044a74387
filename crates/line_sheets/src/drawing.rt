// The record of a packet behind a sheet.
ghost use Rattle.std.specs.Prelude.{◌≡◌, ◌≤◌, ◌<◌, ◌+◌, ◌*◌, ℕ, Bool, List, [], Some, IsFalse, IsTrue, get_or, length, true};
ghost use Rattle.std.specs.List.{All, position};
ghost use Rattle.std.specs.Option.{option_copied};
ghost use Rattle.std.specs.Str.{bytes_eq};
ghost use Rattle.param_state.specs.ParamPlans.{plan_names, IsParamsOf};
ghost use Rattle.param_state.specs.Demands.{AreAsked, AreDemandsOf, AreNoted, entered_at};
ghost use Rattle.param_state.specs.FinishedValues.{IsRaw};
ghost use Rattle.line_marks.specs.Marks.{IsShown, behind, finished_lines};
ghost use Rattle.line_sheets.specs.Drawings.{Adds, AddsFor, HasPlan, body_played, values_played};
ghost use Rattle.line_sheets.specs.Sheets.{with_text};
ghost use Rattle.line_sheets.specs.declared.sheet.TheConstants.{EVENT_ROOM, SEATS_MOST, SHEET_ROOM};
ghost use Rattle.mib_model.specs.Bits.{is_inside};
ghost use Rattle.mib_model.specs.declared.database.Database.{Database};
ghost use Rattle.mib_model.specs.Kept.{all_entered, entered};
ghost use Rattle.mib_model.specs.Texts.{ended_text, head_text};
ghost use Rattle.record_text.specs.declared.lines.TheConstants.{BEGIN_ROOM, HEAD_ROOM, NOTE_ROOM, VALUE_ROOM};
ghost use Rattle.record_text.specs.ValueParts.{begin_text};

use crate::noted::draw_noted;
use crate::sheet::{SEATS_MOST, Sheet};
use fold_state::Seen;
use line_marks::Mark;
use mib_model::{Ended, Value};
use param_plan::Params;
use param_state::{Demand, is_asked, is_raw};
use plan_places::Places;
use record_text::{begin_value, ended_line, head_line};

// A place among plans as a seat.
#[inline(always)]
fn seat_of(place: Option<usize>) -> u32
    ensures { (at : ℕ) → place ≡ Some at → at ≤ SEATS_MOST → result ≡ at }
{
    match place {
        Some(at) => u32::try_from(at).unwrap_or(0),
        None => 0,
    }
}

impl Sheet {
    // The head of a packet's record stands behind it now.
    fn add_head(&mut self, seen: &Seen<'_>)
        requires { self.old.size + HEAD_ROOM ≤ SHEET_ROOM }
        ensures text { self.new ≡ with_text self.old (head_text seen.now.number seen.now.header.now seen.now.found.now (option_copied seen.now.title)) }
        ensures room { self.new.size ≤ self.old.size + HEAD_ROOM }
    {
        head_line(
            seen.number,
            seen.header,
            seen.found,
            seen.title,
            &mut self.text,
        );
    }

    // How the values of a packet ended stands behind it now.
    fn add_end(&mut self, ended: &Ended)
        requires { self.old.size + NOTE_ROOM ≤ SHEET_ROOM }
        ensures text { self.new ≡ with_text self.old (ended_text ended.now) }
        ensures room { self.new.size ≤ self.old.size + NOTE_ROOM }
    {
        ended_line(ended, &mut self.text);
    }

    // The line of a value up to its raw number stands behind it now.
    fn add_front(&mut self, value: &Value, packet: &[u8])
        requires inside { is_inside packet.now value.now.at value.now.shape.width ≡ true }
        requires room { self.old.size + BEGIN_ROOM ≤ SHEET_ROOM }
        ensures text { self.new ≡ with_text self.old (begin_text value.now packet.now) }
        ensures room { self.new.size ≤ self.old.size + BEGIN_ROOM }
    {
        begin_value(value, packet, &mut self.text);
    }

    // The line of a value whose plan has a place among the plans stands behind it now, where it doesn't depend on what is kept.
    #[inline(always)]
    fn add_line(
        &mut self,
        params: &Params,
        demands: &[Demand],
        place: Option<usize>,
        value: &Value,
        packet: &[u8],
    ) -> Mark
        requires inside { is_inside packet.now value.now.at value.now.shape.width ≡ true }
        requires room { self.old.size + VALUE_ROOM ≤ SHEET_ROOM }
        ensures shown { (asked : List ℕ → Bool) (db : Database) → IsParamsOf db params.now → AreNoted asked params.now demands.now → IsRaw value.now
            → place ≡ position (λ slice. bytes_eq slice.pcf.name value.now.name) params.now
            → IsShown db packet.now value.now (result, behind self.old.tail self.new.tail) }
        ensures text { self.new ≡ with_text self.old (behind self.old.tail self.new.tail) }
        ensures open { result ≡ Mark.Open → self.new ≡ self.old }
        ensures room { self.new.size ≤ self.old.size + VALUE_ROOM }
    {
        draw_noted(params, demands, place, value, packet, &mut self.text)
    }

    // A value stands behind it now whose line goes on by what is kept.
    #[inline(never)]
    fn add_open(&mut self, seat: u32, value: &Value, packet: &[u8])
        requires inside { is_inside packet.now value.now.at value.now.shape.width ≡ true }
        requires text { self.old.size + BEGIN_ROOM ≤ SHEET_ROOM }
        requires events { length self.old.runs < EVENT_ROOM }
        ensures added { (db : Database) (names : List (List ℕ)) → IsRaw value.now → get_or names seat [] ≡ value.now.name → seat < length names
            → Adds db names self.old self.new (λ memory. finished_lines db packet.now memory value.now) }
        ensures size { self.new.size ≤ self.old.size + BEGIN_ROOM }
        ensures events { length self.new.runs ≤ length self.old.runs + 1 }
    {
        self.add_front(value, packet);
        if is_raw(value) {
            self.open(seat, Some(value.raw));
        } else {
            self.open(seat, None);
        }
    }

    // The lines of a value whose plan has a place among the plans stand behind it now, as far as they don't depend on what is kept.
    #[inline(always)]
    fn add_value(
        &mut self,
        params: &Params,
        demands: &[Demand],
        place: Option<usize>,
        value: &Value,
        packet: &[u8],
    )
        requires inside { is_inside packet.now value.now.at value.now.shape.width ≡ true }
        requires few { length params.now ≤ SEATS_MOST }
        requires text { self.old.size + VALUE_ROOM ≤ SHEET_ROOM }
        requires events { length self.old.runs < EVENT_ROOM }
        ensures added { (asked : List ℕ → Bool) (db : Database) → IsParamsOf db params.now → AreNoted asked params.now demands.now → IsRaw value.now
            → HasPlan params.now value.now.name → place ≡ position (λ slice. bytes_eq slice.pcf.name value.now.name) params.now
            → Adds db (plan_names params.now) self.old self.new (λ memory. finished_lines db packet.now memory value.now) }
        ensures size { self.new.size ≤ self.old.size + VALUE_ROOM }
        ensures events { length self.new.runs ≤ length self.old.runs + 1 }
    {
        match self.add_line(params, demands, place, value, packet) {
            Mark::Told => {}
            Mark::Nominal(number) => self.calm(seat_of(place), number),
            Mark::Open => self.add_open(seat_of(place), value, packet),
        }
    }

    // The raw number of a value is entered behind it now, where it has one.
    #[inline(always)]
    fn enter_value(&mut self, seat: u32, value: &Value)
        requires { length self.old.runs < EVENT_ROOM }
        ensures added { (db : Database) (names : List (List ℕ)) → IsRaw value.now → get_or names seat [] ≡ value.now.name → seat < length names
            → Adds db names self.old self.new (λ memory. (entered memory value.now, [])) }
        ensures size { self.new.size ≡ self.old.size }
        ensures events { length self.new.runs ≤ length self.old.runs + 1 }
    {
        if is_raw(value) {
            self.enter(seat, value.raw);
        }
    }

    // It is entered where it is asked at the place that is the seat.
    #[inline(always)]
    fn enter_asked(&mut self, demands: &[Demand], seat: u32, value: &Value)
        requires { length self.old.runs < EVENT_ROOM }
        ensures added { (db : Database) (names : List (List ℕ)) → IsRaw value.now → get_or names seat [] ≡ value.now.name → seat < length names
            → Adds db names self.old self.new (λ memory. (entered_at demands.now seat memory value.now, [])) }
        ensures size { self.new.size ≡ self.old.size }
        ensures events { length self.new.runs ≤ length self.old.runs + 1 }
    {
        if is_asked(demands, seat as usize) {
            self.enter_value(seat, value);
        }
    }

    // The raw numbers of values that are asked are entered behind it now. The places of the values are looked for where the guesses from
    // here on say.
    fn enter_all(
        &mut self,
        places: &mut Places,
        params: &Params,
        demands: &[Demand],
        first: usize,
        values: &[Value],
    )
        requires few { length params.now ≤ SEATS_MOST }
        requires events { length self.old.runs + length values.now ≤ EVENT_ROOM }
        ensures added { (asked : List ℕ → Bool) (db : Database) → AreAsked asked (plan_names params.now) demands.now → All IsRaw values.now
            → All (λ v. HasPlan params.now v.name) values.now
            → AddsFor asked db (plan_names params.now) self.old self.new (λ memory. (all_entered memory values.now, [])) }
        ensures size { self.new.size ≡ self.old.size }
        ensures events { length self.new.runs ≤ length self.old.runs + length values.now }
    {
        for k in 0..values.len() {
            let value = &values[k];
            let near = first.saturating_add(k);
            let place = places.place(params, near, &value.name);
            self.enter_asked(demands, seat_of(place), value);
        }
    }

    // The lines of values stand behind it now.
    fn add_all(
        &mut self,
        places: &mut Places,
        params: &Params,
        demands: &[Demand],
        first: usize,
        packet: &[u8],
        values: &[Value],
    )
        requires inside { All (λ v. is_inside packet.now v.at v.shape.width ≡ true) values.now }
        requires few { length params.now ≤ SEATS_MOST }
        requires text { self.old.size + length values.now * VALUE_ROOM ≤ SHEET_ROOM }
        requires events { length self.old.runs + length values.now ≤ EVENT_ROOM }
        ensures added { (asked : List ℕ → Bool) (db : Database) → IsParamsOf db params.now → AreNoted asked params.now demands.now
            → All IsRaw values.now → All (λ v. HasPlan params.now v.name) values.now
            → Adds db (plan_names params.now) self.old self.new (values_played db packet.now values.now) }
        ensures size { self.new.size ≤ self.old.size + length values.now * VALUE_ROOM }
    {
        for k in 0..values.len() {
            let value = &values[k];
            let near = first.saturating_add(k);
            let place = places.place(params, near, &value.name);
            self.add_value(params, demands, place, value, packet);
        }
    }

    /// Draws the record of a packet behind it, where it has room: at most 1,024 values, whose bits are in the packet. Raw numbers are entered
    /// as far as they are demanded. The record is that of the definitions, whatever is kept, where the plans are those of all parameters, what
    /// is asked is demanded, and each value has a plan and a raw number. It takes no memory.
    pub fn draw(
        &mut self,
        places: &mut Places,
        params: &Params,
        demands: &[Demand],
        seen: &Seen<'_>,
    ) -> bool
        requires { All (λ v. is_inside seen.now.packet.now v.at v.shape.width ≡ true) seen.now.values.now }
        ensures drawn { IsTrue result → (asked : List ℕ → Bool) (db : Database) → IsParamsOf db params.now
            → AreDemandsOf asked params.now demands.now → All IsRaw seen.now.values.now → All (λ v. HasPlan params.now v.name) seen.now.values.now
            → AddsFor asked db (plan_names params.now) self.old self.new (body_played db seen.now.packet.now seen.now.values.now
            (head_text seen.now.number seen.now.header.now seen.now.found.now (option_copied seen.now.title)) (ended_text seen.now.ended.now)) }
        ensures full { IsFalse result → self.new ≡ self.old }
    {
        let values = seen.values;
        if !self.has_room(values.len()) || params.len() > SEATS_MOST {
            return false;
        }
        self.add_head(seen);
        let first = places.begin(params, seen.found, values.len());
        self.enter_all(places, params, demands, first, values);
        self.add_all(places, params, demands, first, seen.packet, values);
        self.add_end(seen.ended);
        true
    }
}
