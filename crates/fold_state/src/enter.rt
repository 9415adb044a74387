// The raw numbers of a packet's values.
ghost use Rattle.std.specs.Prelude.{◌≡◌, ◌≤◌, ◌<◌, Some, length, map, slice_set, take, IsTrue};
ghost use Rattle.std.specs.List.{All};
ghost use Rattle.fold_state.specs.Boards.{board_of, memory_of, place_of};
ghost use Rattle.param_state.specs.SlotViews.{slot_name};
ghost use Rattle.fold_state.specs.Entering.{HasEntered};
ghost use Rattle.param_state.specs.Demands.{entered_at};
ghost use Rattle.fold_state.specs.Places.{Rise};
ghost use Rattle.fold_state.specs.Premises.{AreSeated, HasSlot};
ghost use Rattle.param_state.specs.FinishedValues.{IsRaw};
ghost use Rattle.mib_model.specs.Kept as Spec;

use crate::board::Board;
use mib_model::{Name, Value};
use param_state::{Demand, ParamSlot, is_asked, is_raw};

// Notes the place of the k-th value, where there is a seat for it.
fn note_seat(seats: &mut Vec<usize>, k: usize, at: usize)
    ensures noted { k < length seats.old.items → seats.new.items ≡ slice_set seats.old.items k at }
    ensures past { length seats.old.items ≤ k → seats.new.items ≡ seats.old.items }
{
    if k < seats.len() {
        seats[k] = at;
    }
}

// Whether the slot at a place has this name.
#[inline(always)]
pub fn is_named(slots: &[ParamSlot], at: usize, name: &Name) -> bool
    requires { Rise (map slot_name slots.now) }
    ensures within { IsTrue result → at < length slots.now }
    ensures place { IsTrue result → place_of (board_of slots.now) name.now ≡ Some at }
{
    at < slots.len() && slots[at].name == *name
}

// Enters the raw number of a value, if it has one, whose name stands at this place.
#[inline(always)]
fn enter_slot(slots: &mut [ParamSlot], at: usize, value: &Value)
    requires { at < length slots.old }
    ensures names { map slot_name slots.new ≡ map slot_name slots.old }
    ensures memory { place_of (board_of slots.old) value.now.name ≡ Some at → IsRaw value.now
        → memory_of (board_of slots.new) ≡ Spec.entered (memory_of (board_of slots.old)) value.now }
{
    if is_raw(value) {
        slots[at].enter(value.raw);
    }
}

// Enters it where it is asked.
#[inline(always)]
fn enter_asked(slots: &mut [ParamSlot], demands: &[Demand], at: usize, value: &Value)
    requires { at < length slots.old }
    ensures names { map slot_name slots.new ≡ map slot_name slots.old }
    ensures memory { place_of (board_of slots.old) value.now.name ≡ Some at → IsRaw value.now
        → memory_of (board_of slots.new) ≡ entered_at demands.now at (memory_of (board_of slots.old)) value.now }
{
    if is_asked(demands, at) {
        enter_slot(slots, at, value);
    }
}

// Enters the raw numbers of values that are asked, in their order, as long as the slots at these places have their names, notes
// the places, and tells how many values those are.
#[inline(always)]
fn enter_near(
    slots: &mut [ParamSlot],
    demands: &[Demand],
    values: &[Value],
    places: &[u32],
    seats: &mut [usize],
) -> usize
    requires places { length values.now ≤ length places.now }
    requires seats { length values.now ≤ length seats.old }
    requires rise { Rise (map slot_name slots.old) }
    ensures few { result ≤ length values.now }
    ensures names { map slot_name slots.new ≡ map slot_name slots.old }
    ensures seats { AreSeated (board_of slots.old) values.now result seats.new }
    ensures memory { All IsRaw values.now → HasEntered demands.now (take result values.now) (board_of slots.old) (board_of slots.new) }
{
    for k in 0..values.len() {
        let value = &values[k];
        let at = places[k] as usize;
        if !is_named(slots, at, &value.name) {
            return k;
        }
        enter_asked(slots, demands, at, value);
        seats[k] = at;
    }
    values.len()
}

impl Board {
    // Enters the raw numbers of the first values, as long as the guesses of their places from here on are right, notes the places, and
    // tells how many values they are.
    #[inline(always)]
    fn enter_first(
        &mut self,
        demands: &[Demand],
        values: &[Value],
        first: usize,
        seats: &mut Vec<usize>,
    ) -> usize
        ensures few { result ≤ length values.now }
        ensures names { self.new.names ≡ self.old.names }
        ensures seats { AreSeated self.old values.now result seats.new.items }
        ensures memory { All IsRaw values.now → HasEntered demands.now (take result values.now) self.old self.new }
    {
        let places = self.guesses.places(first, values.len());
        if places.len() < values.len() || seats.len() < values.len() {
            return 0;
        }
        enter_near(&mut self.slots, demands, values, places, seats)
    }

    // Enters the raw number of a value, whose place is looked for where a guess says, and tells the place.
    #[inline(always)]
    fn enter(&mut self, demands: &[Demand], value: &Value, near: usize) -> usize
        ensures names { self.new.names ≡ self.old.names }
        ensures seat { HasSlot self.old value.now.name → place_of self.old value.now.name ≡ Some result }
        ensures memory { HasSlot self.old value.now.name → IsRaw value.now
            → memory_of self.new ≡ entered_at demands.now result (memory_of self.old) value.now }
    {
        let Some(at) = self.place_near(near, &value.name) else {
            return usize::MAX;
        };
        if is_asked(demands, at) && is_raw(value) {
            self.set_latest(at, value.raw);
        }
        at
    }

    /// Enters the raw numbers of values, in their order, and notes their places, as far as there are seats for them. The places are
    /// looked for where the guesses from here on say.
    #[inline(always)]
    pub(crate) fn enter_all(
        &mut self,
        demands: &[Demand],
        values: &[Value],
        first: usize,
        seats: &mut Vec<usize>,
    )
        ensures names { self.new.names ≡ self.old.names }
        ensures seats { All (λ v. HasSlot self.old v.name) values.now → AreSeated self.old values.now (length values.now) seats.new.items }
        ensures memory { All (λ v. HasSlot self.old v.name) values.now → All IsRaw values.now
            → HasEntered demands.now values.now self.old self.new }
    {
        let done = self.enter_first(demands, values, first, seats);
        for k in done..values.len() {
            let at = self.enter(demands, &values[k], first.saturating_add(k));
            note_seat(seats, k, at);
        }
    }
}
