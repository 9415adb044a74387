ghost use Rattle.std.specs.Prelude.{◌≡◌, ◌<◌, ◌≤◌, ◌≤ℤ◌, [], List, ℕ, Some, length, map, nat_lt, true, vec_capacity, IfOk, IsTrue};
ghost use Rattle.check_plan.specs.Samples.{sample_of};
ghost use Rattle.mib_model.specs.Alarms.{alarm};
ghost use Rattle.mib_model.specs.Finish.{with_alarm};
ghost use Rattle.mib_model.specs.Kept as Spec;
ghost use Rattle.mib_model.specs.Kept.{has_number};
ghost use Rattle.mib_model.specs.WholeNumbers.{least_raw, greatest_raw};
ghost use Rattle.mib_model.specs.declared.packet.Value.{Value};
ghost use Rattle.param_state.specs.SlotViews.{kept_as, slot_name, vacant_for};
ghost use Rattle.fold_state.specs.Boards.{memory_of, place_of};
ghost use Rattle.param_state.specs.ParamPlans.{plan_names};
ghost use Rattle.fold_state.specs.Places.{Rise};
ghost use Rattle.line_marks.specs.Marks.{after_nominal};

use bit_field::MOST_VALUES;
use check_plan::{Holds, Sample};
use mib_model::{Change, Class, Eng, MadeFor, Name};
use param_plan::Params;
use param_state::{ParamSlot, STRIDE, read_rows_ahead, read_slots_ahead};
use plan_places::{FAR, Guesses, touch_parts, touch_plans};
use std::alloc::{AllocError, Global};
use std::marker::Model;
use std::mem;

/// What is kept of each parameter of an edition: a slot for each plan, in the order of the plans. Contracts see the names
/// and the slots.
pub struct Board {
    pub(crate) slots: Vec<ParamSlot>,
    pub(crate) guesses: Guesses,
    // Where the places of a packet's values are noted. It says nothing between two packets.
    pub(crate) seats: Vec<usize>,
    // Made of what was read ahead; it says nothing.
    pub(crate) ahead: usize,
}

/// By hand, so that whoever lets one go proves one call.
impl Drop for Board {
    fn drop(self) {
        let Board {
            slots: _slots,
            guesses: _guesses,
            seats: _seats,
            ahead: _,
        } = self;
    }
}

impl Model for Board {
    ghost use Rattle.std.specs.Prelude.{map};
    ghost use Rattle.fold_state.specs.Boards.{Slots, board_of};
    ghost use Rattle.param_state.specs.SlotViews.{slot_name};
    ghost use Rattle.fold_state.specs.Places.{Rise};

    ghost Value = { Slots };

    ghost view = { λ board. board_of board.slots.items };

    ghost invariant = { λ board. Rise (map slot_name board.slots.items) };
}

/// Slots for plans, which keep nothing, in room that is reserved for them.
pub(crate) fn slots_for(room: Vec<ParamSlot>, params: &Params) -> Vec<ParamSlot>
    requires none { room.items ≡ [] }
    requires room { length params.now ≤ vec_capacity room }
    ensures slots { result.items ≡ map vacant_for params.now }
    ensures rise { Rise (map slot_name result.items) }
{
    let mut slots = room;
    for at in 0..params.len() {
        slots.push_reserved(ParamSlot::new(params.plan(at).name()));
    }
    slots
}

// Notes the places of the names of slots.
fn note_names(guesses: &mut Guesses, slots: &[ParamSlot]) {
    for at in 0..slots.len() {
        guesses.note_name(&slots[at].name, at);
    }
}

impl Board {
    /// A board for these plans that keeps nothing. An error is want of memory.
    pub fn new(alloc: Global, params: &Params) -> Result<Board, AllocError>
        ensures names { IfOk result (λ board. board.names ≡ plan_names params.now) }
        ensures memory { IfOk result (λ board. memory_of board ≡ Spec.empty_memory) }
    {
        let slots = slots_for(Vec::with_capacity(alloc, params.len())?, params);
        let mut guesses = Guesses::new(alloc, slots.len())?;
        note_names(&mut guesses, &slots);
        Ok(Board {
            slots,
            guesses,
            seats: vec![in alloc; 0; MOST_VALUES as usize]?,
            ahead: 0,
        })
    }

    /// A board of no names. It takes no memory.
    pub fn empty(alloc: Global) -> Board
        ensures names { result.names ≡ [] }
        ensures memory { memory_of result ≡ Spec.empty_memory }
    {
        Board {
            slots: Vec::new(alloc),
            guesses: Guesses::empty(alloc),
            seats: Vec::new(alloc),
            ahead: 0,
        }
    }

    // Whether a name stands at a place.
    fn is_at(&self, at: usize, name: &Name) -> bool
        ensures { IsTrue result → place_of self.now name.now ≡ Some at }
    {
        at < self.slots.len() && self.slots[at].name == *name
    }

    // The place of a name, by halving.
    fn halved(&self, name: Name) -> Option<usize>
        ensures { result ≡ place_of self.now name }
    {
        let found = self.slots.binary_search_by_key(&name, |slot| slot.name);
        match found {
            Ok(at) => Some(at),
            Err(_) => None,
        }
    }

    /// The place of a name, which is looked for first where its octets say.
    pub(crate) fn place(&self, name: &Name) -> Option<usize>
        ensures { result ≡ place_of self.now name.now }
    {
        let guess = self.guesses.named(name);
        if self.is_at(guess, name) {
            return Some(guess);
        }
        self.halved(*name)
    }

    /// The place of a name, which is looked for first at this one.
    pub(crate) fn place_from(&self, guess: usize, name: &Name) -> Option<usize>
        ensures { result ≡ place_of self.now name.now }
    {
        if self.is_at(guess, name) {
            return Some(guess);
        }
        self.place(name)
    }

    /// Reads ahead what will be asked of the plans and slots of a packet that is of this kind and has so many values, and tells
    /// where the guesses of their places begin.
    pub(crate) fn begin(&mut self, params: &Params, spid: u32, count: usize) -> usize
        ensures { self.new ≡ self.old }
    {
        let first = self.guesses.row(spid, count);
        if self.slots.len() >= FAR {
            let places = self.guesses.places(first, count);
            let plain = params.plain();
            self.ahead = read_slots_ahead(&self.slots, places)
                ^ touch_plans(params, plain, places)
                ^ touch_parts(params, plain, places);
        }
        first
    }

    /// Reads ahead what carrying will ask of the plans from this place on, once for so many places.
    #[inline(always)]
    pub(crate) fn read_on(&mut self, to: &Params, at: usize)
        ensures { self.new ≡ self.old }
    {
        if at % STRIDE == 0 {
            self.ahead = read_rows_ahead(&self.slots, to, at);
        }
    }

    /// The place of a name, which is looked for first where a guess says.
    #[inline(always)]
    pub(crate) fn place_near(&mut self, near: usize, name: &Name) -> Option<usize>
        ensures place { result ≡ place_of self.old name.now }
        ensures same { self.new ≡ self.old }
    {
        let guess = self.guesses.place(near);
        if self.is_at(guess, name) {
            return Some(guess);
        }
        self.place_noted(near, name)
    }

    // The place of a name for which a guess was wrong, which is noted for the next time.
    #[inline(never)]
    fn place_noted(&mut self, near: usize, name: &Name) -> Option<usize>
        ensures place { result ≡ place_of self.old name.now }
        ensures same { self.new ≡ self.old }
    {
        let at = self.place(name);
        if let Some(at) = at {
            self.guesses.note(near, at);
        }
        at
    }

    /// Takes over the guesses and seats of another board, and notes where its own names stand.
    pub(crate) fn take_guesses(&mut self, other: Board)
        ensures { self.new ≡ self.old }
    {
        let Board {
            slots: _slots,
            guesses,
            seats,
            ahead: _,
        } = other;
        self.guesses = guesses;
        self.seats = seats;
        note_names(&mut self.guesses, &self.slots);
    }

    /// Takes the seats out, so that they can be noted beside the slots.
    pub(crate) fn take_seats(&mut self) -> Vec<usize>
        ensures { self.new ≡ self.old }
    {
        let none = Vec::new(*self.seats.allocator());
        mem::replace(&mut self.seats, none)
    }

    /// Gives the seats back.
    pub(crate) fn give_seats(&mut self, seats: Vec<usize>)
        ensures { self.new ≡ self.old }
    {
        self.seats = seats;
    }

    /// Whether there is a slot at a place.
    pub(crate) fn has_seat(&self, at: usize) -> bool
        ensures { result ≡ nat_lt at (length self.now.names) }
    {
        at < self.slots.len()
    }

    /// What is kept at a place.
    pub(crate) fn slot(&self, at: usize) -> &ParamSlot
        requires { at < length self.now.names }
        ensures { (name : List ℕ) → place_of self.now name ≡ Some at → kept_as result.now ≡ memory_of self.now name }
    {
        &self.slots[at]
    }

    /// The name at a place.
    pub(crate) fn name(&self, at: usize) -> &Name
        requires { at < length self.now.names }
        ensures { (name : List ℕ) → place_of self.now name ≡ Some at → result.now ≡ name }
    {
        &self.slots[at].name
    }

    /// Keeps the raw number of a value of the name at a place.
    pub(crate) fn set_latest(&mut self, at: usize, raw: i128)
        requires at { at < length self.old.names }
        requires low { least_raw ≤ℤ raw }
        requires high { raw ≤ℤ greatest_raw }
        ensures names { self.new.names ≡ self.old.names }
        ensures memory { (v : Value) → place_of self.old v.name ≡ Some at → has_number v.shape.sort ≡ true → v.raw ≡ raw
            → memory_of self.new ≡ Spec.entered (memory_of self.old) v }
    {
        self.slots[at].enter(raw);
    }

    /// Takes a step of the alarm of the name at a place, after a sample of a class where so many in a row are spoken of, and
    /// gives what is told of it.
    pub(crate) fn step(
        &mut self,
        at: usize,
        class: Class,
        repeats: u8,
        sample: Sample,
    ) -> Option<Change>
        requires { at < length self.old.names }
        ensures names { self.new.names ≡ self.old.names }
        ensures stepped { (name : List ℕ) → place_of self.old name ≡ Some at
            → (memory_of self.new, result) ≡ with_alarm (memory_of self.old) name (sample_of sample.entry)
            (alarm ((memory_of self.old name).spoken, (memory_of self.old name).run) class repeats) }
    {
        self.slots[at].step(class, repeats, sample)
    }

    /// Takes the step of the alarm of the name at a place after a nominal number, and gives what is told of it.
    #[inline(always)]
    pub(crate) fn step_nominal(&mut self, at: usize, number: Eng) -> Option<Change>
        requires { at < length self.old.names }
        ensures names { self.new.names ≡ self.old.names }
        ensures stepped { (name : List ℕ) → place_of self.old name ≡ Some at
            → (memory_of self.new, result) ≡ after_nominal (memory_of self.old) name number.count }
    {
        self.slots[at].step_nominal(number)
    }

    /// Keeps something else at a place.
    pub(crate) fn set_slot(&mut self, at: usize, slot: ParamSlot)
        requires { at < length self.old.names }
        ensures names { self.new.names ≡ self.old.names }
        ensures memory { (name : List ℕ) → place_of self.old name ≡ Some at
            → memory_of self.new ≡ Spec.keeping (memory_of self.old) name (kept_as slot) }
    {
        self.slots[at].keep(&slot);
    }
}

impl Holds for Board {
    ghost memory = { memory_of };

    fn holds(&self, name: Name, number: i128) -> bool {
        match self.place(&name) {
            Some(at) => self.slot(at).holds(number),
            None => false,
        }
    }
}

impl MadeFor for Board {
    ghost use Rattle.fold_state.specs.Boards.{is_made_for};

    ghost made_for = { is_made_for };
}
