// What is kept where the edition changes.
ghost use Rattle.std.specs.Prelude.{◌≡◌, ◌<◌, List, ℕ, Some, length, IsTrue};
ghost use Rattle.param_state.specs.SlotViews.{kept_as};
ghost use Rattle.fold_state.specs.Boards.{memory_of, place_of};
ghost use Rattle.param_state.specs.ParamPlans.{plan_names, IsParamsOf, IsSliceOf};
ghost use Rattle.mib_model.specs.declared.database.Database.{Database};
ghost use Rattle.mib_model.specs.Carry as Spec;
ghost use Rattle.mib_model.specs.Kept.{keeping};

use crate::board::Board;
use crate::room::BoardRoom;
use param_plan::{Param, Params};
use param_state::{ParamSlot, carried};
use std::mem;

// What is kept under the new edition of a parameter that has a place.
fn kept_at(old: &Board, at: usize, from: &Params, plan: &Param) -> ParamSlot
    requires { at < length old.now.names }
    ensures { (before after : Database) → IsParamsOf before from.now → old.now.names ≡ plan_names from.now → IsSliceOf after plan.now.pcf.name plan.now
        → place_of old.now plan.now.pcf.name ≡ Some at → kept_as result ≡ Spec.carry (memory_of old.now) before after plan.now.pcf.name }
{
    if at >= from.len() {
        return ParamSlot::new(plan.name());
    }
    carried(old.slot(at), from.plan(at), plan)
}

// What is kept under the new edition of a parameter.
fn kept_for(old: &Board, from: &Params, plan: &Param) -> ParamSlot
    ensures { (before after : Database) → IsParamsOf before from.now → old.now.names ≡ plan_names from.now → IsSliceOf after plan.now.pcf.name plan.now
        → kept_as result ≡ Spec.carry (memory_of old.now) before after plan.now.pcf.name }
{
    let name = plan.name();
    match old.place(&name) {
        Some(at) => kept_at(old, at, from, plan),
        None => ParamSlot::new(name),
    }
}

impl Board {
    // Whether its names are those of plans.
    fn is_of(&self, params: &Params) -> bool
        ensures { IsTrue result → self.now.names ≡ plan_names params.now }
    {
        if self.slots.len() != params.len() {
            return false;
        }
        for at in 0..params.len() {
            if !params.plan(at).is_named(&self.slots[at].name) {
                return false;
            }
        }
        true
    }

    // Carries what is kept of the parameter at a place.
    fn keep_at(&mut self, at: usize, old: &Param, new: &Param)
        requires { at < length self.old.names }
        ensures names { self.new.names ≡ self.old.names }
        ensures memory { (before after : Database) (name : List ℕ) → place_of self.old name ≡ Some at → IsSliceOf before name old.now
            → IsSliceOf after name new.now → memory_of self.new ≡ keeping (memory_of self.old) name (Spec.carry (memory_of self.old) before after name) }
    {
        let slot = carried(self.slot(at), old, new);
        self.set_slot(at, slot);
    }

    // Carries what it keeps, where both editions have its names.
    fn keep(&mut self, from: &Params, to: &Params)
        requires old { self.old.names ≡ plan_names from.now }
        requires new { self.old.names ≡ plan_names to.now }
        ensures names { self.new.names ≡ self.old.names }
        ensures memory { (before after : Database) → IsParamsOf before from.now → IsParamsOf after to.now
            → memory_of self.new ≡ Spec.carry (memory_of self.old) before after }
    {
        for at in 0..to.len() {
            self.read_on(to, at);
            self.keep_at(at, from.plan(at), to.plan(at));
        }
    }

    // Keeps what an old board kept, where it has the names of the new edition. What it kept itself plays no part.
    fn take(&mut self, old: &Board, from: &Params, to: &Params)
        requires new { self.old.names ≡ plan_names to.now }
        requires old { old.now.names ≡ plan_names from.now }
        ensures names { self.new.names ≡ self.old.names }
        ensures memory { (before after : Database) → IsParamsOf before from.now → IsParamsOf after to.now
            → memory_of self.new ≡ Spec.carry (memory_of old.now) before after }
    {
        for at in 0..to.len() {
            self.set_slot(at, kept_for(old, from, to.plan(at)));
        }
    }

    // Carries what it keeps to other names.
    fn move_to(&mut self, room: BoardRoom, from: &Params, to: &Params)
        requires new { room.names ≡ plan_names to.now }
        requires old { self.old.names ≡ plan_names from.now }
        ensures names { self.new.names ≡ room.names }
        ensures memory { (before after : Database) → IsParamsOf before from.now → IsParamsOf after to.now
            → memory_of self.new ≡ Spec.carry (memory_of self.old) before after }
    {
        let old = mem::replace(self, room.into_board(to));
        self.take(&old, from, to);
        self.take_guesses(old);
    }

    /// Carries what it keeps over to an edition that comes into use: all of a name whose parameter, check but for the number
    /// of checks, and limits are the same, with its run held to the new number of checks, and else nothing. It takes no memory,
    /// and what is reserved where the edition has other names.
    pub fn carry(&mut self, room: BoardRoom, from: &Params, to: &Params)
        requires new { room.names ≡ plan_names to.now }
        requires old { self.old.names ≡ plan_names from.now }
        ensures names { self.new.names ≡ room.names }
        ensures memory { (before after : Database) → IsParamsOf before from.now → IsParamsOf after to.now
            → memory_of self.new ≡ Spec.carry (memory_of self.old) before after }
    {
        if self.is_of(to) {
            self.keep(from, to);
        } else {
            self.move_to(room, from, to);
        }
    }
}
