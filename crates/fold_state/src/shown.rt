// What a board keeps of a name, for whoever shows it.
ghost use Rattle.std.specs.Prelude.{◌≡◌, ◌-ℤ◌, ◌≤ℤ◌, ◌<ℤ◌, pos, IfSome};
ghost use Rattle.param_state.specs.SlotViews.{kept_as};
ghost use Rattle.fold_state.specs.Boards.{memory_of};

use crate::board::Board;
use mib_model::{Class, Name};
use param_state::ParamSlot;

// The latest raw number that a slot keeps.
fn latest_in(slot: &ParamSlot) -> Option<i128>
    ensures latest { result ≡ (kept_as slot.now).latest }
    ensures range { IfSome result (λ raw. ((pos 0 -ℤ pos 18446744073709551616) ≤ℤ raw) × (raw <ℤ pos 18446744073709551616)) }
{
    if !slot.has_latest {
        return None;
    }
    let bits = i128::from(slot.latest);
    Some(if slot.is_low { bits - (1 << 64) } else { bits })
}

impl Board {
    /// The latest raw number of a name; none where no value of it was seen, or where the edition has no plan for it. It has
    /// at most 64 bits beside its sign.
    pub fn latest(&self, name: Name) -> Option<i128>
        ensures latest { result ≡ (memory_of self.now name).latest }
        ensures range { IfSome result (λ raw. ((pos 0 -ℤ pos 18446744073709551616) ≤ℤ raw) × (raw <ℤ pos 18446744073709551616)) }
    {
        match self.place(&name) {
            Some(at) => latest_in(self.slot(at)),
            None => None,
        }
    }

    /// The class that is spoken of for a name; none where none is, or where the edition has no plan for the name.
    pub fn spoken(&self, name: Name) -> Option<Class>
        ensures { result ≡ (memory_of self.now name).spoken }
    {
        match self.place(&name) {
            Some(at) => self.slot(at).alarm.spoken(),
            None => None,
        }
    }

    /// The latest raw number of a name and the class that is spoken of for it, as `latest` and `spoken` give them, by one search. The name is looked
    /// for first at a place that the caller keeps, which becomes the one where it was found.
    pub fn latest_and_spoken(&self, name: &Name, near: &mut usize) -> (Option<i128>, Option<Class>)
        ensures latest { result.0 ≡ (memory_of self.now name.now).latest }
        ensures spoken { result.1 ≡ (memory_of self.now name.now).spoken }
        ensures range { IfSome result.0 (λ raw. ((pos 0 -ℤ pos 18446744073709551616) ≤ℤ raw) × (raw <ℤ pos 18446744073709551616)) }
    {
        match self.place_from(*near, name) {
            Some(at) => {
                *near = at;
                let slot = self.slot(at);
                (latest_in(slot), slot.alarm.spoken())
            }
            None => (None, None),
        }
    }
}
