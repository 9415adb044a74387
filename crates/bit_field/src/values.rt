use mib_model::{MOST_VALUES, Value};

/// The values of a packet: the front of some slots, of which so many are in use.
#[derive(Drop)]
pub struct Values<'a> {
    pub slots: &'a mut [Value],
    pub used: u32,
}

impl Values<'_> {
    ghost use Rattle.std.specs.Prelude.{◌≡◌, ◌≤◌, ◌+◌, ◌++◌, ◌∷◌, [], length, nat_lt, slice_set, if◌then◌else◌};
    ghost use Rattle.mib_model.specs.Fixed.{most_values};
    ghost use Rattle.bit_field.specs.Taken.{taken, HasSlots, KeepsSlots};

    /// Appends a value, and says whether there was room for it: there is none exactly where 8,192 stand. The slots that
    /// aren't in use stay as they were, but the first of them, and without room all stays.
    pub fn push(&mut self, v: Value) -> bool
        requires slots { HasSlots self.old }
        ensures room { result ≡ nat_lt self.old.used most_values }
        ensures taken { taken self.new ≡ (if result then taken self.old ++ v ∷ [] else taken self.old) }
        ensures used { self.new.used ≡ (if result then self.old.used + 1 else self.old.used) }
        ensures slots { self.new.slots.now ≡ (if result then slice_set self.old.slots.now self.old.used v else self.old.slots.now) }
        ensures stays { KeepsSlots self.old self.new }
    {
        if self.used == MOST_VALUES {
            return false;
        }
        let slot = &mut self.slots[self.used as usize];
        slot.name = v.name;
        slot.shape = v.shape;
        slot.at = v.at;
        slot.raw = v.raw;
        self.used += 1;
        true
    }
}
