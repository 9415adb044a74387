// Groups kept in the slots of values that aren't in use.
ghost use Rattle.std.specs.Prelude.{◌≡◌, ◌+◌, ◌-◌, ◌*◌, ◌<◌, ◌≤◌, [], ◌∷◌, ◌++◌, take, drop, length, min, Option, Some, None};
ghost use Rattle.mib_model.specs.declared.packet.Value.{Value};
ghost use Rattle.mib_model.specs.Fixed.{most_values};
ghost use Rattle.bit_field.specs.Taken.{taken, HasSlots, KeepsSlots, KeepsValues};
ghost use Rattle.struct_plan.specs.Stacks as Spec;
ghost use Rattle.struct_plan.specs.Stacks.{inner_in, outer_in, kept, standing, IsWithin, popped};

use crate::group::RowGroup;
use bit_field::{MOST_VALUES, Values};
use mib_model::Value;

// The weight of a row in the number of a group.
const ROW_WEIGHT: u64 = 4_294_967_296;

/// A stack of groups in the slots of a list of values that aren't in use, two in a slot: the slot of the innermost two, the
/// one innermost group that has no slot yet, and how many groups are kept, as many as there are such slots at most. Where
/// there are more, those that lie outermost are lost.
///
/// Twice as many groups have room as are kept. So where no slot is free the inner half of the slots is all that is needed:
/// it is copied to the last places, and the other half is free. No more slots are copied than were filled since the last
/// time.
#[derive(Clone, Copy)]
pub struct Stack {
    pub top: u32,
    pub single: Option<RowGroup>,
    pub count: u32,
}

// The number of a group: its row, and how often it is still repeated, in half of the bits each.
fn number_of(group: RowGroup) -> u64
    ensures { Spec.group_of result ≡ group }
{
    u64::from(group.row) * ROW_WEIGHT + u64::from(group.left)
}

// The group of a number.
fn group_of(number: u64) -> RowGroup
    ensures { result ≡ Spec.group_of number }
{
    RowGroup {
        row: (number / ROW_WEIGHT) as u32,
        left: (number % ROW_WEIGHT) as u32,
    }
}

// A slot with two groups in it.
fn keeping(slot: Value, inner: RowGroup, outer: RowGroup) -> Value
    ensures inner { inner_in result ≡ inner }
    ensures outer { outer_in result ≡ outer }
{
    Value {
        raw: i128::from(number_of(inner)),
        at: number_of(outer),
        ..slot
    }
}

// The inner group in a slot.
fn inner_of(slot: Value) -> RowGroup
    ensures { result ≡ inner_in slot }
{
    group_of((slot.raw.unsigned_abs() % (1 << 64)) as u64)
}

// Copies so many slots from a place on to the last places.
#[inline(never)]
fn copy_to_end(slots: &mut [Value], from: usize, count: usize)
    requires { from + 2 * count ≤ length slots.old }
    ensures { slots.new ≡ take (length slots.old - count) slots.old ++ take count (drop from slots.old) }
{
    let end = slots.len() - count;
    slots.copy_within(from..from + count, end);
}

impl Stack {
    /// A stack of no groups.
    pub fn new() -> Stack
        ensures { result ≡ record { top = most_values; single = None; count = 0 } }
    {
        Stack {
            top: MOST_VALUES,
            single: None,
            count: 0,
        }
    }

    // Makes room for one more: where as many groups are kept as there are slots, the outermost is lost.
    fn lose(&mut self, values: &Values)
        requires used { values.now.used < most_values }
        requires within { IsWithin values.now self.old }
        ensures groups { kept values.now self.new ≡ take (most_values - (values.now.used + 1)) (kept values.now self.old) }
        ensures within { IsWithin values.now self.new }
        ensures fewer { values.now.used + self.new.count < most_values }
    {
        self.count = self.count.min(MOST_VALUES - values.used - 1);
    }

    // Frees the first slot that isn't in use.
    fn free_slot(&mut self, values: &mut Values)
        requires slots { length values.old.slots.now ≡ most_values }
        requires within { IsWithin values.old self.old }
        requires fewer { values.old.used + self.old.count < most_values }
        ensures groups { kept values.new self.new ≡ kept values.old self.old }
        ensures free { values.old.used < self.new.top }
        ensures within { IsWithin values.new self.new }
        ensures single { self.new.single ≡ self.old.single }
        ensures count { self.new.count ≡ self.old.count }
        ensures stays { KeepsValues values.old values.new }
    {
        if values.used < self.top {
            return;
        }
        let count = (MOST_VALUES - values.used) / 2;
        copy_to_end(values.slots, values.used as usize, count as usize);
        self.top = MOST_VALUES - count;
    }

    // Puts a group innermost, in one slot with the single one.
    fn pair(&mut self, inner: RowGroup, outer: RowGroup, values: &mut Values)
        requires slots { length values.old.slots.now ≡ most_values }
        requires within { IsWithin values.old self.old }
        requires free { values.old.used < self.old.top }
        requires fewer { values.old.used + self.old.count < most_values }
        requires single { self.old.single ≡ Some outer }
        ensures standing { standing values.new self.new ≡ inner ∷ standing values.old self.old }
        ensures count { self.new.count ≡ self.old.count + 1 }
        ensures within { IsWithin values.new self.new }
        ensures stays { KeepsValues values.old values.new }
    {
        self.top -= 1;
        let slot = self.top as usize;
        values.slots[slot] = keeping(values.slots[slot], inner, outer);
        self.single = None;
        self.count += 1;
    }

    /// Puts a group innermost. Where there is no slot for another, the outermost is lost.
    pub fn push(&mut self, group: RowGroup, values: &mut Values)
        requires slots { HasSlots values.old }
        requires within { IsWithin values.old self.old }
        ensures groups { kept values.new self.new ≡ take (most_values - values.old.used) (group ∷ kept values.old self.old) }
        ensures within { IsWithin values.new self.new }
        ensures stays { KeepsValues values.old values.new }
    {
        if values.used == MOST_VALUES {
            return;
        }
        self.lose(values);
        let Some(outer) = self.single else {
            self.single = Some(group);
            self.count += 1;
            return;
        };
        self.free_slot(values);
        self.pair(group, outer, values);
    }

    /// Takes the innermost group off, if there is one.
    pub fn pop(&mut self, values: &Values) -> Option<RowGroup>
        requires slots { HasSlots values.now }
        requires within { IsWithin values.now self.old }
        ensures groups { popped result (kept values.now self.new) ≡ kept values.now self.old }
        ensures none { result ≡ None → kept values.now self.new ≡ [] }
        ensures within { IsWithin values.now self.new }
    {
        if self.count == 0 {
            return None;
        }
        self.count -= 1;
        if let Some(group) = self.single {
            self.single = None;
            return Some(group);
        }
        let slot = values.slots[self.top as usize];
        self.top += 1;
        self.single = Some(group_of(slot.at));
        Some(inner_of(slot))
    }

    /// Appends a value to the list. Where all slots keep groups, the outermost is lost.
    pub fn give(&mut self, value: Value, values: &mut Values)
        requires slots { length values.old.slots.now ≡ most_values }
        requires used { values.old.used < most_values }
        requires within { IsWithin values.old self.old }
        ensures groups { kept values.new self.new ≡ take (most_values - values.new.used) (kept values.old self.old) }
        ensures within { IsWithin values.new self.new }
        ensures taken { taken values.new ≡ taken values.old ++ value ∷ [] }
        ensures used { values.new.used ≡ values.old.used + 1 }
        ensures stays { KeepsSlots values.old values.new }
    {
        self.lose(values);
        self.free_slot(values);
        values.push(value);
    }
}
