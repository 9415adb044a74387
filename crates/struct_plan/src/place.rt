// A place among the rows of a structure.
ghost use Rattle.std.specs.Prelude.{◌≡◌, ℕ, ◌+◌, ◌-◌, ◌<◌, ◌≤◌, ◌^◌, List, ◌∷◌, take, length, Some, None};
ghost use Rattle.mib_model.specs.declared.database.Database.{Database};
ghost use Rattle.mib_model.specs.Fixed.{most_values};
ghost use Rattle.mib_model.specs.Structures.{group_repeated, times};
ghost use Rattle.struct_plan.specs.Sources.{Source, Walked};
ghost use Rattle.bit_field.specs.Taken.{taken, HasSlots, KeepsValues};
ghost use Rattle.struct_plan.specs.declared.course.WalkCourse.{WalkCourse};
ghost use Rattle.struct_plan.specs.Courses.{Gives, IsStructure, walking};
ghost use Rattle.struct_plan.specs.Groups.{entered, entered_at, rounds, settled, settled_at, size_at, still_to_walk, Enclose, IsOfRows};
ghost use Rattle.struct_plan.specs.Places.{groups, IsAmong, IsPlace};

use crate::group::RowGroup;
use crate::stack::Stack;
use crate::structure::Structure;
use bit_field::{MOST_VALUES, Values};

/// A place among the rows of a structure: the next row, and the groups round it that are still to be repeated, the
/// innermost beside those on the stack.
#[derive(Clone, Copy)]
pub struct RowPlace {
    pub at: usize,
    pub inner: Option<RowGroup>,
    pub stack: Stack,
}

// How often a raw number says that a group is walked, as far as it matters: no more values have room.
fn rounds_of(raw: i128) -> u32
    ensures { result ≡ rounds raw }
{
    raw.clamp(0, i128::from(MOST_VALUES) + 1) as u32
}

impl RowPlace {
    /// The first row.
    pub fn new() -> RowPlace
        ensures { result ≡ record { at = 0; inner = None; stack = record { top = most_values; single = None; count = 0 } } }
    {
        RowPlace {
            at: 0,
            inner: None,
            stack: Stack::new(),
        }
    }

    // Puts a group innermost.
    fn push(&mut self, group: RowGroup, values: &mut Values)
        requires slots { HasSlots values.old }
        requires place { IsPlace values.old self.old }
        ensures at { self.new.at ≡ self.old.at }
        ensures groups { groups values.new self.new ≡ take (most_values - values.old.used + 1) (group ∷ groups values.old self.old) }
        ensures place { IsPlace values.new self.new }
        ensures stays { KeepsValues values.old values.new }
    {
        if let Some(outer) = self.inner {
            self.stack.push(outer, values);
        }
        self.inner = Some(group);
    }

    // Goes on behind a row whose group is walked so often: into the group, or past it.
    fn enter(&mut self, size: u16, count: u32, values: &mut Values)
        requires slots { HasSlots values.old }
        requires place { IsPlace values.old self.old }
        requires room { self.old.at + 1 + size < 2 ^ 32 }
        ensures at { self.new.at ≡ entered_at self.old.at size count }
        ensures groups { groups values.new self.new ≡ take (most_values - values.old.used + 1) (entered self.old.at count (groups values.old self.old)) }
        ensures place { IsPlace values.new self.new }
        ensures stays { KeepsValues values.old values.new }
    {
        if count == 0 {
            self.at += 1 + usize::from(size);
            return;
        }
        if count > 1 {
            let group = RowGroup {
                row: self.at as u32,
                left: count - 1,
            };
            self.push(group, values);
        }
        self.at += 1;
    }

    // Goes back to the start of the innermost group where this stands at its end: once less is it to be repeated.
    fn settle(&mut self, structure: &Structure, values: &Values)
        requires slots { HasSlots values.now }
        requires place { IsPlace values.now self.old }
        requires rows { IsOfRows structure.now.vpds (groups values.now self.old) }
        ensures at { self.new.at ≡ settled_at structure.now.vpds self.old.at (groups values.now self.old) }
        ensures groups { groups values.now self.new ≡ settled structure.now.vpds self.old.at (groups values.now self.old) }
        ensures place { IsPlace values.now self.new }
    {
        let Some(group) = self.inner else {
            return;
        };
        if self.at != structure.end_of(group) {
            return;
        }
        self.at = group.row as usize + 1;
        if group.left == 1 {
            self.inner = self.stack.pop(values);
            return;
        }
        self.inner = Some(RowGroup {
            row: group.row,
            left: group.left - 1,
        });
    }

    /// Goes on behind a row.
    pub fn pass(&mut self, structure: &Structure, values: &Values)
        requires slots { HasSlots values.now }
        requires place { IsPlace values.now self.old }
        requires around { Enclose structure.now.vpds self.old.at (self.old.at + 1) (groups values.now self.old) }
        requires room { length structure.now.vpds < 2 ^ 32 }
        ensures still { still_to_walk structure.now.vpds self.new.at (groups values.now self.new)
            ≡ still_to_walk structure.now.vpds (self.old.at + 1) (groups values.now self.old) }
        ensures among { IsAmong structure.now.vpds values.now self.new }
    {
        self.at += 1;
        self.settle(structure, values);
    }

    /// Goes on behind a row whose group is counted.
    pub fn repeat(&mut self, size: u16, raw: i128, structure: &Structure, values: &mut Values)
        requires slots { HasSlots values.old }
        requires place { IsPlace values.old self.old }
        requires size { size ≡ size_at structure.now.vpds self.old.at }
        requires some { 0 < size }
        requires around { Enclose structure.now.vpds self.old.at (self.old.at + 1 + size) (groups values.old self.old) }
        requires room { length structure.now.vpds < 2 ^ 32 }
        ensures gives { (db : Database) (source : Source) (end : Walked) (course : WalkCourse) → IsStructure db structure.now →
            Gives db source end (walking (group_repeated size (times raw) (still_to_walk structure.now.vpds (self.old.at + 1) (groups values.old self.old)))
            course (taken values.old)) →
            Gives db source end (walking (still_to_walk structure.now.vpds self.new.at (groups values.new self.new)) course (taken values.new)) }
        ensures among { IsAmong structure.now.vpds values.new self.new }
        ensures stays { KeepsValues values.old values.new }
    {
        self.enter(size, rounds_of(raw), values);
        self.settle(structure, values);
    }

    /// Goes on behind a row whose group is walked a fixed number of times.
    pub fn repeat_fixed(
        &mut self,
        size: u16,
        count: u16,
        structure: &Structure,
        values: &mut Values,
    )
        requires slots { HasSlots values.old }
        requires place { IsPlace values.old self.old }
        requires size { size ≡ size_at structure.now.vpds self.old.at }
        requires some { 0 < size }
        requires times { 0 < count }
        requires around { Enclose structure.now.vpds self.old.at (self.old.at + 1 + size) (groups values.old self.old) }
        requires room { length structure.now.vpds < 2 ^ 32 }
        ensures gives { (db : Database) (source : Source) (end : Walked) (course : WalkCourse) → IsStructure db structure.now →
            Gives db source end (walking (group_repeated size count (still_to_walk structure.now.vpds (self.old.at + 1) (groups values.old self.old)))
            course (taken values.old)) →
            Gives db source end (walking (still_to_walk structure.now.vpds self.new.at (groups values.new self.new)) course (taken values.new)) }
        ensures among { IsAmong structure.now.vpds values.new self.new }
        ensures further { self.new.at ≡ self.old.at + 1 }
        ensures stays { KeepsValues values.old values.new }
    {
        self.enter(size, u32::from(count), values);
    }
}
