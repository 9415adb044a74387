// The walk over the rows of structures.
ghost use Rattle.std.specs.Prelude.{◌≡◌, ◌≢◌, ◌+◌, ◌-◌, ◌*◌, ◌<◌, ◌≤◌, ◌^◌, ℕ, ℤ, pos, List, [], ◌∷◌, drop, take, length, option_map, Option, Some, None, IfOk, OnOk};
ghost use Rattle.mib_model.specs.declared.database.Database.{Database};
ghost use Rattle.mib_model.specs.declared.rows.VpdRow.{VpdRow};
ghost use Rattle.mib_model.specs.Fixed.{most_values};
ghost use Rattle.mib_model.specs.Soundness.{IsSound};
ghost use Rattle.mib_model.specs.Structures.{structure, Typed};
ghost use Rattle.mib_model.specs.Walk.{after_value, structure_values, walk_start};
ghost use Rattle.bit_field.specs.Taken.{taken, HasSlots, KeepsSlots};
ghost use Rattle.struct_plan.specs.Courses.{Comes, Given, Gives, GoesOn, HasChosen, IsFurther, IsInReach, IsStructure, Leads, Moves, value_or_end, walking};
ghost use Rattle.struct_plan.specs.Sources.{Source, Walked, on_subject_by};
ghost use Rattle.struct_plan.specs.Entries as Spec;
ghost use Rattle.struct_plan.specs.Entries.{field_of, then_of};
ghost use Rattle.struct_plan.specs.Groups.{size_at, still_to_walk, Enclose};
ghost use Rattle.struct_plan.specs.Places.{groups, IsAmong, IsPlace};
ghost use Rattle.struct_plan.specs.Stacks.{kept, IsWithin};

use crate::course::WalkCourse;
use crate::entry::{Act, Subject, Then, ValueField, field_of};
use crate::numbers::{Numbers, PacketNumbers, WalkEnd};
use crate::place::RowPlace;
use crate::stack::Stack;
use crate::structure::{Structure, Structures};
use bit_field::{MOST_VALUES, Values};
use mib_model::{Ended, Value};

/// What a walk over the rows of a structure comes to: its end, or another structure.
#[derive(Clone, Copy)]
pub enum Way {
    Ended(WalkEnd),
    Chosen(i128),
}

// What a value is of, where the last reference was to this number.
fn field_at<S: Structures>(all: &S, subject: Subject, last: i128) -> Option<ValueField>
    ensures { result ≡ Spec.field_at (S.tables all.now) last subject }
{
    match subject {
        Subject::Own(field) => Some(field),
        Subject::Deduced => field_of(&all.deduced(last)?),
        Subject::Missing => None,
    }
}

// The value of a parameter at the cursor, or the end before it: there is no room, or the source has none.
#[inline(always)]
fn value_here<N: Numbers>(
    numbers: &N,
    cursor: i128,
    field: &ValueField,
    used: u32,
) -> Result<Value, WalkEnd>
    ensures value { result ≡ value_or_end (N.source numbers.now) cursor field.now used }
    ensures room { OnOk result (used ≢ most_values) }
{
    if used == MOST_VALUES {
        return Err(WalkEnd::Ended(Ended::Many));
    }
    numbers.value(cursor, field, used)
}

// The bit behind a value.
fn behind(value: &Value, field: &ValueField) -> i128
    ensures { result ≡ pos (value.now.at + field.now.moves) }
{
    i128::from(value.at) + i128::from(field.moves)
}

// Gives the value of a row, or tells the end before it.
fn give<S: Structures, N: Numbers>(
    all: &S,
    subject: Subject,
    numbers: &N,
    stack: &mut Stack,
    course: &mut WalkCourse,
    values: &mut Values,
) -> Result<i128, WalkEnd>
    requires slots { HasSlots values.old }
    requires within { IsWithin values.old stack.old }
    ensures given { (end : Walked) (row : VpdRow) (rest : List VpdRow) (t : Option Typed) →
        Spec.field_at (S.tables all.now) course.old.last subject ≡ option_map field_of t →
        Moves (S.tables all.now) (N.source numbers.now) end (on_subject_by (S.tables all.now) (N.source numbers.now) row rest (walking
        (row ∷ rest) course.old (taken values.old)) t) →
        Given (S.tables all.now) (N.source numbers.now) end row rest course.new (taken values.new) result }
    ensures groups { OnOk result (kept values.new stack.new ≡ take (most_values - values.new.used) (kept values.old stack.old)) }
    ensures within { OnOk result (IsWithin values.new stack.new) }
    ensures more { OnOk result (values.new.used ≡ values.old.used + 1) }
    ensures reach { OnOk result (IsInReach course.new.cursor 0) }
    ensures stays { KeepsSlots values.old values.new }
{
    let last = course.last;
    let Some(field) = field_at(all, subject, last) else {
        return Err(WalkEnd::Ended(Ended::NoParameter { pid: last }));
    };
    let value = value_here(numbers, course.cursor, &field, values.used)?;
    course.cursor = behind(&value, &field);
    stack.give(value, values);
    Ok(value.raw)
}

// Goes on behind a value, or tells the structure that it chooses.
#[inline(always)]
fn go_on(
    after: Then,
    raw: i128,
    size: u16,
    structure: &Structure,
    place: &mut RowPlace,
    course: &mut WalkCourse,
    values: &mut Values,
) -> Option<Way>
    requires slots { HasSlots values.old }
    requires place { IsPlace values.old place.old }
    requires size { size ≡ size_at structure.now.vpds place.old.at }
    requires some { after ≡ Then.Repeat → 0 < size }
    requires around { Enclose structure.now.vpds place.old.at (place.old.at + 1 + size) (groups values.old place.old) }
    requires room { length structure.now.vpds < 2 ^ 32 }
    ensures goes { (db : Database) (source : Source) (end : Walked) (row : VpdRow) →
        IsStructure db structure.now → after ≡ then_of row → size ≡ row.grpsize →
        Leads db source end (after_value db row (still_to_walk structure.now.vpds (place.old.at + 1) (groups values.old place.old)) raw
        (walking (still_to_walk structure.now.vpds (place.old.at + 1) (groups values.old place.old)) course.old (taken values.old))) →
        GoesOn db source end (still_to_walk structure.now.vpds place.new.at (groups values.new place.new)) course.new (taken values.new) result }
    ensures among { result ≡ None → IsAmong structure.now.vpds values.new place.new }
    ensures cursor { course.new.cursor ≡ course.old.cursor }
    ensures used { values.new.used ≡ values.old.used }
    ensures stays { KeepsSlots values.old values.new }
{
    match after {
        Then::Choose => Some(Way::Chosen(raw)),
        Then::Repeat => {
            place.repeat(size, raw, structure, values);
            None
        }
        Then::Refer => {
            course.last = raw;
            place.pass(structure, values);
            None
        }
        Then::Next => {
            place.pass(structure, values);
            None
        }
    }
}

// Walks one row.
fn walk_row<S: Structures, N: Numbers>(
    all: &S,
    structure: &Structure,
    numbers: &N,
    place: &mut RowPlace,
    course: &mut WalkCourse,
    values: &mut Values,
) -> Option<Way>
    requires slots { HasSlots values.old }
    requires structure { IsStructure (S.tables all.now) structure.now }
    requires among { IsAmong structure.now.vpds values.old place.old }
    requires inside { place.old.at < length structure.now.vpds }
    requires reach { IsInReach course.old.cursor place.old.at }
    ensures goes { (end : Walked) →
        Gives (S.tables all.now) (N.source numbers.now) end
        (walking (still_to_walk structure.now.vpds place.old.at (groups values.old place.old)) course.old (taken values.old)) →
        GoesOn (S.tables all.now) (N.source numbers.now) end (still_to_walk structure.now.vpds place.new.at (groups values.new place.new))
        course.new (taken values.new) result }
    ensures among { result ≡ None → IsAmong structure.now.vpds values.new place.new }
    ensures reach { result ≡ None → IsInReach course.new.cursor place.new.at }
    ensures further { result ≡ None → IsFurther values.old.used place.old.at values.new.used place.new.at }
    ensures chosen { (tpsd : ℤ) → result ≡ Some (Way.Chosen tpsd) → HasChosen values.old.used values.new.used course.new }
    ensures stays { KeepsSlots values.old values.new }
{
    let entry = structure.entry(place.at);
    let size = entry.size;
    course.cursor += i128::from(entry.offset);
    match entry.act {
        Act::Repeat(times) => {
            place.repeat_fixed(size, times, structure, values);
            None
        }
        Act::Give(subject, after) => {
            match give(all, subject, numbers, &mut place.stack, course, values) {
                Err(why) => Some(Way::Ended(why)),
                Ok(raw) => go_on(after, raw, size, structure, place, course, values),
            }
        }
    }
}

// Walks the rows of a structure, until an end or the choice of another.
fn walk_structure<S: Structures, N: Numbers>(
    all: &S,
    structure: &Structure,
    numbers: &N,
    course: &mut WalkCourse,
    values: &mut Values,
) -> Way
    requires slots { HasSlots values.old }
    requires structure { IsStructure (S.tables all.now) structure.now }
    requires reach { IsInReach course.old.cursor 0 }
    ensures comes { (end : Walked) → Gives (S.tables all.now) (N.source numbers.now) end (walking structure.now.vpds course.old (taken values.old)) →
        Comes (S.tables all.now) (N.source numbers.now) end course.new (taken values.new) result }
    ensures chosen { (tpsd : ℤ) → result ≡ Way.Chosen tpsd → HasChosen values.old.used values.new.used course.new }
    ensures stays { KeepsSlots values.old values.new }
{
    let mut place = RowPlace::new();
    while place.at < structure.len() {
        if let Some(way) = walk_row(all, structure, numbers, &mut place, course, values) {
            return way;
        }
    }
    Way::Ended(WalkEnd::Ended(Ended::Whole))
}

/// The values that a source has for the rows of a structure that there is, and why they end. The walk starts behind the
/// primary header and some octets. It takes no memory.
pub fn walk_by<S: Structures, N: Numbers>(
    all: &S,
    tpsd: u32,
    start: u64,
    numbers: &N,
    values: &mut Values,
) -> WalkEnd
    requires there { structure (S.tables all.now) (pos tpsd) ≢ [] }
    requires slots { length values.old.slots.now ≡ most_values }
    requires used { values.old.used ≡ 0 }
    ensures values { (dfhsize : ℕ) (end : Walked) → start ≡ 8 * (6 + dfhsize) →
        Gives (S.tables all.now) (N.source numbers.now) end (walk_start (S.tables all.now) (pos tpsd) dfhsize) → (taken values.new, result) ≡ end }
    ensures sound { IsSound (S.tables all.now) }
    ensures stays { KeepsSlots values.old values.new }
{
    let mut course = WalkCourse {
        cursor: i128::from(start),
        last: 0,
    };
    let mut next = i128::from(tpsd);
    while let Some(structure) = all.structure(next) {
        match walk_structure(all, structure, numbers, &mut course, values) {
            Way::Ended(why) => return why,
            Way::Chosen(chosen) => next = chosen,
        }
    }
    WalkEnd::Ended(Ended::NoStructure { tpsd: next })
}

/// The values of a packet of variable structure, by the rows of a structure that there is, and how they end. The walk
/// starts so many octets behind the 6 of the primary header. It takes no memory.
pub fn walk<S: Structures>(
    all: &S,
    tpsd: u32,
    dfhsize: u8,
    packet: &[u8],
    values: &mut Values,
) -> Ended
    requires there { structure (S.tables all.now) (pos tpsd) ≢ [] }
    requires packet { length packet.now < 2 ^ 61 }
    requires slots { length values.old.slots.now ≡ most_values }
    requires used { values.old.used ≡ 0 }
    ensures values { (taken values.new, result) ≡ structure_values (S.tables all.now) (pos tpsd) dfhsize packet.now }
    ensures stays { KeepsSlots values.old values.new }
{
    let start = 8 * (6 + u64::from(dfhsize));
    match walk_by(all, tpsd, start, &PacketNumbers::new(packet), values) {
        WalkEnd::Ended(ended) => ended,
        WalkEnd::Missing | WalkEnd::Unfit => Ended::Whole,
    }
}
