// Rows of structures, compiled.
ghost use Rattle.std.specs.Prelude.{◌≡◌, IfOk, Some, map};
ghost use Rattle.std.specs.Option.{option_copied};
ghost use Rattle.mib_model.specs.Layouts.{item_named};
ghost use Rattle.struct_plan.specs.Entries as Spec;
ghost use Rattle.struct_plan.specs.Entries.{act_of, entry_of, item_field, subject_by, then_of};

use bit_field::shape_of;
use first_rows::FirstRows;
use mib_model::{Name, Shape, TypeItem, VpdRow};
use row_keys::ByName;
use std::alloc::{AllocError, Global};

/// What a value is of: a name, what its bits are, and how many bits the walk moves on behind its first.
#[derive(Clone, Copy)]
pub struct ValueField {
    pub name: Name,
    pub shape: Shape,
    pub moves: u32,
}

/// What a row gives a value of.
#[derive(Clone, Copy)]
pub enum Subject {
    /// Its own parameter.
    Own(ValueField),
    /// The parameter that the last reference names.
    Deduced,
    /// No parameter whose type is known.
    Missing,
}

/// What comes behind a row's value.
#[derive(Clone, Copy)]
pub enum Then {
    /// The structure that the raw number names.
    Choose,
    /// The row's group, as often as the raw number says.
    Repeat,
    /// The next row; the raw number is the last reference.
    Refer,
    /// The next row.
    Next,
}

/// What a row does.
#[derive(Clone, Copy)]
pub enum Act {
    /// Its group is walked so often, and there is no value.
    Repeat(u16),
    Give(Subject, Then),
}

/// A row: the bits that the walk moves before it, how many rows its group has, and what it does.
#[derive(Clone, Copy)]
pub struct StructureRow {
    pub offset: i32,
    pub size: u16,
    pub act: Act,
}

// The bits that the walk moves on behind a value's first: the given width, else that of its type.
fn moves_by(given: u32, shape: Shape) -> u32
    ensures { result ≡ Spec.moves_by given shape.width }
{
    if given == 0 {
        u32::from(shape.width())
    } else {
        given
    }
}

/// What values of a parameter are, by its type item, where its type is known.
pub fn field_of(item: &TypeItem) -> Option<ValueField>
    ensures { result ≡ item_field item.now }
{
    let shape = shape_of(item.ptc, item.pfc, item.endian)?;
    Some(ValueField {
        name: item.name,
        shape,
        moves: moves_by(item.width, shape),
    })
}

// What a row gives a value of, by the type item of its name.
fn subject_of(item: Option<&TypeItem>) -> Subject
    ensures { result ≡ subject_by (option_copied item.entry) }
{
    let Some(item) = item else {
        return Subject::Missing;
    };
    if item.ptc == 11 {
        return Subject::Deduced;
    }
    match field_of(item) {
        Some(field) => Subject::Own(field),
        None => Subject::Missing,
    }
}

// What comes behind a row's value.
fn then_by(row: &VpdRow) -> Then
    ensures { result ≡ then_of row.now }
{
    if row.choice == b'Y' {
        Then::Choose
    } else if row.grpsize != 0 {
        Then::Repeat
    } else if row.pidref == b'Y' {
        Then::Refer
    } else {
        Then::Next
    }
}

// What a row does.
fn act_by(row: &VpdRow, types: &FirstRows<ByName<TypeItem>>) -> Act
    ensures { result ≡ act_of types.now row.now }
{
    if row.fixrep != 0 {
        return Act::Repeat(row.fixrep);
    }
    Act::Give(subject_of(types.find(&row.name)), then_by(row))
}

// A row, compiled.
fn entry_by(row: &VpdRow, types: &FirstRows<ByName<TypeItem>>) -> StructureRow
    ensures { result ≡ entry_of types.now row.now }
{
    StructureRow {
        offset: row.offset,
        size: row.grpsize,
        act: act_by(row, types),
    }
}

/// Rows, compiled by the type items of their names. An error is want of memory.
pub fn entries(
    alloc: Global,
    rows: &[VpdRow],
    types: &FirstRows<ByName<TypeItem>>,
) -> Result<Vec<StructureRow>, AllocError>
    ensures { IfOk result (λ entries. entries.items ≡ map (entry_of types.now) rows.now) }
{
    rows.iter().map(|row| entry_by(row, types)).collect(alloc)
}
