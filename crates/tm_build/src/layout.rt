// Values at the places of a fixed layout.
ghost use Rattle.std.specs.Prelude.{◌≡◌, ◌≤◌, ◌<◌, ◌+◌, ◌*◌, ◌^◌, [], ◌∷◌, length, Some};
ghost use Rattle.std.specs.List.{flat_map};
ghost use Rattle.std.specs.Option.{option_copied};
ghost use Rattle.mib_model.specs.Fixed.{most_values, occurrences};
ghost use Rattle.mib_model.specs.Parameters as Spec;
ghost use Rattle.mib_model.specs.Parameters.{parameter};
ghost use Rattle.bit_field.specs.Taken.{taken, HasSlots, KeepsSlots};
ghost use Rattle.build_rules.specs.Laying.{values_from};
ghost use Rattle.tm_build.specs.Lays.{Lays};

use bit_field::{MOST_VALUES, Values, shape_of};
use first_rows::FirstRows;
use mib_model::{Ended, Endian, Name, PcfRow, PlfRow, Shape};
use row_keys::ByName;
use struct_plan::{Numbers, ValueField, WalkEnd};

// Lays the value at a place, or tells why the values end before it.
fn lay_place<N: Numbers>(
    numbers: &N,
    name: Name,
    at: u64,
    shape: Shape,
    values: &mut Values,
) -> Option<WalkEnd>
    requires slots { HasSlots values.old }
    ensures lays { Lays (N.source numbers.now) (record { name = name; at = at; shape = shape } ∷ []) result values.old values.new }
    ensures stays { KeepsSlots values.old values.new }
{
    if values.used == MOST_VALUES {
        return Some(WalkEnd::Ended(Ended::Many));
    }
    let field = ValueField {
        name,
        shape,
        moves: 0,
    };
    match numbers.value(i128::from(at), &field, values.used) {
        Ok(value) => {
            values.push(value);
            None
        }
        Err(why) => Some(why),
    }
}

// The first bit of a place: an octet and a bit in it.
fn first_bit(octet: u32, bit: u8) -> u64
    ensures value { result ≡ 8 * octet + bit }
    ensures within { result < 2 ^ 63 }
{
    8 * u64::from(octet) + u64::from(bit)
}

// The first bit of the k-th of places at equal distances, k from 0 on.
fn bit_of(first: u64, step: u16, k: u16) -> u64
    requires { first < 2 ^ 63 }
    ensures { result ≡ first + k * step }
{
    first + u64::from(k) * u64::from(step)
}

// Lays the values of a row's occurrences, or tells why they end before the last.
fn lay_occurrences<N: Numbers>(
    numbers: &N,
    row: &PlfRow,
    shape: Shape,
    values: &mut Values,
) -> Option<WalkEnd>
    requires slots { HasSlots values.old }
    ensures lays { Lays (N.source numbers.now) (occurrences row.now (Some shape)) result values.old values.new }
    ensures stays { KeepsSlots values.old values.new }
{
    let first = first_bit(row.offby, row.offbi);
    for k in 0..row.nbocc {
        let at = bit_of(first, row.lgocc, k);
        if let Some(why) = lay_place(numbers, row.name, at, shape, values) {
            return Some(why);
        }
    }
    None
}

// The octet order that a letter asks for.
fn endian_of(letter: u8) -> Endian
    ensures { result ≡ Spec.endian_of letter }
{
    if letter == b'L' { Endian::L } else { Endian::B }
}

// What the bits of a measured parameter's values are.
fn measured_shape(row: Option<&PcfRow>) -> Option<Shape>
    ensures { result ≡ Spec.measured_encoding (option_copied row.entry) }
{
    let row = row?;
    if !row.is_measured() {
        return None;
    }
    shape_of(row.ptc, row.pfc, endian_of(row.endian))
}

// Lays the values of a row, if its parameter has any, or tells why they end before the last.
fn lay_row<N: Numbers>(
    numbers: &N,
    row: &PlfRow,
    shape: Option<Shape>,
    values: &mut Values,
) -> Option<WalkEnd>
    requires slots { HasSlots values.old }
    ensures lays { Lays (N.source numbers.now) (occurrences row.now shape) result values.old values.new }
    ensures stays { KeepsSlots values.old values.new }
{
    match shape {
        Some(shape) => lay_occurrences(numbers, row, shape, values),
        None => None,
    }
}

/// Lays the values that a source has at the places of rows, and tells why they end.
pub fn lay_rows<N: Numbers>(
    numbers: &N,
    rows: &[PlfRow],
    parameters: &FirstRows<ByName<PcfRow>>,
    values: &mut Values,
) -> WalkEnd
    requires slots { length values.old.slots.now ≡ most_values }
    requires used { values.old.used ≡ 0 }
    ensures values { (taken values.new, result) ≡ values_from (N.source numbers.now) 0
        (flat_map (λ row. occurrences row (Spec.measured_encoding (parameter parameters.now row.name))) rows.now) }
    ensures stays { KeepsSlots values.old values.new }
{
    for row in rows {
        let shape = measured_shape(parameters.find(&row.name));
        if let Some(why) = lay_row(numbers, row, shape, values) {
            return why;
        }
    }
    WalkEnd::Ended(Ended::Whole)
}
