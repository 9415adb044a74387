// The values of packets of fixed layout.
ghost use Rattle.std.specs.Prelude.{◌≡◌, ◌≤◌, ◌<◌, ◌^◌, ◌+◌, ◌*◌, ◌==◌, [], ◌∷◌, Some, length, IfOk, OnOk};
ghost use Rattle.std.specs.List.{All};
ghost use Rattle.mib_model.specs.Fixed.{most_values, occurrences, values_at};
ghost use Rattle.row_interpreter.specs.Readings.{IsOf, Reads, places_of};

use crate::parameters::ParameterRows;
use bit_field::take;
use mib_model::{Ended, MOST_VALUES, Name, PlfRow, Shape, Value};
use std::alloc::AllocError;

// Whether these values are as many as a packet may have.
fn are_so_many(values: &[Value]) -> bool
    ensures { result ≡ (length values.now == most_values) }
{
    values.len() == MOST_VALUES as usize
}

// Whether as many values stand as a packet may have.
pub(crate) fn are_most(values: &Vec<Value>) -> bool
    ensures { result ≡ (length values.now.items == most_values) }
{
    are_so_many(values.as_slice())
}

// Reads the value at a place behind others; where there is no room for it or its bits aren't in the packet, tells how they
// end.
fn read_value(
    packet: &[u8],
    at: u64,
    name: Name,
    shape: Shape,
    values: &mut Vec<Value>,
) -> Result<Option<Ended>, AllocError>
    requires few { length values.old.items ≤ most_values }
    requires all { All (IsOf packet.now) values.old.items }
    ensures reads { IfOk result (λ ended. Reads packet.now (record { name = name; at = at; shape = shape } ∷ []) ended values.old.items values.new.items) }
    ensures few { OnOk result (length values.new.items ≤ most_values) }
    ensures all { OnOk result (All (IsOf packet.now) values.new.items) }
{
    if are_most(values) {
        return Ok(Some(Ended::Many));
    }
    let Some(value) = take(packet, at, name, shape) else {
        return Ok(Some(Ended::Short { name }));
    };
    values.push(value)?;
    Ok(None)
}

// The place of a bit of an octet.
fn first_bit(octet: u32, bit: u8) -> u64
    ensures value { result ≡ 8 * octet + bit }
    ensures within { result < 2 ^ 63 }
{
    8 * u64::from(octet) + u64::from(bit)
}

// The first bit of the k-th occurrence of a row, k from 0 on.
fn occurrence_at(row: &PlfRow, k: u16) -> u64
    ensures { result ≡ 8 * row.now.offby + row.now.offbi + k * row.now.lgocc }
{
    first_bit(row.offby, row.offbi) + u64::from(k) * u64::from(row.lgocc)
}

// Reads the values of a row's occurrences behind others, and tells how they end where they stop before the last.
fn read_row(
    packet: &[u8],
    row: &PlfRow,
    shape: Shape,
    values: &mut Vec<Value>,
) -> Result<Option<Ended>, AllocError>
    requires few { length values.old.items ≤ most_values }
    requires all { All (IsOf packet.now) values.old.items }
    ensures reads { IfOk result (λ ended. Reads packet.now (occurrences row.now (Some shape)) ended values.old.items values.new.items) }
    ensures few { OnOk result (length values.new.items ≤ most_values) }
    ensures all { OnOk result (All (IsOf packet.now) values.new.items) }
{
    for k in 0..row.nbocc {
        let at = occurrence_at(row, k);
        if let Some(ended) = read_value(packet, at, row.name, shape, values)? {
            return Ok(Some(ended));
        }
    }
    Ok(None)
}

// Reads the values of a row behind others, if its parameter is measured.
fn read_measured(
    parameters: &ParameterRows,
    packet: &[u8],
    row: &PlfRow,
    values: &mut Vec<Value>,
) -> Result<Option<Ended>, AllocError>
    requires few { length values.old.items ≤ most_values }
    requires all { All (IsOf packet.now) values.old.items }
    ensures reads { IfOk result (λ ended. Reads packet.now (places_of parameters.now (row.now ∷ [])) ended values.old.items values.new.items) }
    ensures few { OnOk result (length values.new.items ≤ most_values) }
    ensures all { OnOk result (All (IsOf packet.now) values.new.items) }
{
    match parameters.measured(&row.name) {
        Some(shape) => read_row(packet, row, shape, values),
        None => Ok(None),
    }
}

/// Reads the values that rows of plf place in a packet, in their order, and tells how they end: before the 8,193rd, or before
/// the first whose bits aren't in the packet. An error is want of memory.
pub fn read_places(
    parameters: &ParameterRows,
    packet: &[u8],
    rows: &[PlfRow],
    values: &mut Vec<Value>,
) -> Result<Ended, AllocError>
    requires { values.old.items ≡ [] }
    ensures values { IfOk result (λ ended. (values.new.items, ended) ≡ values_at packet.now (places_of parameters.now rows.now)) }
    ensures few { OnOk result (length values.new.items ≤ most_values) }
    ensures all { OnOk result (All (IsOf packet.now) values.new.items) }
{
    for row in rows {
        if let Some(ended) = read_measured(parameters, packet, row, values)? {
            return Ok(ended);
        }
    }
    Ok(Ended::Whole)
}
