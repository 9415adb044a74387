// What is written into a packet.
ghost use Rattle.std.specs.Prelude.{◌≡◌, ◌≤◌, ◌<◌, ◌^◌, ◌≤ℤ◌, ◌<ℤ◌, ◌++◌, neg_ℤ, pos, true, OnOk, map};
ghost use Rattle.std.specs.Option.{option_copied};
ghost use Rattle.std.specs.List.{AllByRecursion};
ghost use Rattle.build_rules.specs.Building as Spec;
ghost use Rattle.build_rules.specs.Laying.{fits};
ghost use Rattle.tm_build.specs.Builds.{PacksAs, joined_header, writes_with};

use bit_writer::Write;
use mib_model::{DiscriminantWidth, Order, PicRow, PidRow, Shape, Value};
use std::alloc::AllocError;

/// A number in so many bits from a place on, the most significant octet first.
pub fn big(at: u64, width: u16, number: u64) -> Write
    ensures { result ≡ Spec.big at width number }
{
    Write {
        order: Order::Big,
        at,
        width,
        number,
    }
}

// A raw number below zero in so many bits: its two's complement.
fn complement(width: u16, raw: i128) -> u64
    requires few { width ≤ 64 }
    requires least { neg_ℤ (pos (2 ^ width)) ≤ℤ raw }
    requires below { raw <ℤ pos 0 }
    ensures { result ≡ Spec.pattern width raw }
{
    ((1 << width) + raw) as u64
}

// A raw number of a shape in its bits.
fn pattern(shape: Shape, raw: i128) -> u64
    requires { fits shape raw ≡ true }
    ensures { result ≡ Spec.pattern shape.width raw }
{
    let width = shape.width();
    if raw < 0 {
        complement(width, raw)
    } else {
        raw as u64
    }
}

// A value at its place.
fn value_write(value: &Value) -> Write
    requires { fits value.now.shape value.now.raw ≡ true }
    ensures { result ≡ Spec.value_write value.now }
{
    let width = value.shape.width();
    Write {
        order: value.shape.order(),
        at: value.at,
        width,
        number: pattern(value.shape, value.raw),
    }
}

// Adds a discriminant at an octet offset: nothing where there is no offset or no width.
fn add_discriminant(
    writes: &mut Vec<Write>,
    offset: i32,
    width: DiscriminantWidth,
    value: u64,
) -> Result<(), AllocError>
    ensures { OnOk result (writes.new.items ≡ writes.old.items ++ Spec.discriminant_writes offset width value) }
{
    if offset >= 0 && width.bits() != 0 {
        writes.push(big(8 * offset as u64, u16::from(width.bits()), value))?;
    }
    Ok(())
}

// Adds the two discriminants of a row.
fn add_discriminants(
    writes: &mut Vec<Write>,
    row: &PidRow,
    criterion: Option<&PicRow>,
) -> Result<(), AllocError>
    ensures { OnOk result (writes.new.items ≡ writes.old.items ++ Spec.both_discriminants row.now (option_copied criterion.entry)) }
{
    if let Some(pic) = criterion {
        add_discriminant(writes, pic.pi1_off, pic.pi1_wid, row.pi1_val)?;
        add_discriminant(writes, pic.pi2_off, pic.pi2_wid, row.pi2_val)?;
    }
    Ok(())
}

// Adds values at their places.
fn add_values(writes: &mut Vec<Write>, values: &[Value]) -> Result<(), AllocError>
    requires { AllByRecursion (λ v. fits v.shape v.raw ≡ true) values.now }
    ensures { OnOk result (writes.new.items ≡ writes.old.items ++ map Spec.value_write values.now) }
{
    for value in values {
        writes.push(value_write(value))?;
    }
    Ok(())
}

// The headers but for the length, as two numbers: version 0, telemetry, a secondary header, the APID, unsegmented, the count; then
// 10 in hexadecimal, the service type and the subtype (CCSDS 133.0-B, packet primary header; ECSS-E-70-41A, data field header).
fn header_writes(row: &PidRow, count: u16) -> [Write; 2]
    ensures { result ≡ joined_header row.now count }
{
    let first = ((0x0800 + u64::from(row.apid)) * 4 + 3) * 0x4000 + u64::from(count);
    let types = (0x1000 + u64::from(row.service)) * 0x100 + u64::from(row.subtype);
    [big(0, 32, first), big(48, 24, types)]
}

// Puts all that is written, the headers as two numbers, in the place of the writes that stand.
fn put_joined(
    writes: &mut Vec<Write>,
    row: &PidRow,
    criterion: Option<&PicRow>,
    count: u16,
    values: &[Value],
) -> Result<(), AllocError>
    requires { AllByRecursion (λ v. fits v.shape v.raw ≡ true) values.now }
    ensures { OnOk result (writes.new.items ≡ joined_header row.now count
        ++ Spec.both_discriminants row.now (option_copied criterion.entry) ++ map Spec.value_write values.now) }
{
    writes.clear();
    writes.extend_from_slice(&header_writes(row, count))?;
    add_discriminants(writes, row, criterion)?;
    add_values(writes, values)?;
    Ok(())
}

/// Puts all that is written into a packet of a row with these values, but for its length, in the place of the writes that stand.
/// An error is want of memory.
pub fn put_writes(
    writes: &mut Vec<Write>,
    row: &PidRow,
    criterion: Option<&PicRow>,
    count: u16,
    values: &[Value],
) -> Result<(), AllocError>
    requires count { count < 2 ^ 14 }
    requires apid { row.now.apid < 2 ^ 11 }
    requires types { (row.now.service < 2 ^ 8) × (row.now.subtype < 2 ^ 8) }
    requires fit { AllByRecursion (λ v. fits v.shape v.raw ≡ true) values.now }
    ensures { OnOk result (PacksAs row.now writes.new.items (writes_with row.now (option_copied criterion.entry) count values.now)) }
{
    put_joined(writes, row, criterion, count, values)
}
