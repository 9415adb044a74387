// The value at a place of a packet.
ghost use Rattle.std.specs.Prelude.{◌≡◌, ◌<◌, ◌≤◌, ◌+◌, ◌*◌, ◌/◌, ◌^◌, length, Some, None, true, if◌then◌else◌};
ghost use Rattle.mib_model.specs.Bits as Spec;
ghost use Rattle.mib_model.specs.Bits.{little_bits};
ghost use Rattle.mib_model.specs.Fixed.{value_at};
ghost use Rattle.bit_field.specs.Numbers.{has_number};

use crate::field::{complement, is_inside, number_from};
use mib_model::{Name, Order, Shape, Sort, Value};

// The number in so many octets behind the first bits of an octet, the least significant first.
#[inline(never)]
fn little_behind(octets: &[u8], skip: u8, count: u8) -> u64
    requires skip { skip < 8 }
    requires count { count ≤ 8 }
    requires inside { skip + 8 * count ≤ 8 * length octets.now }
    ensures value { result ≡ little_bits octets.now skip count }
    ensures within { result < 256 ^ count }
{
    let mut value = 0;
    for i in 0..count {
        value += number_from(&octets[usize::from(i)..], u64::from(skip), 8) << (8 * i);
    }
    value
}

// The number in so many octets from a place on, the least significant first.
fn little_at(octets: &[u8], at: u64, count: u8) -> u64
    requires count { count ≤ 8 }
    requires inside { at + 8 * count ≤ 8 * length octets.now }
    ensures value { result ≡ little_bits octets.now at count }
    ensures within { result < 256 ^ count }
{
    little_behind(&octets[(at / 8) as usize..], (at % 8) as u8, count)
}

// The unsigned number of a field of 1 to 64 bits, and whole octets where the order is `Little`.
#[inline(always)]
fn field_number(octets: &[u8], at: u64, width: u8, order: Order) -> u64
    requires some { 0 < width }
    requires width { width ≤ 64 }
    requires octets { order ≡ Order.Little → width ≡ 8 * (width / 8) }
    requires inside { at + width ≤ 8 * length octets.now }
    ensures value { result ≡ Spec.field_number order octets.now at width }
    ensures within { result < 2 ^ width }
{
    match order {
        Order::Big => number_from(octets, at, width),
        Order::Little => little_at(octets, at, width / 8),
    }
}

// The unsigned number of a field, 64 bits at most, and whole octets where the order is `Little`.
fn short_number(octets: &[u8], at: u64, width: u8, order: Order) -> u64
    requires width { width ≤ 64 }
    requires octets { order ≡ Order.Little → width ≡ 8 * (width / 8) }
    requires inside { at + width ≤ 8 * length octets.now }
    ensures { result ≡ Spec.field_number order octets.now at width }
{
    if width == 0 {
        return 0;
    }
    field_number(octets, at, width, order)
}

// The width of a shape of at most 64 bits.
fn short_width(shape: Shape) -> u8
    requires { shape.width ≤ 64 }
    ensures value { result ≡ shape.width }
    ensures octets { shape.order ≡ Order.Little → result ≡ 8 * (result / 8) }
{
    shape.width() as u8
}

/// The width of a shape whose values have a number.
pub(crate) fn number_width(shape: Shape) -> u8
    requires { has_number shape.sort ≡ true }
    ensures value { result ≡ shape.width }
    ensures some { 0 < result }
    ensures most { result ≤ 64 }
    ensures octets { shape.order ≡ Order.Little → result ≡ 8 * (result / 8) }
{
    shape.width() as u8
}

// The number of a value, and 0 for a sort without one.
#[inline(always)]
#[tactic(auto, unfolding(mib_model::specs::Bits::raw_number))]
fn raw_number(octets: &[u8], at: u64, shape: Shape) -> i128
    requires { at + shape.width ≤ 8 * length octets.now }
    ensures { result ≡ Spec.raw_number shape octets.now at }
{
    match shape.sort() {
        Sort::Unsigned => {
            let width = number_width(shape);
            i128::from(field_number(octets, at, width, shape.order()))
        }
        Sort::Signed => {
            let width = number_width(shape);
            let number = field_number(octets, at, width, shape.order());
            i128::from(complement(number, width))
        }
        _ => 0,
    }
}

/// The unsigned number in the bits of a shape of at most 64 bits, by the order of its octets, whatever its sort: that of a
/// real number is what its bits are shown by. There is none exactly where the bits pass the end.
pub fn number(octets: &[u8], at: u64, shape: Shape) -> Option<u64>
    requires { shape.width ≤ 64 }
    ensures { result ≡ (if Spec.is_inside octets.now at shape.width then Some (Spec.field_number shape.order octets.now at shape.width) else None) }
{
    if is_inside(octets, at, shape.width()) {
        let width = short_width(shape);
        Some(short_number(octets, at, width, shape.order()))
    } else {
        None
    }
}

/// The value of a parameter at a place of a packet: its number by the sort, the width and the order of its shape, and 0
/// for a sort without a number. There is none exactly where its bits pass the end.
#[inline(always)]
pub fn take(octets: &[u8], at: u64, name: Name, shape: Shape) -> Option<Value>
    ensures { result ≡ (if Spec.is_inside octets.now at shape.width
        then Some (value_at octets.now (record { name = name; at = at; shape = shape })) else None) }
{
    if !is_inside(octets, at, shape.width()) {
        return None;
    }
    Some(Value {
        name,
        at,
        raw: raw_number(octets, at, shape),
        shape,
    })
}
