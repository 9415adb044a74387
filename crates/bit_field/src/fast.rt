// A value without a curve takes 156 instead of 238 instructions: where eight octets have it is computed once for all packets, and one look reads it.
ghost use Rattle.std.specs.Prelude.{pos, ◌≡◌, ◌≢◌, ◌<◌, ◌≤◌, ◌+◌, ◌*◌, ◌^◌, length, IfSome, IfNone, OnSome, true, if◌then◌else◌};
ghost use Rattle.mib_model.specs.declared.shape.Sort.TheVariants as sorts;
ghost use Rattle.mib_model.specs.Bits as Spec;
ghost use Rattle.mib_model.specs.Bits.{bits, signed_number};
ghost use Rattle.mib_model.specs.Fixed.{value_at};
ghost use Rattle.bit_field.specs.Numbers.{has_number};

use crate::field::{complement, number_in_front};
use crate::value::number_width;
use mib_model::{Name, Order, Shape, Sort, Value};

// The number of 1 to 64 bits in the eight octets from one on, behind so many bits of them.
#[inline(always)]
fn number_in_eight(octets: &[u8], first: usize, skip: u8, width: u8) -> u64
    requires some { 0 < width }
    requires end { skip + width ≤ 64 }
    requires eight { first + 8 ≤ length octets.now }
    ensures value { result ≡ bits octets.now (8 * first + skip) width }
    ensures within { result < 2 ^ width }
{
    number_in_front(&octets[first..], skip, width)
}

// The two's complement of so many bits of the eight octets from one on, behind so many bits of them, and 0 where none is
// asked for.
#[inline(never)]
fn signed_in_eight(octets: &[u8], first: usize, skip: u8, width: u8, is_signed: bool) -> i64
    requires some { is_signed ≡ true → 0 < width }
    requires end { skip + width ≤ 64 }
    requires eight { first + 8 ≤ length octets.now }
    ensures { result ≡ (if is_signed then signed_number width (bits octets.now (8 * first + skip) width) else pos 0) }
{
    if is_signed {
        complement(number_in_eight(octets, first, skip, width), width)
    } else {
        0
    }
}

// The width of a shape of at most 64 bits, which is 0 only where values have no number.
fn width_in_eight(shape: Shape) -> u8
    requires { shape.width ≤ 64 }
    ensures value { result ≡ shape.width }
    ensures some { has_number shape.sort ≡ true → 0 < result }
{
    shape.width() as u8
}

// The number of a value of 64 bits at most that isn't unsigned, as `raw_number_in_eight` asks for it.
#[inline(always)]
#[tactic(auto, unfolding(mib_model::specs::Bits::raw_number))]
fn other_in_eight(octets: &[u8], first: usize, skip: u8, shape: Shape) -> i128
    requires sort { shape.sort ≢ sorts.Unsigned }
    requires order { has_number shape.sort ≡ true → shape.order ≡ Order.Big }
    requires end { skip + shape.width ≤ 64 }
    requires eight { first + 8 ≤ length octets.now }
    ensures { result ≡ Spec.raw_number shape octets.now (8 * first + skip) }
{
    let width = width_in_eight(shape);
    let is_signed = matches!(shape.sort(), Sort::Signed);
    i128::from(signed_in_eight(octets, first, skip, width, is_signed))
}

// The number of a value in the eight octets from one on, behind so many bits of them, and 0 for a sort without one.
#[inline(always)]
#[tactic(auto, unfolding(mib_model::specs::Bits::raw_number))]
fn raw_number_in_eight(octets: &[u8], first: usize, skip: u8, shape: Shape) -> i128
    requires order { has_number shape.sort ≡ true → shape.order ≡ Order.Big }
    requires end { skip + shape.width ≤ 64 }
    requires eight { first + 8 ≤ length octets.now }
    ensures { result ≡ Spec.raw_number shape octets.now (8 * first + skip) }
{
    match shape.sort() {
        Sort::Unsigned => i128::from(number_in_eight(octets, first, skip, number_width(shape))),
        _ => other_in_eight(octets, first, skip, shape),
    }
}

/// The value of a parameter in the eight octets from one on, behind so many bits of them: it has no number, or one of the
/// order `Big`. There is none where these octets aren't all there, and `take` tells.
#[inline(always)]
pub fn take_in_eight(octets: &[u8], octet: u32, skip: u8, name: Name, shape: Shape) -> Option<Value>
    requires order { has_number shape.sort ≡ true → shape.order ≡ Order.Big }
    requires end { skip + shape.width ≤ 64 }
    ensures value { IfSome result (λ value. value ≡ value_at octets.now (record { name = name; at = 8 * octet + skip; shape = shape })) }
    ensures inside { IfSome result (λ value. Spec.is_inside octets.now (8 * octet + skip) shape.width ≡ true) }
    ensures eight { OnSome result (octet + 8 ≤ length octets.now) }
    ensures none { IfNone result (length octets.now < octet + 8) }
{
    let first = octet as usize;
    if first + 8 > octets.len() {
        return None;
    }
    Some(Value {
        name,
        at: 8 * u64::from(octet) + u64::from(skip),
        raw: raw_number_in_eight(octets, first, skip, shape),
        shape,
    })
}
