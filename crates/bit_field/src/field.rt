// Numbers of fields.
ghost use Rattle.std.specs.Prelude.{◌≡◌, ◌<◌, ◌≤◌, ◌+◌, ◌*◌, ◌/◌, ◌%◌, ◌^◌, ◌-◌, ◌-ℤ◌, pos, nat_le, length, Some, None, IfSome, if◌then◌else◌};
ghost use Rattle.mib_model.specs.Bits as Spec;
ghost use Rattle.mib_model.specs.Bits.{bits, signed_number};

use byteorder::{BigEndian, ByteOrder};

// Whether bits that end so far behind a place that no word tells it are in the octets.
#[cold]
#[inline(never)]
fn is_far_inside(octets: &[u8], at: u64, width: u16) -> bool
    ensures { result ≡ Spec.is_inside octets.now at width }
{
    u128::from(at) + u128::from(width) <= 8 * octets.len() as u128
}

/// Whether so many bits from a place on are in the octets.
#[inline(always)]
pub fn is_inside(octets: &[u8], at: u64, width: u16) -> bool
    ensures { result ≡ Spec.is_inside octets.now at width }
{
    match at.checked_add(u64::from(width) + 7) {
        Some(end) => end / 8 <= octets.len() as u64,
        None => is_far_inside(octets, at, width),
    }
}

// The field of so many bits before the last bits of a number.
#[inline(always)]
fn field_of(whole: u128, rest: u8, width: u8) -> u64
    requires rest { rest < 128 }
    requires width { width ≤ 64 }
    ensures value { result ≡ whole / 2 ^ rest % 2 ^ width }
    ensures within { result < 2 ^ width }
{
    ((whole >> rest) % (1 << width)) as u64
}

/// The number of 1 to 64 bits behind some bits, in the first eight octets, which are read as one.
#[inline(always)]
pub(crate) fn number_in_front(octets: &[u8], skip: u8, width: u8) -> u64
    requires some { 0 < width }
    requires end { skip + width ≤ 64 }
    requires eight { 8 ≤ length octets.now }
    ensures value { result ≡ bits octets.now skip width }
    ensures within { result < 2 ^ width }
{
    BigEndian::read_u64(octets) << skip >> (64 - width)
}

// The number of 1 to 64 bits behind the first bits of an octet, 7 at most, in as few octets as hold it.
#[cold]
#[inline(never)]
fn number_in_few(octets: &[u8], skip: u8, width: u8) -> u64
    requires skip { skip < 8 }
    requires some { 0 < width }
    requires width { width ≤ 64 }
    requires inside { skip + width ≤ 8 * length octets.now }
    ensures value { result ≡ bits octets.now skip width }
    ensures within { result < 2 ^ width }
{
    let bits = skip + width;
    let count = bits.div_ceil(8);
    let whole = BigEndian::read_uint128(octets, usize::from(count));
    field_of(whole, 8 * count - bits, width)
}

/// The number of 1 to 64 bits at a place, in the eight octets from its first on, or in the last eight where fewer are left.
#[inline(always)]
pub fn number_from(octets: &[u8], at: u64, width: u8) -> u64
    requires some { 0 < width }
    requires width { width ≤ 64 }
    requires inside { at + width ≤ 8 * length octets.now }
    ensures value { result ≡ bits octets.now at width }
    ensures within { result < 2 ^ width }
{
    let octet = (at / 8) as usize;
    if octets.len() >= 8 {
        let first = octet.min(octets.len() - 8);
        let skip = at - 8 * first as u64;
        if skip + u64::from(width) <= 64 {
            return number_in_front(&octets[first..], skip as u8, width);
        }
    }
    number_in_few(&octets[octet..], (at % 8) as u8, width)
}

/// The number of at most 64 bits at a place, which are in the octets, the most significant first.
#[inline(always)]
pub fn number_at(octets: &[u8], at: u64, width: u8) -> u64
    requires width { width ≤ 64 }
    requires inside { at + width ≤ 8 * length octets.now }
    ensures value { result ≡ bits octets.now at width }
    ensures within { result < 2 ^ width }
{
    if width == 0 {
        return 0;
    }
    number_from(octets, at, width)
}

/// The number in so many bits from a place on, 64 at most, the most significant first (CCSDS 133.0-B and
/// ECSS-E-70-41A, the numbering of bits). There is none exactly where the bits pass the end.
pub fn unsigned(octets: &[u8], at: u64, width: u8) -> Option<u64>
    requires { width ≤ 64 }
    ensures { result ≡ (if Spec.is_inside octets.now at width then Some (bits octets.now at width) else None) }
{
    if is_inside(octets, at, u16::from(width)) {
        Some(number_at(octets, at, width))
    } else {
        None
    }
}

// The first bit of a number of 1 to 64 bits, at its weight.
#[inline(always)]
fn first_bit(number: u64, width: u8) -> u64
    requires some { 0 < width }
    requires width { width ≤ 64 }
    requires number { number < 2 ^ width }
    ensures { result ≡ (if nat_le (2 ^ (width - 1)) number then 2 ^ (width - 1) else 0) }
{
    number >> (width - 1) << (width - 1)
}

// The two's complement of a number of 1 to 64 bits.
#[inline(always)]
#[tactic(auto, using(crate::proofs::BitFacts::halves))]
pub fn complement(number: u64, width: u8) -> i64
    requires some { 0 < width }
    requires width { width ≤ 64 }
    requires number { number < 2 ^ width }
    ensures { result ≡ signed_number width number }
{
    (i128::from(number) - 2 * i128::from(first_bit(number, width))) as i64
}

/// The two's complement of so many bits from a place on, 1 to 64, the most significant first. There is none exactly
/// where the bits pass the end.
pub fn signed(octets: &[u8], at: u64, width: u8) -> Option<i64>
    requires some { 0 < width }
    requires width { width ≤ 64 }
    ensures { result ≡ (if Spec.is_inside octets.now at width then Some (signed_number width (bits octets.now at width)) else None) }
{
    if is_inside(octets, at, u16::from(width)) {
        Some(complement(number_at(octets, at, width), width))
    } else {
        None
    }
}
