// Bits that are set to 1 just where a write sets a bit to 1, or to 0.
ghost use Rattle.std.specs.Prelude.{◌≡◌, ◌<◌, ◌≤◌, ◌+◌, ◌*◌, ◌/◌, ◌%◌, ◌^◌, ◌-◌, ◌==◌, ◌&&◌, ℕ, length, max, nat_le, nat_lt, if◌then◌else◌};
ghost use Rattle.std.specs.List.{All};
ghost use Rattle.mib_model.specs.Bits.{bit};
ghost use Rattle.bit_writer.specs.Writes.{is_set, sets};

use crate::write::Write;
use byteorder::{BigEndian, ByteOrder};

// Bits of an octet are 1 afterwards where they are 1 in another, and no other is changed.
fn add_ones(octets: &mut [u8], octet: usize, ones: u8)
    requires { octet < length octets.old }
    ensures { (j : ℕ) → bit octets.new j ≡ (if j / 8 == octet then max (bit octets.old j) (ones / 2 ^ (7 - j % 8) % 2) else bit octets.old j) }
{
    octets[octet] |= ones;
}

// The first eight octets as one number.
#[inline(always)]
fn eight_of(octets: &[u8]) -> u64
    requires { 8 ≤ length octets.now }
    ensures { (j : ℕ) → j < 64 → result / 2 ^ (63 - j) % 2 ≡ bit octets.now j }
{
    BigEndian::read_u64(octets)
}

// Bits of the first eight octets are 1 afterwards where they are 1 in a number, and no other is changed.
#[inline(always)]
fn add_eight(octets: &mut [u8], ones: u64)
    requires { 8 ≤ length octets.old }
    ensures { (j : ℕ) → bit octets.new j ≡ (if nat_lt j 64 then max (bit octets.old j) (ones / 2 ^ (63 - j) % 2) else bit octets.old j) }
{
    let word = eight_of(octets) | ones;
    BigEndian::write_u64(octets, word);
}

// Bits of eight octets from one on are 1 afterwards where they are 1 in a number, and no other is changed.
#[inline(always)]
fn add_word(octets: &mut [u8], first: usize, ones: u64)
    requires { first + 8 ≤ length octets.old }
    ensures { (j : ℕ) → bit octets.new j ≡ (if nat_le (8 * first) j && nat_lt j (8 * first + 64)
        then max (bit octets.old j) (ones / 2 ^ (63 - (j - 8 * first)) % 2) else bit octets.old j) }
{
    add_eight(&mut octets[first..], ones);
}

// Marks a write octet by octet: bits of `ones` are 1 afterwards where it sets a bit to 1, and those of `zeros` where it sets one
// to 0; no other is changed.
#[inline(never)]
fn mark_each(write: &Write, ones: &mut [u8], zeros: &mut [u8])
    requires few { length ones.old < 2 ^ 32 }
    requires beside { length zeros.old ≡ length ones.old }
    requires inside { write.now.at + write.now.width ≤ 8 * length ones.old }
    ensures ones { (j : ℕ) → bit ones.new j ≡ (if sets 1 j write.now then 1 else bit ones.old j) }
    ensures zeros { (j : ℕ) → bit zeros.new j ≡ (if sets 0 j write.now then 1 else bit zeros.old j) }
{
    for octet in write.at / 8..write.octets_to() {
        let part = write.part(octet);
        add_ones(ones, octet as usize, part.ones);
        add_ones(zeros, octet as usize, part.zeros);
    }
}

// Marks a write in one piece where eight octets have its field, else octet by octet.
#[inline(always)]
fn mark(write: &Write, ones: &mut [u8], zeros: &mut [u8])
    requires few { length ones.old < 2 ^ 32 }
    requires beside { length zeros.old ≡ length ones.old }
    requires inside { write.now.at + write.now.width ≤ 8 * length ones.old }
    ensures ones { (j : ℕ) → bit ones.new j ≡ (if sets 1 j write.now then 1 else bit ones.old j) }
    ensures zeros { (j : ℕ) → bit zeros.new j ≡ (if sets 0 j write.now then 1 else bit zeros.old j) }
{
    match write.eight(ones.len()) {
        Some(eight) => {
            add_word(ones, eight.first, eight.ones);
            add_word(zeros, eight.first, eight.zeros);
        }
        None => mark_each(write, ones, zeros),
    }
}

/// Bits of `ones` are 1 afterwards where one of some writes sets a bit to 1, and those of `zeros` where one sets it to 0; no
/// other is changed.
pub fn mark_all(writes: &[Write], ones: &mut [u8], zeros: &mut [u8])
    requires few { length ones.old < 2 ^ 32 }
    requires beside { length zeros.old ≡ length ones.old }
    requires inside { All (λ w. w.at + w.width ≤ 8 * length ones.old) writes.now }
    ensures ones { (j : ℕ) → bit ones.new j ≡ (if is_set 1 writes.now j then 1 else bit ones.old j) }
    ensures zeros { (j : ℕ) → bit zeros.new j ≡ (if is_set 0 writes.now j then 1 else bit zeros.old j) }
{
    for write in writes {
        mark(write, ones, zeros);
    }
}
