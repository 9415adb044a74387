// What a write sets in one octet.
ghost use Rattle.std.specs.Prelude.{◌≡◌, ◌<◌, ◌≤◌, ◌+◌, ◌-◌, ◌*◌, ◌/◌, ◌%◌, ◌^◌, ◌&&◌, ℕ, suc, nat_le, nat_lt, if◌then◌else◌};
ghost use Rattle.bit_writer.specs.Writes.{bit_behind, sets};

use crate::write::Write;
use mib_model::Order;

/// The bits of an octet that a write sets to 1, and those that it sets to 0.
#[derive(Clone, Copy)]
pub struct Part {
    pub ones: u8,
    pub zeros: u8,
}

// The octet of a number that so many others stand behind.
fn octet_of(number: u64, others: u64) -> u8
    ensures { result ≡ number / 2 ^ (8 * others) % 256 }
{
    if others < 8 {
        (number >> (8 * others) & 0xFF) as u8
    } else {
        0
    }
}

// The octet that ends before the bit `stop`, of a number that ends before the bit `end`.
fn octet_before(number: u64, end: u64, stop: u64) -> u8
    requires { stop < end + 8 }
    ensures { (place : ℕ) → place < 8 → stop ≤ end + place → result / 2 ^ place % 2 ≡ number / 2 ^ (end + place - stop) % 2 }
{
    if end < stop {
        (number << (stop - end) & 0xFF) as u8
    } else if end - stop < 64 {
        (number >> (end - stop) & 0xFF) as u8
    } else {
        0
    }
}

// An octet of ones but for the first so many bits and the last so many.
fn ones_between(first: u64, last: u64) -> u8
    requires { first + last ≤ 8 }
    ensures { (i : ℕ) → i < 8 → result / 2 ^ (7 - i) % 2 ≡ (if nat_le first i && nat_lt i (8 - last) then 1 else 0) }
{
    ((1u16 << (8 - first)) - (1 << last)) as u8
}

impl Write {
    // An octet of its bits, where the least significant octet of its number is the first.
    fn turned_octet(&self, octet: u64) -> u8
        requires { self.now.at < 8 * octet + 8 }
        ensures { (i : ℕ) → i < 8 → self.now.at ≤ 8 * octet + i → result / 2 ^ (7 - i) % 2
            ≡ self.now.number / 2 ^ (8 * ((8 * octet + i - self.now.at) / 8) + (7 - (8 * octet + i - self.now.at) % 8)) % 2 }
    {
        let others = octet - self.at / 8;
        let last = u16::from(octet_of(self.number, others));
        let before = if others == 0 {
            0
        } else {
            u16::from(octet_of(self.number, others - 1))
        };
        ((256 * before + last) >> (self.at % 8) & 0xFF) as u8
    }

    // An octet of its bits.
    fn octet(&self, octet: u64) -> u8
        requires few { self.now.at + self.now.width < 2 ^ 63 }
        requires from { self.now.at < 8 * octet + 8 }
        requires to { 8 * octet < self.now.at + self.now.width }
        ensures { (i : ℕ) → i < 8 → self.now.at ≤ 8 * octet + i → 8 * octet + i < self.now.at + self.now.width
            → result / 2 ^ (7 - i) % 2 ≡ bit_behind self.now (8 * octet + i - self.now.at) }
    {
        match self.order {
            Order::Big => octet_before(self.number, self.at + u64::from(self.width), 8 * octet + 8),
            Order::Little => self.turned_octet(octet),
        }
    }

    // The bits of an octet that it has.
    fn covered(&self, octet: u64) -> u8
        requires few { self.now.at + self.now.width < 2 ^ 63 }
        requires from { self.now.at < 8 * octet + 8 }
        requires to { 8 * octet < self.now.at + self.now.width }
        ensures { (i : ℕ) → i < 8 → result / 2 ^ (7 - i) % 2
            ≡ (if nat_le self.now.at (8 * octet + i) && nat_lt (8 * octet + i) (self.now.at + self.now.width) then 1 else 0) }
    {
        let first = 8 * octet;
        let end = self.at + u64::from(self.width);
        ones_between(
            self.at.saturating_sub(first),
            (first + 8).saturating_sub(end),
        )
    }

    /// What it sets in one of the octets that it reaches into.
    pub fn part(&self, octet: u64) -> Part
        requires few { self.now.at + self.now.width < 2 ^ 63 }
        requires from { self.now.at < 8 * octet + 8 }
        requires to { 8 * octet < self.now.at + self.now.width }
        ensures ones { (i : ℕ) → i < 8 → result.ones / 2 ^ (7 - i) % 2 ≡ (if sets 1 (8 * octet + i) self.now then 1 else 0) }
        ensures zeros { (i : ℕ) → i < 8 → result.zeros / 2 ^ (7 - i) % 2 ≡ (if sets 0 (8 * octet + i) self.now then 1 else 0) }
    {
        let bits = self.octet(octet);
        let covered = self.covered(octet);
        Part {
            ones: bits & covered,
            zeros: !bits & covered,
        }
    }
}
