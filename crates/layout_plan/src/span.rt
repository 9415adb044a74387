// The occurrences of one row of plf.
ghost use Rattle.std.specs.Prelude.{Some, ◌≡◌, ◌≤◌, ◌<◌, ◌^◌, ◌+◌, ◌*◌, [], ◌∷◌, length};
ghost use Rattle.bit_field.specs.Taken.{HasSlots, KeepsSlots};
ghost use Rattle.mib_model.specs.Fixed.{Place, most_values, occurrences};
ghost use Rattle.layout_plan.specs.Readings.{Reads};
ghost use Rattle.layout_plan.specs.Stops.{ended_at, ended_by};
ghost use Rattle.layout_plan.specs.Spans.{place_in, span_places};
ghost use Rattle.layout_plan.specs.Turns.{is_big_or_none};

use bit_field::{MOST_VALUES, Values, take, take_in_eight};
use mib_model::{Ended, Name, Order, PlfRow, Shape, Sort};
use std::marker::Model;

/// The occurrences of a row: the octet from which the first is read and the bits before it there, the bits from one to the next,
/// and how many there are. Where `count` is 0 there is one, which `take_in_eight` reads. Fields lie so that little room is left
/// between them. Contracts see the occurrences.
#[derive(Drop)]
pub struct Span {
    octet: u32,
    step: u16,
    count: u16,
    shape: Shape,
    bit: u8,
    name: Name,
}

impl Model for Span {
    ghost use Rattle.std.specs.Prelude.{◌≡◌, ◌+◌, ◌*◌};
    ghost use Rattle.layout_plan.specs.Turns.{Turns, turns, IsInEight};

    ghost Value = { Turns };

    ghost view = { λ s. record { name = s.name; first = 8 * s.octet + s.bit; step = s.step; count = turns s.count; shape = s.shape } };

    ghost invariant = { λ s. s.count ≡ 0 → IsInEight s.bit s.shape };
}

/// Why values end before the last place of a span.
#[derive(Clone, Copy)]
pub enum SpanStop {
    /// A value's bits aren't in the packet.
    Short,
    /// There is no room for a value.
    Many,
}

impl SpanStop {
    /// How the values of a packet end that stop at a value of this name.
    pub fn ended(self, name: Name) -> Ended
        ensures { result ≡ ended_at name self }
    {
        match self {
            SpanStop::Short => Ended::Short { name },
            SpanStop::Many => Ended::Many,
        }
    }
}

// Reads the value at a place, and tells why where there is no room or its bits aren't in the packet.
#[inline(always)]
fn read_value(
    packet: &[u8],
    at: u64,
    name: &Name,
    shape: Shape,
    values: &mut Values,
) -> Option<SpanStop>
    requires slots { HasSlots values.old }
    ensures reads { Reads packet.now (record { name = name.now; at = at; shape = shape } ∷ []) (ended_by name.now result) values.old values.new }
    ensures stays { KeepsSlots values.old values.new }
{
    if values.used == MOST_VALUES {
        return Some(SpanStop::Many);
    }
    let Some(value) = take(packet, at, *name, shape) else {
        return Some(SpanStop::Short);
    };
    values.push(value);
    None
}

// The first bit of a place: an octet and a bit in it.
fn first_bit(octet: u32, bit: u8) -> u64
    ensures value { result ≡ 8 * octet + bit }
    ensures within { result < 2 ^ 63 }
{
    8 * u64::from(octet) + u64::from(bit)
}

// Whether values of a shape have no number or one of the order `Big`.
fn is_big(shape: Shape) -> bool
    ensures { result ≡ is_big_or_none shape }
{
    match shape.sort() {
        Sort::Unsigned | Sort::Signed => matches!(shape.order(), Order::Big),
        _ => true,
    }
}

// A place, told by the octet that is the eighth before the field's end, or the first of all where there are fewer, if the
// field begins behind it; else by the octet in which it begins.
fn place_in_eight(octet: u32, bit: u8, width: u16) -> (u32, u8)
    ensures { 8 * result.0 + result.1 ≡ 8 * octet + bit }
{
    let at = first_bit(octet, bit);
    let end = (at + u64::from(width)).div_ceil(8);
    let first = end.saturating_sub(8).min(at / 8);
    if first <= u64::from(octet) {
        (first as u32, (at - 8 * first) as u8)
    } else {
        (octet, bit)
    }
}

impl Span {
    /// The occurrences of a row that has any, whose values have this shape.
    pub fn new(row: &PlfRow, shape: Shape) -> Span
        requires { 0 < row.now.nbocc }
        ensures { span_places result ≡ occurrences row.now (Some shape) }
    {
        let (octet, bit) = place_in_eight(row.offby, row.offbi, shape.width());
        let end = u32::from(bit) + u32::from(shape.width());
        let is_in_eight = row.nbocc == 1 && end <= 64 && is_big(shape);
        Span {
            octet,
            step: row.lgocc,
            count: if is_in_eight { 0 } else { row.nbocc },
            shape,
            bit,
            name: row.name,
        }
    }

    /// The name of its values.
    pub fn name(&self) -> Name
        ensures { result ≡ self.now.name }
    {
        self.name
    }

    // The first bit of its k-th place, k from 0 on.
    fn place(&self, k: u16) -> u64
        ensures { result ≡ self.now.first + k * self.now.step }
    {
        first_bit(self.octet, self.bit) + u64::from(k) * u64::from(self.step)
    }

    // How many places it has.
    fn places(&self) -> u16
        ensures { result ≡ self.now.count }
    {
        if self.count == 0 { 1 } else { self.count }
    }

    // Reads the values at its places, however many there are, and tells why where they stop before the last of them.
    #[inline(never)]
    fn read_each(&self, packet: &[u8], values: &mut Values) -> Option<SpanStop>
        requires slots { HasSlots values.old }
        ensures reads { Reads packet.now (span_places self.now) (ended_by self.now.name result) values.old values.new }
        ensures stays { KeepsSlots values.old values.new }
    {
        for k in 0..self.places() {
            let at = self.place(k);
            if let Some(stop) = read_value(packet, at, &self.name, self.shape, values) {
                return Some(stop);
            }
        }
        None
    }

    // Reads them by values of its own, so that the caller may keep its own in registers.
    #[inline(always)]
    fn read_apart(&self, packet: &[u8], values: &mut Values) -> Option<SpanStop>
        requires slots { HasSlots values.old }
        ensures reads { Reads packet.now (span_places self.now) (ended_by self.now.name result) values.old values.new }
        ensures stays { KeepsSlots values.old values.new }
    {
        let mut own = Values {
            slots: &mut *values.slots,
            used: values.used,
        };
        let stop = self.read_each(packet, &mut own);
        values.used = own.used;
        stop
    }

    /// Reads the values at its places, and tells why where they stop before the last of them.
    #[inline(always)]
    pub fn read(&self, packet: &[u8], values: &mut Values) -> Option<SpanStop>
        requires slots { HasSlots values.old }
        ensures reads { Reads packet.now (span_places self.now) (ended_by self.now.name result) values.old values.new }
        ensures stays { KeepsSlots values.old values.new }
    {
        if self.count == 0
            && values.used < MOST_VALUES
            && let Some(value) = take_in_eight(
                packet, self.octet, self.bit, self.name, self.shape,
            )
        {
            values.push(value);
            return None;
        }
        self.read_apart(packet, values)
    }
}
