// What a packet is, and its values.
ghost use Rattle.std.specs.Prelude.{◌≡◌, ◌≢◌, ◌≤◌, true, false, pos, int_lt, [], is_some, length};
ghost use Rattle.bit_field.specs.Taken.{taken, KeepsSlots};
ghost use Rattle.decode_one.specs.Halves.{HasDecoded, IsHalf};
ghost use Rattle.edition_plans.specs.Layouts.{layout_of};
ghost use Rattle.mib_model.specs.Fixed.{fixed_values, most_values};
ghost use Rattle.mib_model.specs.Headers.{header_of};
ghost use Rattle.mib_model.specs.Interpreter.{values_of};
ghost use Rattle.mib_model.specs.Match.{match_of};
ghost use Rattle.mib_model.specs.Soundness.{IsSound};
ghost use Rattle.mib_model.specs.Structures.{structure};
ghost use Rattle.mib_model.specs.Walk.{structure_values};

use crate::half::Half;
use crate::values::PacketValues;
use bit_field::Values;
use edition_plans::Plans;
use mib_model::{Ended, Found, Header, Value};
use struct_plan::walk;

// What a packet is.
#[tactic(auto, unfolding(mib_model::specs::Match::match_of))]
#[inline(always)]
fn identify<P: Plans>(plans: &P, header: &Header, packet: &[u8]) -> Found
    requires header { header.now ≡ header_of packet.now }
    requires packet { 7 ≤ length packet.now }
    ensures found { result ≡ match_of (P.tables plans.now) packet.now }
    ensures sound { IsSound (P.tables plans.now) }
{
    plans.ident().find_by(header, packet)
}

// The values of a packet by the layout of its SPID, which there is, and how they end.
#[inline(always)]
fn fixed<P: Plans>(plans: &P, spid: u32, packet: &[u8], values: &mut Values) -> Ended
    requires layout { is_some (layout_of (P.tables plans.now) spid) ≡ true }
    requires slots { length values.old.slots.now ≡ most_values }
    requires used { values.old.used ≡ 0 }
    ensures values { (taken values.new, result) ≡ fixed_values (P.tables plans.now) spid packet.now }
    ensures stays { KeepsSlots values.old values.new }
{
    match plans.layout(spid) {
        Some(layout) => layout.extract(packet, values),
        None => unreachable!(),
    }
}

// The values of a packet of variable structure, which there is, and how they end.
fn walked<P: Plans>(plans: &P, tpsd: i32, dfhsize: u8, packet: &[u8], values: &mut Values) -> Ended
    requires some { int_lt tpsd (pos 1) ≡ false }
    requires there { structure (P.tables plans.now) tpsd ≢ [] }
    requires packet { length packet.now ≤ 65542 }
    requires slots { length values.old.slots.now ≡ most_values }
    requires used { values.old.used ≡ 0 }
    ensures values { (taken values.new, result) ≡ structure_values (P.tables plans.now) tpsd dfhsize packet.now }
    ensures stays { KeepsSlots values.old values.new }
{
    walk(plans, tpsd as u32, dfhsize, packet, values)
}

// Takes the values of a packet that is found so, and tells how they end: by its structure where it names one, else by its
// layout.
#[inline(always)]
fn extract<P: Plans>(
    plans: &P,
    found: &Found,
    packet: &[u8],
    values: &mut Values,
    ended: &mut Ended,
)
    requires sound { IsSound (P.tables plans.now) }
    requires found { found.now ≡ match_of (P.tables plans.now) packet.now }
    requires packet { length packet.now ≤ 65542 }
    requires slots { length values.old.slots.now ≡ most_values }
    requires used { values.old.used ≡ 0 }
    ensures values { (taken values.new, ended.new) ≡ values_of (P.tables plans.now) packet.now found.now }
    ensures stays { KeepsSlots values.old values.new }
{
    match *found {
        Found::Spid {
            spid,
            tpsd,
            dfhsize,
            ..
        } => {
            if tpsd < 1 {
                *ended = fixed(plans, spid, packet, values);
            } else {
                *ended = walked(plans, tpsd, dfhsize, packet, values);
            }
        }
        _ => *ended = Ended::Whole,
    }
}

impl Half {
    // Decodes a packet: becomes what it is, and takes its values into the front of the slots.
    #[inline(always)]
    fn decode<P: Plans>(&mut self, plans: &P, header: &Header, packet: &[u8], slots: &mut [Value])
        requires header { header.now ≡ header_of packet.now }
        requires long { 7 ≤ length packet.now }
        requires short { length packet.now ≤ 65542 }
        requires slots { length slots.old ≡ most_values }
        ensures half { IsHalf (P.tables plans.now) packet.now self.new slots.new }
        ensures slots { length slots.new ≡ most_values }
    {
        self.header = *header;
        self.found = identify(plans, header, packet);
        let mut values = Values { slots, used: 0 };
        extract(plans, &self.found, packet, &mut values, &mut self.ended);
        self.used = values.used;
    }
}

impl PacketValues {
    /// Decodes a packet: has what it is and its values. It takes no memory.
    #[inline(always)]
    pub fn decode<P: Plans>(&mut self, plans: &P, header: &Header, packet: &[u8])
        requires header { header.now ≡ header_of packet.now }
        requires long { 7 ≤ length packet.now }
        requires short { length packet.now ≤ 65542 }
        ensures { HasDecoded (P.tables plans.now) packet.now self.new }
    {
        self.half.decode(plans, header, packet, &mut self.slots);
    }
}
