// Packets one behind the other.
ghost use Rattle.std.specs.Prelude.{◌≡◌, ◌<◌, ◌≤◌, ◌+◌, ◌++◌, List, ℕ, vec_capacity, vec_len, drop, get_or, length, take, IfOk, IsFalse};
ghost use Rattle.mib_model.specs.Packets.{IsPacket};
ghost use Rattle.packet_feed.specs.declared.feed.TheConstants.{PACKET_SIZE};
ghost use Rattle.packet_sheets.specs.Stretches.{no_stretch, start_from, with_packet};
ghost use Rattle.packet_sheets.specs.declared.stretch.TheConstants.{PACKETS_MOST, STRETCH_MOST};

use packet_feed::PACKET_SIZE;
use std::alloc::{AllocError, Global};
use std::marker::Model;

/// The octets behind which no packet is added.
pub const STRETCH_MOST: usize = 65_536;

/// The packets behind which none is added.
pub const PACKETS_MOST: usize = 16_384;

/// The octets for which a stretch has room.
const OCTETS_ROOM: usize = STRETCH_MOST + PACKET_SIZE;

/// Whole packets in room that is reserved once. Contracts see the packets, and how many octets they have.
pub struct Stretch {
    octets: Vec<u8>,
    ends: Vec<u32>,
}

/// By hand, so that whoever lets one go proves one call.
impl Drop for Stretch {
    fn drop(self) {
        let Stretch {
            octets: _octets,
            ends: _ends,
        } = self;
    }
}

impl Model for Stretch {
    ghost use Rattle.std.specs.Prelude.{◌≡◌, ◌≤◌, length, vec_capacity, vec_len};
    ghost use Rattle.std.specs.List.{All};
    ghost use Rattle.mib_model.specs.Packets.{IsPacket};
    ghost use Rattle.packet_sheets.specs.Stretches.{AreEnds, StretchView, packets_in, stretch_in};
    ghost use Rattle.packet_feed.specs.declared.feed.TheConstants.{PACKET_SIZE};
    ghost use Rattle.packet_sheets.specs.declared.stretch.TheConstants.{OCTETS_ROOM, PACKETS_MOST};

    ghost Value = { StretchView };

    ghost view = { λ stretch. stretch_in stretch.octets.items stretch.ends.items };

    ghost invariant = { λ stretch. AreEnds 0 stretch.ends.items (length stretch.octets.items)
        × All IsPacket (packets_in stretch.octets.items 0 stretch.ends.items)
        × (length stretch.octets.items ≤ OCTETS_ROOM) × (vec_len stretch.octets ≡ length stretch.octets.items)
        × (vec_len stretch.ends ≡ length stretch.ends.items)
        × (vec_len stretch.ends ≤ PACKETS_MOST) × (OCTETS_ROOM ≤ vec_capacity stretch.octets) × (PACKETS_MOST ≤ vec_capacity stretch.ends)
        × All (λ packet. length packet ≤ PACKET_SIZE) (packets_in stretch.octets.items 0 stretch.ends.items) };
}

// The octets from one place to another.
#[inline(always)]
fn part(octets: &[u8], start: usize, end: usize) -> &[u8]
    requires order { start ≤ end }
    requires within { end ≤ length octets.now }
    ensures { result.now ≡ drop start (take end octets.now) }
{
    &octets[start..end]
}

// Where a packet begins.
#[inline(always)]
fn start_of(ends: &[u32], k: usize) -> usize
    requires { k < length ends.now }
    ensures { result ≡ start_from 0 ends.now k }
{
    if k == 0 { 0 } else { ends[k - 1] as usize }
}

// Where a packet ends.
#[inline(always)]
fn end_of(ends: &[u32], k: usize) -> usize
    requires { k < length ends.now }
    ensures { (d : ℕ) → result ≡ get_or ends.now k d }
{
    ends[k] as usize
}

// Puts octets behind others, for which there is room.
#[inline(always)]
fn append(packet: &[u8], octets: &mut Vec<u8>)
    requires { vec_len octets.old + length packet.now ≤ vec_capacity octets.old }
    ensures items { octets.new.items ≡ octets.old.items ++ packet.now }
    ensures len { vec_len octets.new ≡ vec_len octets.old + length packet.now }
    ensures capacity { vec_capacity octets.old ≤ vec_capacity octets.new }
{
    let Ok(()) = octets.extend_from_slice(packet) else {
        unreachable!()
    };
}

impl Stretch {
    /// No packets. An error is want of memory.
    pub fn new(alloc: Global) -> Result<Stretch, AllocError>
        ensures { IfOk result (λ stretch. stretch ≡ no_stretch) }
    {
        Ok(Stretch {
            octets: Vec::with_capacity(alloc, OCTETS_ROOM)?,
            ends: Vec::with_capacity(alloc, PACKETS_MOST)?,
        })
    }

    /// Makes it one of no packets again.
    pub fn clear(&mut self)
        ensures { self.new ≡ no_stretch }
    {
        self.octets.clear();
        self.ends.clear();
    }

    /// Whether it takes no further packet.
    #[tactic(auto, using(crate::proofs::StretchFacts::ends_many))]
    pub fn is_full(&self) -> bool
        ensures size { IsFalse result → self.now.size < STRETCH_MOST }
        ensures packets { IsFalse result → length self.now.packets < PACKETS_MOST }
    {
        let octets: &[u8] = &self.octets;
        let ends: &[u32] = &self.ends;
        octets.len() >= STRETCH_MOST || ends.len() >= PACKETS_MOST
    }

    /// A packet stands behind the others now. It takes no memory.
    pub fn add(&mut self, packet: &[u8])
        requires packet { IsPacket packet.now }
        requires short { length packet.now ≤ PACKET_SIZE }
        requires size { self.old.size < STRETCH_MOST }
        requires few { length self.old.packets < PACKETS_MOST }
        ensures { self.new ≡ with_packet self.old packet.now }
    {
        append(packet, &mut self.octets);
        let octets: &[u8] = &self.octets;
        let end = octets.len() as u32;
        self.ends.push_reserved(end);
    }

    /// How many packets there are.
    #[tactic(auto, using(crate::proofs::StretchFacts::ends_many))]
    pub fn len(&self) -> usize
        ensures { result ≡ length self.now.packets }
    {
        let ends: &[u32] = &self.ends;
        ends.len()
    }

    /// A packet.
    #[inline(always)]
    pub fn packet(&self, k: usize) -> &[u8]
        requires { k < length self.now.packets }
        ensures packet { (d : List ℕ) → result.now ≡ get_or self.now.packets k d }
        ensures whole { IsPacket result.now }
        ensures short { length result.now ≤ PACKET_SIZE }
    {
        let octets: &[u8] = &self.octets;
        let ends: &[u32] = &self.ends;
        part(octets, start_of(ends, k), end_of(ends, k))
    }
}
