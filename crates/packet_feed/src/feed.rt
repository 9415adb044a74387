ghost use Rattle.std.specs.Prelude.{◌≡◌, ◌≤◌, ◌<◌, ◌+◌, ℕ, List, Option, length, take, IfOk, IfSome, IsTrue, OnErr};
ghost use Rattle.std.specs.Io.{StartsWith};
ghost use Rattle.std.specs.Io.KnownBytes.{Consumes, IsAtEnd};
ghost use Rattle.tm_io.specs.Causes.{HasCause};
ghost use Rattle.mib_model.specs.Headers.{header_of};
ghost use Rattle.mib_model.specs.Packets.{IsCut, IsPacket};
ghost use Rattle.packet_feed.specs.Feed.{BeginsWithPacket, Gives, HasNextCause, source_of};
ghost use Rattle.packet_feed.specs.declared.feed.TheConstants.{HEADER_SIZE, PACKET_SIZE};

use crate::next::Next;
use mib_model::Header;
use tm_io::{Failed, Source};

/// The most octets that a packet has.
pub const PACKET_SIZE: usize = 65_542;

const HEADER_SIZE: usize = 6;

/// The packets of a source. Contracts see the source, by `source_of`.
#[derive(Drop)]
pub struct Feed<S> {
    source: S,
}

// Fills the buffer, or as much of it as there are octets.
fn fill<S: Source>(source: &mut S, buf: &mut [u8]) -> Result<usize, Failed>
    ensures fits { IfOk result (λ count. count ≤ length buf.new) }
    ensures octets { IfOk result (λ count. Consumes (S.left source.old) (S.left source.new) (take count buf.new)) }
    ensures end { IfOk result (λ count. count < length buf.new → IsAtEnd (S.left source.new)) }
    ensures part { OnErr result ((count : ℕ) × (count < length buf.new) × Consumes (S.left source.old) (S.left source.new) (take count buf.new)) }
    ensures cause { HasCause (S.faults source.old) (S.faults source.new) result }
    ensures holds { S.holds source.new ≡ S.holds source.old }
    ensures missed { S.missed source.new ≡ S.missed source.old }
    ensures borrow { S.borrow source.new ≡ S.borrow source.old }
{
    let mut at = 0;
    while at < buf.len() {
        let count = source.read(&mut buf[at..])?;
        if count == 0 {
            return Ok(at);
        }
        at += count;
    }
    Ok(at)
}

/// The header that octets begin with.
#[inline(always)]
pub fn header_at(octets: &[u8]) -> Header
    requires { HEADER_SIZE ≤ length octets.now }
    ensures { result ≡ header_of octets.now }
{
    Header::read(&[
        octets[0], octets[1], octets[2], octets[3], octets[4], octets[5],
    ])
}

// The octets of the packet whose header has this data length.
fn packet_size(length: u16) -> usize
    ensures size { result ≡ 7 + length }
    ensures fits { result ≤ PACKET_SIZE }
{
    HEADER_SIZE + 1 + usize::from(length)
}

/// The packet that octets begin with, where it is there whole.
#[inline(always)]
pub fn packet_at(octets: &[u8]) -> Option<&[u8]>
    ensures whole { IfSome result (λ packet. IsPacket packet.now) }
    ensures front { IfSome result (λ packet. StartsWith octets.now packet.now) }
    ensures short { IfSome result (λ packet. length packet.now ≤ PACKET_SIZE) }
{
    if octets.len() < HEADER_SIZE {
        return None;
    }
    let size = packet_size(header_at(octets).length);
    if octets.len() < size {
        return None;
    }
    Some(&octets[..size])
}

impl<S> Feed<S> {
    /// The packets of this source, from where it stands.
    pub fn new(source: S) -> Feed<S>
        ensures { source_of result ≡ source }
    {
        Feed { source }
    }
}

impl<S: Source> Feed<S> {
    // So many octets as can be read at once: the next packet where it is known to be there whole, and else a header.
    fn first_part(&self) -> usize
        ensures some { HEADER_SIZE ≤ result }
        ensures fits { result ≤ PACKET_SIZE }
        ensures within { IfSome (S.left (source_of self.now)) (λ octets. result ≤ 7 + (header_of octets).length) }
    {
        let octets = self.source.at_hand();
        if octets.len() < HEADER_SIZE {
            return HEADER_SIZE;
        }
        let size = packet_size(header_at(octets).length);
        if octets.len() < size {
            HEADER_SIZE
        } else {
            size
        }
    }

    // What comes next, where so many octets of it were read already, a header at least.
    #[inline(always)]
    fn rest(&mut self, front: usize, into: &mut [u8]) -> Next
        requires some { HEADER_SIZE ≤ front }
        requires length { length into.old ≡ PACKET_SIZE }
        requires front { front ≤ PACKET_SIZE }
        ensures gives { (left : Option (List ℕ)) → IfSome left (λ octets. front ≤ 7 + (header_of octets).length)
            → Consumes left (S.left (source_of self.old)) (take front into.old) → Gives result left (S.left (source_of self.new)) into.new }
        ensures cause { HasNextCause result (S.faults (source_of self.old)) (S.faults (source_of self.new)) }
        ensures holds { S.holds (source_of self.new) ≡ S.holds (source_of self.old) }
        ensures missed { S.missed (source_of self.new) ≡ S.missed (source_of self.old) }
        ensures borrow { S.borrow (source_of self.new) ≡ S.borrow (source_of self.old) }
    {
        let header = header_at(into);
        let size = packet_size(header.length);
        if size <= front {
            return Next::Packet {
                octets: size as u32,
                header,
            };
        }
        let Ok(body) = fill(&mut self.source, &mut into[front..size]) else {
            return Next::Failed;
        };
        if front + body < size {
            return Next::Cut {
                octets: (front + body) as u32,
            };
        }
        Next::Packet {
            octets: size as u32,
            header,
        }
    }

    /// What comes next. The octets of a packet are put at the front of `into`; after another answer, what `into`
    /// holds is left open.
    #[inline(always)]
    pub fn next(&mut self, into: &mut [u8]) -> Next
        requires { length into.old ≡ PACKET_SIZE }
        ensures gives { Gives result (S.left (source_of self.old)) (S.left (source_of self.new)) into.new }
        ensures cause { HasNextCause result (S.faults (source_of self.old)) (S.faults (source_of self.new)) }
        ensures holds { S.holds (source_of self.new) ≡ S.holds (source_of self.old) }
        ensures missed { S.missed (source_of self.new) ≡ S.missed (source_of self.old) }
        ensures borrow { S.borrow (source_of self.new) ≡ S.borrow (source_of self.old) }
    {
        let part = self.first_part();
        let Ok(front) = fill(&mut self.source, &mut into[..part]) else {
            return Next::Failed;
        };
        if front == 0 {
            return Next::End;
        }
        if front < HEADER_SIZE {
            return Next::Cut {
                octets: front as u32,
            };
        }
        self.rest(front, into)
    }

    /// The next octets that are known to be there: none where nothing is known.
    pub fn at_hand(&self) -> &[u8]
        ensures { IfSome (S.left (source_of self.now)) (λ octets. StartsWith octets result.now) }
    {
        self.source.at_hand()
    }

    /// Whether the next packet is known to be there whole, so that giving it doesn't wait.
    pub fn is_next_at_hand(&self) -> bool
        ensures { IsTrue result → IfSome (S.left (source_of self.now)) BeginsWithPacket }
    {
        let octets = self.source.at_hand();
        octets.len() >= HEADER_SIZE && octets.len() >= packet_size(header_at(octets).length)
    }
}

/// Octets are cut into packets and a rest in one way.
pub fn cut_is_unique()
    ensures { (feed : List ℕ) (packets others : List (List ℕ)) (rest more : List ℕ)
        → IsCut feed packets rest → IsCut feed others more → (packets ≡ others) × (rest ≡ more) }
{}
