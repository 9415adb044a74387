// The feed of a generated run.
ghost use Rattle.std.specs.Prelude.{◌≡◌, ℕ, [], ◌++◌, ◌/◌, ◌%◌, ◌<◌, IfOk, OnOk};
ghost use Rattle.std.specs.List.{concat};
ghost use Rattle.mib_model.specs.Packets.{IsCut};
ghost use Rattle.tm_drill.specs.Draws.{state_after};
ghost use Rattle.tm_drill.specs.Feed.{apid_by, packet_octets, packet_behind, first_packets, drill_packets};

use crate::draws::Draws;
use std::alloc::{AllocError, Global};

/// The number of packets of a generated run.
pub const PACKETS: u32 = 20_000;

/// The octets of each of them.
const PACKET_SIZE: usize = 14;

// The first octet of a word.
fn high(word: u16) -> u8
    ensures { result ≡ word / 256 }
{
    (word / 256) as u8
}

// The second octet of a word.
fn low(word: u16) -> u8
    ensures { result ≡ word % 256 }
{
    (word % 256) as u8
}

// The APID by a draw.
fn apid_by(draw: u32) -> u16
    ensures apid { result ≡ apid_by draw }
    ensures few { result < 301 }
{
    if draw % 9 == 8 {
        300
    } else {
        100 + (draw % 9) as u16
    }
}

// Appends a packet with an APID, an index and two values.
#[tactic(auto, unfolding(crate::specs::Feed::packet_octets))]
fn add_octets(
    feed: &mut Vec<u8>,
    apid: u16,
    index: u32,
    first: u16,
    second: u16,
) -> Result<(), AllocError>
    requires { apid < 2048 }
    ensures { OnOk result (feed.new.items ≡ feed.old.items ++ packet_octets apid index first second) }
{
    let head = 0x0800 + apid;
    let count = 0xC000 + (index % 16_384) as u16;
    feed.extend_from_slice(&[
        high(head),
        low(head),
        high(count),
        low(count),
        0,
        7,
        0x10,
        3,
        25,
        0,
        high(first),
        low(first),
        high(second),
        low(second),
    ])
}

// Appends the packet with an index.
#[tactic(auto, unfolding(crate::specs::Draws::state_after, crate::specs::Feed::packet_behind))]
fn add_packet(feed: &mut Vec<u8>, draws: &mut Draws, index: u32) -> Result<(), AllocError>
    ensures packet { OnOk result (feed.new.items ≡ feed.old.items ++ packet_behind draws.old index) }
    ensures draws { draws.new ≡ state_after draws.old 3 }
{
    let apid = apid_by(draws.draw());
    let first = (draws.draw() % 65_536) as u16;
    let second = (draws.draw() % 65_536) as u16;
    add_octets(feed, apid, index, first, second)
}

// The first so many packets, one behind the other.
#[tactic(auto, using(crate::proofs::FeedFacts::packet_steps))]
fn first_packets(alloc: Global, seed: u64, count: u32) -> Result<Vec<u8>, AllocError>
    ensures { IfOk result (λ feed. feed.items ≡ concat (first_packets seed count)) }
{
    let mut feed = Vec::with_capacity(alloc, PACKET_SIZE * count as usize)?;
    let mut draws = Draws::new(seed);
    for index in 0..count {
        add_packet(&mut feed, &mut draws, index)?;
    }
    Ok(feed)
}

/// The octets of a run's feed, by its seed. An error is want of memory.
pub fn drill_feed(alloc: Global, seed: u64) -> Result<Vec<u8>, AllocError>
    ensures { IfOk result (λ feed. feed.items ≡ concat (drill_packets seed)) }
{
    first_packets(alloc, seed, PACKETS)
}

/// A run's packets are those into which its feed is cut, with no rest.
pub fn feed_is_cut()
    ensures { (seed : ℕ) → IsCut (concat (drill_packets seed)) (drill_packets seed) [] }
{}
