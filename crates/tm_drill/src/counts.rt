ghost use Rattle.std.specs.Prelude.{◌≡◌, ℕ, ◌+◌, ◌-◌, ◌^◌, ◌<◌, ◌≤◌, ◌++◌, ◌∷◌, [], List, if◌then◌else◌, slice_index, length, decimal, IfOk, OnOk};
ghost use Rattle.std.specs.List.{All};
ghost use Rattle.tm_drill.specs.Counts.{is_head, is_packet, is_unknown, is_alarm, is_clear, counts_in, AreBelow, count_line, packet_line, packet_lines, summary};
ghost use Rattle.tm_drill.specs.declared.tables.TheConstants.{KINDS};

use crate::tables::KINDS;
use itoa::Buffer;
use std::alloc::{AllocError, Global};

/// How many printed lines of each kind there are.
#[derive(Clone, Copy, Debug, PartialEq, Eq)]
pub struct Counts {
    /// Packets, by their SPID from 1 on.
    pub packets: [u64; KINDS as usize],
    pub unknown: u64,
    pub alarms: u64,
    pub clears: u64,
}

// Whether a line begins the record of a packet.
fn is_head(line: &[u8]) -> bool
    ensures { result ≡ is_head line.now }
{
    line.starts_with(b"PKT ")
}

// Whether a line ends in a packet's SPID.
#[tactic(auto, unfolding(crate::specs::Counts::is_packet))]
fn is_packet(line: &[u8], spid: u8) -> bool
    requires { spid < 10 }
    ensures { result ≡ is_packet spid line.now }
{
    is_head(line) && line.ends_with(&[b' ', b'S', b'P', b'I', b'D', b' ', b'0' + spid])
}

#[tactic(auto, unfolding(crate::specs::Counts::is_unknown))]
fn is_unknown(line: &[u8]) -> bool
    ensures { result ≡ is_unknown line.now }
{
    is_head(line) && line.ends_with(b" UNKNOWN")
}

#[tactic(auto, unfolding(crate::specs::Counts::is_alarm))]
fn is_alarm(line: &[u8]) -> bool
    ensures { result ≡ is_alarm line.now }
{
    line.starts_with(b"  ALARM ")
}

#[tactic(auto, unfolding(crate::specs::Counts::is_clear))]
fn is_clear(line: &[u8]) -> bool
    ensures { result ≡ is_clear line.now }
{
    line.starts_with(b"  CLEAR ")
}

// Counts a line among the packets.
fn add_packet(packets: &mut [u64], line: &[u8])
    requires few { length packets.old < 10 }
    requires fits { All (λ count. count < 2 ^ 64 - 1) packets.old }
    ensures { (place : ℕ) → place < length packets.old
        → slice_index packets.new place ≡ slice_index packets.old place + (if is_packet (place + 1) line.now then 1 else 0) }
{
    for (place, count) in packets.iter_mut().enumerate() {
        if is_packet(line, place as u8 + 1) {
            *count += 1;
        }
    }
}

// Appends the line of a count.
fn add_line(text: &mut Vec<u8>, title: &[u8], count: u64) -> Result<(), AllocError>
    ensures { OnOk result (text.new.items ≡ text.old.items ++ count_line title.now count) }
{
    text.extend_from_slice(title)?;
    text.extend_from_slice(b" ")?;
    text.extend_from_slice(Buffer::new().format(count).as_bytes())?;
    text.extend_from_slice(b"\n")
}

// Appends the line of a packet's count.
fn add_packet_line(text: &mut Vec<u8>, spid: usize, count: u64) -> Result<(), AllocError>
    ensures { OnOk result (text.new.items ≡ text.old.items ++ packet_line spid count) }
{
    text.extend_from_slice(b"SPID ")?;
    text.extend_from_slice(Buffer::new().format(spid).as_bytes())?;
    add_line(text, b" COUNT", count)
}

// Appends the lines of all packets.
fn add_packet_lines(text: &mut Vec<u8>, counts: &[u64]) -> Result<(), AllocError>
    requires { length counts.now < 100 }
    ensures { OnOk result (text.new.items ≡ text.old.items ++ packet_lines counts.now (length counts.now)) }
{
    for (place, count) in counts.iter().enumerate() {
        add_packet_line(text, place + 1, *count)?;
    }
    Ok(())
}

impl Counts {
    /// The counts of no line.
    #[tactic(auto, unfolding(crate::specs::Counts::counts_in))]
    pub fn none() -> Counts
        ensures { result ≡ counts_in [] }
    {
        Counts {
            packets: [0; KINDS as usize],
            unknown: 0,
            alarms: 0,
            clears: 0,
        }
    }

    /// Counts a line, which stands without its LF.
    pub fn add(&mut self, line: &[u8])
        requires { AreBelow (2 ^ 64 - 1) self.old }
        ensures { (lines : List (List ℕ)) → self.old ≡ counts_in lines → self.new ≡ counts_in (lines ++ line.now ∷ []) }
    {
        add_packet(&mut self.packets, line);
        self.unknown += u64::from(is_unknown(line));
        self.alarms += u64::from(is_alarm(line));
        self.clears += u64::from(is_clear(line));
    }

    /// The summary: a line for the packets of each SPID, and one for each other count. An error is want of memory.
    #[tactic(auto, unfolding(crate::specs::Counts::summary))]
    pub fn summary(&self, alloc: Global) -> Result<Vec<u8>, AllocError>
        ensures { IfOk result (λ text. text.items ≡ summary self.now) }
    {
        let mut text = Vec::new(alloc);
        add_packet_lines(&mut text, &self.packets)?;
        add_line(&mut text, b"UNKNOWN", self.unknown)?;
        add_line(&mut text, b"ALARMS", self.alarms)?;
        add_line(&mut text, b"CLEARS", self.clears)?;
        Ok(text)
    }
}
