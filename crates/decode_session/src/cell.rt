ghost use Rattle.std.specs.Prelude.{◌≡◌, ◌≤◌, length, take};
ghost use Rattle.decode_session.specs.Frames.{IsFramed};
ghost use Rattle.mib_model.specs.Packets.{IsPacket};
ghost use Rattle.packet_feed.specs.declared.feed.TheConstants.{PACKET_SIZE};

use crate::room::{Buffers, Room};
use mib_model::Header;
use work_queue::Numbered;

/// A packet between its reading and its record.
#[derive(Drop)]
pub struct PacketCell {
    pub number: u64,
    pub octets: u32,
    pub header: Header,
    pub buffers: Box<Buffers>,
    ghost framed: { IsFramed buffers.value.frame octets header },
}

impl Numbered for PacketCell {
    ghost number_of = { λ cell. cell.number };

    fn number(&self) -> u64 {
        self.number
    }
}

impl PacketCell {
    ghost use Rattle.decode_session.specs.Cells.{packet_in};

    /// The cell of a packet that stands in a room.
    pub fn new(number: u64, octets: u32, header: Header, room: Room) -> PacketCell
        requires { IsFramed room.buffers.value.frame octets header }
        ensures number { result.number ≡ number }
        ensures packet { packet_in result ≡ take octets room.buffers.value.frame }
    {
        let Room { buffers } = room;
        PacketCell {
            number,
            octets,
            header,
            buffers,
        }
    }

    /// Its packet.
    pub fn packet(&self) -> &[u8]
        ensures packet { result.now ≡ packet_in self.now }
        ensures whole { IsPacket result.now }
        ensures short { length result.now ≤ PACKET_SIZE }
    {
        &self.buffers.frame.slice()[..self.octets as usize]
    }

    /// Its buffers.
    pub fn into_room(self) -> Room {
        Room {
            buffers: self.buffers,
        }
    }
}
