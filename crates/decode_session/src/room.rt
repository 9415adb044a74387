ghost use Rattle.std.specs.Prelude.{◌≡◌, length, vec_len};
ghost use Rattle.packet_feed.specs.declared.feed.TheConstants.{PACKET_SIZE};

use decode_one::PacketValues;
use frame_region::Piece;
use line_sheets::Sheet;
use packet_feed::PACKET_SIZE;
use std::alloc::{AllocError, Global};

/// The buffers of one packet: a frame for its octets, and a sheet, which says nothing before its record is drawn.
#[derive(Drop)]
pub struct Buffers {
    pub frame: Piece<u8>,
    pub sheet: Sheet,
    ghost frame_size: { length frame ≡ PACKET_SIZE },
}

/// A place for one packet. Its buffers stay where they are, so that it is moved by their handle.
#[derive(Drop)]
pub struct Room {
    pub buffers: Box<Buffers>,
}

/// Where packets are read and decoded in turn: a frame for the octets of one, and its values.
#[derive(Drop)]
pub(crate) struct OwnRoom {
    pub frame: Vec<u8>,
    pub values: PacketValues,
    ghost frame_size: { vec_len frame ≡ PACKET_SIZE },
}

impl OwnRoom {
    /// No packet. An error is want of memory.
    pub fn new(alloc: Global) -> Result<OwnRoom, AllocError> {
        Ok(OwnRoom {
            frame: Vec::from_elem(alloc, 0, PACKET_SIZE)?,
            values: PacketValues::new(alloc)?,
        })
    }
}
