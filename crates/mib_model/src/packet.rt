use crate::name::Name;
use crate::shape::Shape;
use byteorder::{BigEndian, ByteOrder};

/// The APID of idle packets (CCSDS 133.0-B, idle packets).
pub const IDLE_APID: u16 = 2047;

/// The primary header of a space packet (CCSDS 133.0-B, packet primary header).
#[derive(Clone, Copy, Debug, PartialEq, Eq)]
pub struct Header {
    /// The packet version number, of 3 bits.
    pub version: u8,
    /// Whether the packet type is telecommand.
    pub telecommand: bool,
    /// Whether there is a secondary header.
    pub secondary: bool,
    /// The application process identifier, of 11 bits.
    pub apid: u16,
    /// The sequence flags, of 2 bits.
    pub flags: u8,
    /// The sequence count, of 14 bits.
    pub count: u16,
    /// The packet data length: the octets after the primary header, less one.
    pub length: u16,
}

impl Header {
    ghost use Rattle.std.specs.Prelude.{◌≡◌};
    ghost use Rattle.mib_model.specs.Headers.{header_of};

    /// The header that six octets are.
    pub fn read(head: &[u8; 6]) -> Header
        ensures { result ≡ header_of head.now }
    {
        let first = BigEndian::read_u16(&head[0..2]);
        let second = BigEndian::read_u16(&head[2..4]);
        Header {
            version: (first / 8192) as u8,
            telecommand: first / 4096 % 2 == 1,
            secondary: first / 2048 % 2 == 1,
            apid: first % 2048,
            flags: (second / 16384) as u8,
            count: second % 16384,
            length: BigEndian::read_u16(&head[4..6]),
        }
    }
}

/// Why a packet is no telemetry that can be identified.
#[derive(Clone, Copy, Debug, PartialEq, Eq)]
pub enum BadWhy {
    Version,
    Telecommand,
    /// It ends before its service type and subtype, or before a discriminant.
    Short,
}

/// What a packet is by the tables.
#[derive(Clone, Copy, Debug, PartialEq, Eq)]
pub enum Found {
    /// A packet of the database, by the row that agrees with it.
    Spid {
        spid: u32,
        service: u8,
        subtype: u8,
        tpsd: i32,
        dfhsize: u8,
    },
    /// No row agrees with it.
    Unknown {
        service: u8,
        subtype: u8,
    },
    /// An idle packet.
    Idle,
    Bad(BadWhy),
}

/// How the values of a packet end.
#[derive(Clone, Copy)]
pub enum Ended {
    Whole,
    /// The bits of this parameter's value aren't in the packet.
    Short { name: Name },
    /// There are more values than 8,192.
    Many,
    /// A choice names a structure that isn't there.
    NoStructure { tpsd: i128 },
    /// A deduced value names a parameter that isn't there.
    NoParameter { pid: i128 },
}

/// A value of a packet: its parameter, the bit at which it starts, and its number, which is 0 for a sort without
/// one.
#[derive(Clone, Copy)]
pub struct Value {
    pub raw: i128,
    pub at: u64,
    pub name: Name,
    pub shape: Shape,
}
