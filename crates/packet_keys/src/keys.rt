// The keys by which rows of pic and pid are looked up.
ghost use Rattle.std.specs.Prelude.{◌≡◌};
ghost use Rattle.packet_keys.specs.Keys.{packet_key};

use first_rows::By;
use mib_model::{PicRow, PidRow};

// Odd numbers without pattern, which keep the discriminants apart from the types and from each other.
const FIRST_SPREAD: u64 = 0xBF58_476D_1CE4_E5B9;

const SECOND_SPREAD: u64 = 0x94D0_49BB_1331_11EB;

/// The types and the APID that a row of pic stands for.
#[derive(Clone, Copy, Debug, PartialEq, Eq, Hash)]
pub struct CriterionKey {
    pub service: u8,
    pub subtype: u8,
    pub apid: Option<u16>,
}

/// What a packet must agree with: APID, types and discriminants.
#[derive(Clone, Copy, Debug, PartialEq, Eq, Hash)]
pub struct PacketKey {
    pub apid: u16,
    pub service: u8,
    pub subtype: u8,
    pub pi1_val: u64,
    pub pi2_val: u64,
}

/// Rows of pic by the types and the APID that they stand for.
#[derive(Drop)]
pub struct ByCriterion;

impl By for ByCriterion {
    ghost use Rattle.std.specs.Prelude.{Some};
    ghost use Rattle.packet_keys.specs.Keys.{criterion_key};

    type Row = PicRow;

    type Key = CriterionKey;

    ghost key_of = { λ row. Some (criterion_key row) };

    fn key(row: &PicRow) -> Option<CriterionKey> {
        Some(CriterionKey {
            service: row.service,
            subtype: row.subtype,
            apid: row.apid,
        })
    }

    #[inline(always)]
    fn number(key: &CriterionKey) -> u64 {
        let apid = match key.apid {
            Some(apid) => u64::from(apid) + 1,
            None => 0,
        };
        apid * 65536 + u64::from(key.service) * 256 + u64::from(key.subtype)
    }
}

/// What a packet of a row of pid agrees with.
pub fn packet_key(row: &PidRow) -> PacketKey
    ensures { result ≡ packet_key row.now }
{
    PacketKey {
        apid: row.apid,
        service: row.service,
        subtype: row.subtype,
        pi1_val: row.pi1_val,
        pi2_val: row.pi2_val,
    }
}

/// Rows of pid by what a packet must agree with.
#[derive(Drop)]
pub struct ByPacket;

impl By for ByPacket {
    ghost use Rattle.std.specs.Prelude.{Some};

    type Row = PidRow;

    type Key = PacketKey;

    ghost key_of = { λ row. Some (packet_key row) };

    fn key(row: &PidRow) -> Option<PacketKey> {
        Some(packet_key(row))
    }

    #[inline(always)]
    fn number(key: &PacketKey) -> u64 {
        let types = u64::from(key.apid) * 65536
            + u64::from(key.service) * 256
            + u64::from(key.subtype);
        types
            .wrapping_add(key.pi1_val.wrapping_mul(FIRST_SPREAD))
            .wrapping_add(key.pi2_val.wrapping_mul(SECOND_SPREAD))
    }
}
