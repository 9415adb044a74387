// Rows by their packets.
ghost use Rattle.std.specs.Prelude.{◌≡◌, ℕ};

use first_rows::By;
use mib_model::{PidRow, PlfRow, TpcfRow};
use std::marker::PhantomData;

/// A row that is of a packet.
pub trait OfPacket: Copy + Drop {
    ghost spid_of: { Self → ℕ };

    /// The SPID of its packet.
    fn spid(&self) -> u32
        ensures { result ≡ spid_of self.now };
}

impl OfPacket for PidRow {
    ghost spid_of = { λ row. row.spid };

    fn spid(&self) -> u32 {
        self.spid
    }
}

impl OfPacket for PlfRow {
    ghost spid_of = { λ row. row.spid };

    fn spid(&self) -> u32 {
        self.spid
    }
}

impl OfPacket for TpcfRow {
    ghost spid_of = { λ row. row.spid };

    fn spid(&self) -> u32 {
        self.spid
    }
}

/// Rows by the SPIDs of their packets.
#[derive(Drop)]
pub struct BySpid<R: OfPacket> {
    of: PhantomData<R>,
}

impl<R: OfPacket> By for BySpid<R> {
    ghost use Rattle.std.specs.Prelude.{Some};

    type Row = R;

    type Key = u32;

    ghost key_of = { λ row. Some (R.spid_of row) };

    fn key(row: &R) -> Option<u32> {
        Some(row.spid())
    }

    #[inline(always)]
    fn number(spid: &u32) -> u64 {
        u64::from(*spid)
    }
}
