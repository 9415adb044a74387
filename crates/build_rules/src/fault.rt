ghost use Rattle.std.specs.Prelude.{◌≡◌};
ghost use Rattle.build_rules.specs.declared.fault.BuildFault.TheVariants as faults;

use mib_model::Ended;
use std::alloc::AllocError;

/// Why no packet is built. Items and places count from 1.
#[derive(Clone, Copy)]
pub enum BuildFault {
    /// No row of pid has the SPID.
    NoSpid,
    /// The row's APID is that of idle packets, or has no room in a header.
    Apid { apid: u16 },
    /// The row's value for this discriminant, 1 or 2, has no room in it.
    Discriminant { which: u8 },
    /// The item for this place is missing or has another name, or it is left over.
    Items { at: u32 },
    /// The item's number for this place isn't one of the parameter.
    Range { at: u32 },
    /// The places end so before the items do.
    Ends { ended: Ended },
    /// The packet would have more octets than a packet may have.
    Long,
    /// The least bit that would be set to 1 and to 0.
    Clash { bit: u64 },
    /// A line asks for no packet.
    Ask,
    /// Want of memory.
    Memory,
}

impl From<AllocError> for BuildFault {
    ghost from_gives = { λ _ made. made ≡ faults.Memory };

    fn from(_: AllocError) -> BuildFault {
        BuildFault::Memory
    }
}
