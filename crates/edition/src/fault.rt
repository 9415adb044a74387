ghost use Rattle.std.specs.Prelude.{◌≡◌};
ghost use Rattle.edition.specs.Faults.{save_fault_of};
ghost use Rattle.edition.specs.declared.fault.SaveFault.TheVariants as faults;

use mib_keys::SoundFault;
use mib_model::MibFault;
use std::alloc::AllocError;
use thiserror::Error;

/// Why tables are not made an edition.
#[derive(Clone, Copy, Debug, PartialEq, Eq, Error)]
pub enum SaveFault {
    /// They aren't sound: their first flaw.
    #[error("table {:?} row {}: {:?}", .0.table, .0.row, .0.code)]
    Mib(MibFault),
    #[error("out of memory")]
    Memory,
}

impl From<AllocError> for SaveFault {
    ghost from_gives = { λ _ made. made ≡ faults.Memory };

    fn from(_: AllocError) -> SaveFault {
        SaveFault::Memory
    }
}

impl From<SoundFault> for SaveFault {
    ghost from_gives = { λ fault made. made ≡ save_fault_of fault };

    fn from(fault: SoundFault) -> SaveFault {
        match fault {
            SoundFault::Mib(fault) => SaveFault::Mib(fault),
            SoundFault::Memory => SaveFault::Memory,
        }
    }
}
