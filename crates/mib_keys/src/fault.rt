ghost use Rattle.std.specs.Prelude.{◌≡◌};
ghost use Rattle.mib_keys.specs.declared.fault.SoundFault.TheVariants as faults;

use mib_model::MibFault;
use std::alloc::AllocError;
use thiserror::Error;

/// Why a book isn't sound, or could not be checked.
#[derive(Clone, Copy, Debug, PartialEq, Eq, Error)]
pub enum SoundFault {
    /// The first flaw of the tables.
    #[error("table {:?} row {}: {:?}", .0.table, .0.row, .0.code)]
    Mib(MibFault),
    #[error("out of memory")]
    Memory,
}

impl From<AllocError> for SoundFault {
    ghost from_gives = { λ _ made. made ≡ faults.Memory };

    fn from(_: AllocError) -> SoundFault {
        SoundFault::Memory
    }
}
