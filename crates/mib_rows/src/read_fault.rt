ghost use Rattle.std.specs.Prelude.{◌≡◌};
ghost use Rattle.mib_rows.specs.declared.read_fault.ReadFault.TheVariants as faults;

use mib_model::MibFault;
use std::alloc::{AllocError, AllocFailed};
use thiserror::Error;

/// Why rows could not be read.
#[derive(Clone, Copy, Debug, PartialEq, Eq, Error)]
pub enum ReadFault {
    /// The first fault of the text.
    #[error("row {} column {}: {:?}", .0.row, .0.column, .0.code)]
    Mib(MibFault),
    #[error("out of memory")]
    Memory,
}

impl From<MibFault> for ReadFault {
    ghost from_gives = { λ fault made. made ≡ faults.Mib fault };

    fn from(fault: MibFault) -> ReadFault {
        ReadFault::Mib(fault)
    }
}

impl From<AllocError> for ReadFault {
    ghost from_gives = { λ _ made. made ≡ faults.Memory };

    fn from(_: AllocError) -> ReadFault {
        ReadFault::Memory
    }
}

impl<T: Drop> From<AllocFailed<T>> for ReadFault {
    ghost from_gives = { λ _ made. made ≡ faults.Memory };

    fn from(_: AllocFailed<T>) -> ReadFault {
        ReadFault::Memory
    }
}
