ghost use Rattle.std.specs.Prelude.{◌≡◌};
ghost use Rattle.session.specs.Causes.{load_fault, stop_fault};
ghost use Rattle.session.specs.declared.load_fault.LoadFault.TheVariants as faults;

use mib_model::MibFault;
use mib_rows::ReadFault;
use std::alloc::AllocError;
use thiserror::Error;
use tm_io::Failed;
use whole_texts::TextFault;

/// Why the tables of a folder could not be loaded.
#[derive(Clone, Copy, Debug, PartialEq, Eq, Error)]
pub enum LoadFault {
    /// The first fault of the first faulty table.
    #[error("table {:?} row {}: {:?}", .0.table, .0.row, .0.code)]
    Mib(MibFault),
    /// A file could not be read.
    #[error("a table could not be read")]
    Failed,
    #[error("out of memory")]
    Memory,
}

impl From<ReadFault> for LoadFault {
    ghost from_gives = { λ fault made. made ≡ load_fault fault };

    fn from(fault: ReadFault) -> LoadFault {
        match fault {
            ReadFault::Mib(fault) => LoadFault::Mib(fault),
            ReadFault::Memory => LoadFault::Memory,
        }
    }
}

impl From<TextFault> for LoadFault {
    ghost from_gives = { λ fault made. made ≡ stop_fault fault };

    fn from(fault: TextFault) -> LoadFault {
        match fault {
            TextFault::Failed => LoadFault::Failed,
            TextFault::Memory => LoadFault::Memory,
        }
    }
}

impl From<Failed> for LoadFault {
    ghost from_gives = { λ _ made. made ≡ faults.Failed };

    fn from(_: Failed) -> LoadFault {
        LoadFault::Failed
    }
}

impl From<AllocError> for LoadFault {
    ghost from_gives = { λ _ made. made ≡ faults.Memory };

    fn from(_: AllocError) -> LoadFault {
        LoadFault::Memory
    }
}
