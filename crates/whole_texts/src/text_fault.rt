ghost use Rattle.std.specs.Prelude.{◌≡◌};
ghost use Rattle.whole_texts.specs.declared.text_fault.TextFault.TheVariants as faults;

use std::alloc::AllocError;
use thiserror::Error;
use tm_io::Failed;

/// Why what a source has left wasn't read.
#[derive(Clone, Copy, Debug, PartialEq, Eq, Error)]
pub enum TextFault {
    #[error("a text could not be read")]
    Failed,
    #[error("out of memory")]
    Memory,
}

impl From<Failed> for TextFault {
    ghost from_gives = { λ _ made. made ≡ faults.Failed };

    fn from(_: Failed) -> TextFault {
        TextFault::Failed
    }
}

impl From<AllocError> for TextFault {
    ghost from_gives = { λ _ made. made ≡ faults.Memory };

    fn from(_: AllocError) -> TextFault {
        TextFault::Memory
    }
}
