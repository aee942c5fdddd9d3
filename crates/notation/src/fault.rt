//! What ends a line early.
ghost use Rattle.std.specs.Prelude.{◌≡◌};
ghost use Rattle.notation.specs.Fault.{IsOfMemory};
ghost use Rattle.notation.specs.declared.fault.Fault.TheVariants.{Failed};

use std::alloc::{AllocError, AllocFailed};
use std::io;

/// Why the reading of a line ends early.
#[derive(Debug, Drop)]
pub enum Fault {
    /// The line means nothing: it is counted, and the next one is read.
    Malformed,
    /// Memory, a read or a write failed: the program ends.
    Failed(io::Error),
}

impl From<io::Error> for Fault {
    ghost from_gives = { λ e f. f ≡ Failed e };

    fn from(e: io::Error) -> Fault {
        Fault::Failed(e)
    }
}

impl From<AllocError> for Fault {
    ghost from_gives = { λ _ f. IsOfMemory f };

    fn from(e: AllocError) -> Fault {
        Fault::Failed(io::Error::from(e))
    }
}

impl<T: Drop> From<AllocFailed<T>> for Fault {
    ghost from_gives = { λ _ f. IsOfMemory f };

    fn from(e: AllocFailed<T>) -> Fault {
        Fault::Failed(io::Error::from(AllocError::from(e)))
    }
}
