//! Why no path is made.

ghost use Rattle.std.specs.Prelude.{◌≡◌};
ghost use Rattle.np_path.specs.declared.fault.PathFault.TheVariants.{NoMemory};

use std::alloc::AllocError;

/// Why a text or a name makes no path.
#[derive(Clone, Copy, Debug, PartialEq, Eq)]
pub enum PathFault {
    /// It isn't in the grammar. `place` is its first fault, in bytes from its beginning.
    Bad { place: usize },
    /// Memory for the text ran out.
    NoMemory,
}

impl From<AllocError> for PathFault {
    ghost from_gives = { λ _ fault. fault ≡ NoMemory };

    fn from(_: AllocError) -> PathFault {
        PathFault::NoMemory
    }
}
