//! Why no session begins.

ghost use Rattle.std.specs.Prelude.{◌≡◌};
ghost use Rattle.np_session.specs.declared.fault.SessionFault.TheVariants.{NoMemory};

use std::alloc::{AllocError, AllocFailed};

/// Why no session begins.
#[derive(Clone, Copy, Debug, PartialEq, Eq)]
pub enum SessionFault {
    /// All 4,294,967,295 numbers were used.
    Spent,
    /// Memory ran out.
    NoMemory,
}

impl From<AllocError> for SessionFault {
    ghost from_gives = { λ _ fault. fault ≡ NoMemory };

    fn from(_: AllocError) -> SessionFault {
        SessionFault::NoMemory
    }
}

impl<T: Drop> From<AllocFailed<T>> for SessionFault {
    ghost from_gives = { λ _ fault. fault ≡ NoMemory };

    fn from(_: AllocFailed<T>) -> SessionFault {
        SessionFault::NoMemory
    }
}
