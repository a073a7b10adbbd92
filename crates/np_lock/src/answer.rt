//! What calls answer.

ghost use Rattle.std.specs.Prelude.{◌≡◌};
ghost use Rattle.np_lock.specs.Faults.{fault_of, no_memory};

use np_text::NoMemory;
use np_tree::{TreeFault, TreeRefusal};

/// The place of a session in a queue.
#[derive(Clone, Copy, Debug, PartialEq, Eq)]
pub enum Place {
    /// It is the first, and holds the lock.
    Held,
    /// This many other sessions are ahead of it, at least one.
    Queued { ahead: u32 },
}

/// The answer to a session that tries a lock.
#[derive(Clone, Copy, Debug, PartialEq, Eq)]
pub enum Tried {
    /// It holds the lock.
    Held,
    /// Another session holds it.
    Busy { holder: u32 },
}

/// Why a call did nothing.
#[derive(Clone, Copy, Debug, PartialEq, Eq)]
pub enum LockFault {
    /// The tree refuses the node.
    Refused(TreeRefusal),
    /// Memory ran out.
    NoMemory,
}

impl From<TreeFault> for LockFault {
    ghost from_gives = { λ fault made. made ≡ fault_of fault };

    fn from(fault: TreeFault) -> LockFault {
        match fault {
            TreeFault::Refused(refusal) => LockFault::Refused(refusal),
            TreeFault::NoMemory => LockFault::NoMemory,
        }
    }
}

impl From<NoMemory> for LockFault {
    ghost from_gives = { λ _ made. made ≡ no_memory };

    fn from(_: NoMemory) -> LockFault {
        LockFault::NoMemory
    }
}
