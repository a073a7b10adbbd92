//! Why a call is refused.

ghost use Rattle.std.specs.Prelude.{◌≡◌};
ghost use Rattle.np_tree_nodes.specs.Codes.{code_of};
ghost use Rattle.np_tree_nodes.specs.declared.refusal.TreeFault.TheVariants.{Refused, NoMemory};

use std::alloc::AllocError;

/// The first failing test of a call, in ZooKeeper's words except for the last four.
#[derive(Clone, Copy, Debug, PartialEq, Eq)]
pub enum TreeRefusal {
    /// The session isn't live.
    SessionExpired,
    /// There is no node at the path, or none above it.
    NoNode,
    /// The node above is an ephemeral.
    NoChildrenForEphemerals,
    /// There is a node at the path already.
    NodeExists,
    /// The node has another version than the expected one.
    BadVersion { kept: u64 },
    /// The node has children.
    NotEmpty { children: u32 },
    /// The sequence counter of the node above is past 2,147,483,647.
    SequenceSpent,
    /// There are more than 65,536 bytes.
    TooLarge,
    /// The change number, the node's version or the count of children can't grow.
    ChangesSpent,
    /// The root can't be deleted.
    RootKept,
}

impl TreeRefusal {
    /// ZooKeeper's error code, if ZooKeeper has the refusal.
    pub fn code(&self) -> Option<i32>
        ensures { result ≡ code_of self.now }
    {
        match self {
            TreeRefusal::SessionExpired => Some(-112),
            TreeRefusal::NoNode => Some(-101),
            TreeRefusal::NoChildrenForEphemerals => Some(-108),
            TreeRefusal::NodeExists => Some(-110),
            TreeRefusal::BadVersion { kept: _ } => Some(-103),
            TreeRefusal::NotEmpty { children: _ } => Some(-111),
            TreeRefusal::SequenceSpent
            | TreeRefusal::TooLarge
            | TreeRefusal::ChangesSpent
            | TreeRefusal::RootKept => None,
        }
    }
}

/// Why a call did nothing.
#[derive(Clone, Copy, Debug, PartialEq, Eq)]
pub enum TreeFault {
    /// A test of the call failed.
    Refused(TreeRefusal),
    /// All tests passed, and memory ran out.
    NoMemory,
}

impl From<TreeRefusal> for TreeFault {
    ghost from_gives = { λ refusal fault. fault ≡ Refused refusal };

    fn from(refusal: TreeRefusal) -> TreeFault {
        TreeFault::Refused(refusal)
    }
}

impl From<np_text::NoMemory> for TreeFault {
    ghost from_gives = { λ _ fault. fault ≡ NoMemory };

    fn from(_: np_text::NoMemory) -> TreeFault {
        TreeFault::NoMemory
    }
}

impl From<AllocError> for TreeFault {
    ghost from_gives = { λ _ fault. fault ≡ NoMemory };

    fn from(_: AllocError) -> TreeFault {
        TreeFault::NoMemory
    }
}

/// Why a `multi` did nothing.
#[derive(Clone, Copy, Debug, PartialEq, Eq)]
pub enum MultiFault {
    /// The part at this place is the first that is refused after those before it.
    Refused { index: u32, refusal: TreeRefusal },
    /// Memory ran out.
    NoMemory,
}
