//! Modes, expectations and stats.

ghost use Rattle.std.specs.Prelude.{◌≡◌};
ghost use Rattle.np_tree_nodes.specs.Tests.{is_ephemeral, is_expected, is_sequential};

/// How a node is created (ZooKeeper's `CreateMode`).
#[derive(Clone, Copy, Debug, PartialEq, Eq)]
pub enum Mode {
    Persistent,
    Ephemeral,
    PersistentSequential,
    EphemeralSequential,
}

impl Mode {
    /// Whether the node goes with its session.
    pub(crate) fn is_ephemeral(self) -> bool
        ensures { result ≡ is_ephemeral self }
    {
        match self {
            Mode::Ephemeral | Mode::EphemeralSequential => true,
            Mode::Persistent | Mode::PersistentSequential => false,
        }
    }

    /// Whether the parent's counter is appended to the node's name.
    pub fn is_sequential(self) -> bool
        ensures { result ≡ is_sequential self }
    {
        match self {
            Mode::PersistentSequential | Mode::EphemeralSequential => true,
            Mode::Persistent | Mode::Ephemeral => false,
        }
    }
}

/// Which version a call expects.
#[derive(Clone, Copy, Debug, PartialEq, Eq)]
pub enum Expect {
    Any,
    Exactly(u64),
}

impl Expect {
    /// Whether a node of that version is expected.
    pub fn is_met(self, version: u64) -> bool
        ensures { result ≡ is_expected self version }
    {
        match self {
            Expect::Any => true,
            Expect::Exactly(wanted) => version == wanted,
        }
    }
}

/// What is known of a node beside its bytes (ZooKeeper's `Stat`).
#[derive(Clone, Copy, Debug, PartialEq, Eq)]
pub struct Stat {
    /// The change that created the node.
    pub czxid: u64,
    /// The change that last modified its bytes.
    pub mzxid: u64,
    /// The change that last modified its list of children.
    pub pzxid: u64,
    /// How many times its bytes were modified.
    pub version: u64,
    /// The session that an ephemeral node goes with.
    pub owner: Option<u32>,
    /// How many children it has.
    pub children: u32,
}
