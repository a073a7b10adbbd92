//! One node.

ghost use Rattle.std.specs.Prelude.{◌≡◌};

use crate::bytes::Bytes;
use crate::kind::Stat;
use np_path::Path;

/// A node as it is stored.
#[derive(Drop)]
pub struct Node {
    pub(crate) path: Path,
    pub(crate) bytes: Bytes,
    pub(crate) facts: Facts,
}

impl Node {
    ghost use Rattle.np_tree_nodes.specs.Nodes.{stat_with};

    /// The node's path.
    pub fn path(&self) -> &Path
        ensures { result.now ≡ self.now.path }
    {
        &self.path
    }

    /// The node's bytes.
    pub fn bytes(&self) -> &[u8]
        ensures { result.now ≡ self.now.bytes }
    {
        self.bytes.items()
    }

    /// The session that an ephemeral node goes with.
    pub fn owner(&self) -> Option<u32>
        ensures { result ≡ self.now.facts.owner }
    {
        self.facts.owner
    }

    /// How many times the node's bytes were modified.
    pub fn version(&self) -> u64
        ensures { result ≡ self.now.facts.version }
    {
        self.facts.version
    }

    /// The number that the next sequence node below the node gets.
    pub fn counter(&self) -> u32
        ensures { result ≡ self.now.facts.counter }
    {
        self.facts.counter
    }

    /// The node's stat, if it has this many children.
    pub fn stat(&self, children: u32) -> Stat
        ensures { result ≡ stat_with children self.now }
    {
        Stat {
            czxid: self.facts.czxid,
            mzxid: self.facts.mzxid,
            pzxid: self.facts.pzxid,
            version: self.facts.version,
            owner: self.facts.owner,
            children,
        }
    }
}

/// What changes of a node beside its bytes.
#[derive(Clone, Copy)]
pub(crate) struct Facts {
    pub(crate) version: u64,
    pub(crate) czxid: u64,
    pub(crate) mzxid: u64,
    pub(crate) pzxid: u64,
    pub(crate) owner: Option<u32>,
    pub(crate) counter: u32,
}

impl Facts {
    /// Those of a new node.
    pub(crate) fn new(change: u64, owner: Option<u32>) -> Facts
        ensures { result ≡ record {
          version = 0;
          czxid = change;
          mzxid = change;
          pzxid = change;
          owner = owner;
          counter = 0;
        } }
    {
        Facts {
            version: 0,
            czxid: change,
            mzxid: change,
            pzxid: change,
            owner,
            counter: 0,
        }
    }
}
