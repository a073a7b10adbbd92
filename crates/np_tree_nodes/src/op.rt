//! The parts of a `multi`.

ghost use Rattle.std.specs.Prelude.{◌≡◌};

use crate::bytes::Bytes;
use crate::kind::{Expect, Mode};
use np_path::Path;

/// One part of a `multi`.
#[derive(Drop)]
pub enum Op {
    Create {
        path: Path,
        bytes: Bytes,
        mode: Mode,
    },
    CreateUnder {
        parent: Path,
        bytes: Bytes,
        mode: Mode,
    },
    Set {
        path: Path,
        bytes: Bytes,
        expect: Expect,
    },
    Delete {
        path: Path,
        expect: Expect,
    },
    Check {
        path: Path,
        expect: Expect,
    },
}

impl Op {
    ghost use Rattle.np_tree_nodes.specs.Multi.{is_check, path_of};

    /// The path that the part names.
    pub fn path(&self) -> &Path
        ensures { result.now ≡ path_of self.now }
    {
        match self {
            Op::Create {
                path,
                bytes: _,
                mode: _,
            } => path,
            Op::CreateUnder {
                parent,
                bytes: _,
                mode: _,
            } => parent,
            Op::Set {
                path,
                bytes: _,
                expect: _,
            } => path,
            Op::Delete { path, expect: _ } => path,
            Op::Check { path, expect: _ } => path,
        }
    }

    /// Whether the part changes nothing.
    pub fn is_check(&self) -> bool
        ensures { result ≡ is_check self.now }
    {
        match self {
            Op::Check { path: _, expect: _ } => true,
            Op::Create {
                path: _,
                bytes: _,
                mode: _,
            }
            | Op::CreateUnder {
                parent: _,
                bytes: _,
                mode: _,
            }
            | Op::Set {
                path: _,
                bytes: _,
                expect: _,
            }
            | Op::Delete { path: _, expect: _ } => false,
        }
    }
}

/// What a part did.
#[derive(Drop)]
pub enum OpDone {
    Created(Path),
    Set(u64),
    Deleted,
    Checked,
}
