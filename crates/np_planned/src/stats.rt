//! Reading stats, with a count of the reads.

ghost use Rattle.std.specs.Prelude.{◌≡◌, ◌<◌, ◌+◌, ℕ};
ghost use Rattle.np_planned.specs.Lower.{TreeState, stat_at};

use np_tree::{Stat, Tree};
use std::marker::Model;

/// A tree of which only stats are read, each read counted.
pub trait StatRead {
    /// The tree that is read.
    ghost tree: { Self → TreeState };
    /// How many reads there were.
    ghost reads: { Self → ℕ };

    /// The stat of the node at a path, as `Tree::exists` returns it.
    fn exists(&mut self, path: &str) -> Option<Stat>
        requires { reads self.old < 18_446_744_073_709_551_615 }
        ensures stat { result ≡ stat_at (tree self.old) path.now }
        ensures tree { tree self.new ≡ tree self.old }
        ensures reads { reads self.new ≡ reads self.old + 1 };
}

/// A tree that is at hand.
#[derive(Drop)]
pub struct TreeStats<'a> {
    tree: &'a Tree,
    reads: u64,
}

impl<'a> Model for TreeStats<'a> {
    ghost use Rattle.np_planned.specs.Stale.{Reading};

    ghost Value = { Reading };

    ghost view = { λ stats. record { tree = stats.tree.now; reads = stats.reads } };
}

impl<'a> TreeStats<'a> {
    /// The stats of a tree, of which none is read yet.
    pub fn new(tree: &'a Tree) -> TreeStats<'a>
        ensures { result ≡ record { tree = tree.now; reads = 0 } }
    {
        TreeStats { tree, reads: 0 }
    }
}

impl<'a> StatRead for TreeStats<'a> {
    ghost tree = { λ stats. stats.tree };

    ghost reads = { λ stats. stats.reads };

    fn exists(&mut self, path: &str) -> Option<Stat> {
        self.reads += 1;
        self.tree.exists(path)
    }
}
