//! A tree in which a machine writes what changes.

ghost use Rattle.std.specs.Prelude.{◌≡◌, IfOk};
ghost use Rattle.np_keeper.specs.Lower.{IsLater, start};
ghost use Rattle.np_tree.proofs.LaterLemmas.{later-than-itself};
ghost use Rattle.np_keeper.specs.Keeper.{Holds};

use crate::change::write;
use crate::range::changes_are_in_range;
use crate::start::first_tree;
use np_changes::Changes;
use np_config::Config;
use np_look::{Rows, Store};
use np_text::{Ample, NoMemory};
use np_tree::Tree;
use std::alloc::Global;
use std::marker::Model;

/// From this change number on, `write` answers as if memory had run out. An event takes at most two
/// numbers, and a journal has at most 262,144 events, so no journal comes near it.
const MOST_CHANGES: u64 = 16_777_214;

/// A coordination tree in which a machine writes. Contracts see the tree.
#[derive(Drop)]
pub struct TreeStore {
    alloc: Global,
    tree: Tree,
}

impl Model for TreeStore {
    ghost use Rattle.np_keeper.specs.Lower.{TreeState};

    ghost Value = { TreeState };

    ghost view = { λ store. store.tree };
}

impl TreeStore {
    /// A new tree, with the configuration's state before the first event. An error says that memory
    /// ran out.
    pub fn new(alloc: Global, config: &Config) -> Result<TreeStore, NoMemory>
        ensures { IfOk result (λ store. Holds config.now (start config.now) store) }
    {
        config.know_soundness();
        let tree = first_tree(alloc, config)?;
        Ok(TreeStore { alloc, tree })
    }

    /// A store in a tree that the caller has.
    pub fn of_tree(alloc: Global, tree: Tree) -> TreeStore
        ensures { result ≡ tree }
    {
        TreeStore { alloc, tree }
    }

    /// The tree.
    pub fn tree(&self) -> &Tree
        ensures { result.now ≡ self.now }
    {
        &self.tree
    }

    /// The tree alone.
    pub fn into_tree(self) -> Tree
        ensures { result ≡ self }
    {
        self.tree
    }
}

impl Store for TreeStore {
    ghost holds = { λ store c s. Holds c s store };

    ghost later = { IsLater };

    ghost same = { later-than-itself };

    fn write<R: Rows>(&mut self, rows: &R, changes: &Changes) -> Ample {
        rows.config().know_soundness();
        changes_are_in_range(changes);
        if self.tree.changes() >= MOST_CHANGES {
            return Err(NoMemory);
        }
        write(self.alloc, &mut self.tree, rows, changes)
    }
}
