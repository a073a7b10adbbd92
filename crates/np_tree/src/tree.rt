//! The tree.

ghost use Rattle.std.specs.Prelude.{◌≡◌, ◌<◌, ◌≤◌, ◌+◌, ℕ, [], true, length, IfOk, MatchResult, OnOk, OnErr};
ghost use Rattle.np_tree.specs.Lower.{Begins, OnFalse, OnTrue, Stops, after_begin, after_create, after_create_under, after_delete, after_end, after_multi, after_raise, after_set, answers_from, check_answer, create_answer, create_under_answer, delete_answer, is_in, is_numbered, is_sequential, list_all, may_raise, new_tree, option_copied, option_map, set_answer, with_next_number, with_spare};
ghost use Rattle.np_tree.specs.Whole.{Answers, IsTree};
ghost use Rattle.np_tree.specs.Relations.{bytes_at, child_name, counter_at, stat_at, stat_of_child};

use crate::inner::Inner;
use np_path::Path;
use np_session::SessionFault;
use np_text::{Ample, NoMemory};
use np_tree_nodes::{Expect, Mode, MultiFault, Op, OpDone, Stat, TreeFault, TreeRefusal};
use std::alloc::Global;
use std::marker::Model;

/// The coordination tree. Finding a path takes time logarithmic in the number of nodes, and no call
/// copies a node's bytes or the tree.
#[derive(Drop)]
pub struct Tree {
    inner: Inner,
}

impl Model for Tree {
    ghost use Rattle.np_tree.specs.Lower.{TreeState};

    ghost Value = { TreeState };

    ghost use Rattle.np_tree.specs.Whole.{Holds, state_of};

    ghost view = { λ t. state_of t.inner };

    ghost invariant = { λ t. Holds t.inner };
}

impl Tree {
    /// The root alone, with change number 0.
    pub fn new(alloc: Global) -> Result<Tree, NoMemory>
        ensures { IfOk result (λ tree. with_spare tree 0 ≡ new_tree) }
    {
        Ok(Tree {
            inner: Inner::new(alloc)?,
        })
    }

    /// Takes the memory that the next `begin_session` needs.
    pub fn reserve_session(&mut self) -> Ample
        ensures ok { OnOk result (0 < self.new.spare) }
        ensures same { self.new ≡ with_spare self.old self.new.spare }
        ensures err { OnErr result (self.new ≡ self.old) }
    {
        self.inner.reserve_session()
    }

    /// Begins the next session, and answers its number.
    pub fn begin_session(&mut self) -> Result<u32, SessionFault>
        ensures answer { Begins self.old.begun self.old.spare result }
        ensures ok { OnOk result (self.new ≡ with_spare (after_begin self.old) self.new.spare) }
        ensures spare { self.old.spare ≤ self.new.spare + 1 }
        ensures err { OnErr result (self.new ≡ self.old) }
    {
        self.inner.begin_session()
    }

    /// Ends the session and removes its ephemeral nodes in one change, and answers whether it was
    /// live. Takes no memory.
    pub fn end_session(&mut self, session: u32) -> bool
        ensures answer { result ≡ is_in self.old.live session }
        ensures yes { OnTrue result (self.new ≡ after_end self.old session) }
        ensures no { OnFalse result (self.new ≡ self.old) }
    {
        self.inner.end_session(session)
    }

    /// Whether the session is live.
    pub fn is_live(&self, session: u32) -> bool
        ensures { result ≡ is_in self.now.live session }
    {
        self.inner.sessions.is_live(session)
    }

    /// The number of the last change. Its contract also guarantees what is always true of a tree.
    pub fn changes(&self) -> u64
        ensures number { result ≡ self.now.changes }
        ensures tree { IsTree self.now }
        ensures begun { (id : ℕ) → is_in self.now.live id
            ≡ true → (0 < id) × (id ≤ self.now.begun) }
    {
        // The contract of `count` says that each live session was begun.
        let _ = self.inner.sessions.count();
        self.inner.changes
    }

    /// Creates a node, and answers its path. In a sequential mode the parent's counter is appended
    /// to the name, and raised (ZooKeeper's `create`).
    pub fn create(
        &mut self,
        session: u32,
        path: &Path,
        bytes: &[u8],
        mode: Mode,
    ) -> Result<Path, TreeFault>
        ensures answer { Answers result (create_answer self.old session path.now bytes.now mode) }
        ensures ok { OnOk result
            (self.new ≡ with_next_number (after_create self.old session path.now bytes.now mode)) }
        ensures err { OnErr result (self.new ≡ self.old) }
    {
        self.inner.create(session, path, bytes, mode)
    }

    /// Creates a sequence node whose name is the parent's counter alone.
    pub fn create_under(
        &mut self,
        session: u32,
        parent: &Path,
        bytes: &[u8],
        mode: Mode,
    ) -> Result<Path, TreeFault>
        requires { is_sequential mode ≡ true }
        ensures answer { Answers result
            (create_under_answer self.old session parent.now bytes.now mode) }
        ensures ok { OnOk result
            (self.new
            ≡ with_next_number (after_create_under self.old session parent.now [] bytes.now mode)) }
        ensures err { OnErr result (self.new ≡ self.old) }
    {
        self.inner.create_under(session, parent, bytes, mode)
    }

    /// Replaces a node's bytes, and answers its new version (ZooKeeper's `setData`).
    pub fn set(
        &mut self,
        session: u32,
        path: &Path,
        bytes: &[u8],
        expect: Expect,
    ) -> Result<u64, TreeFault>
        ensures answer { Answers result (set_answer self.old session path.now bytes.now expect) }
        ensures ok { OnOk result
            (self.new ≡ with_next_number (after_set self.old path.now bytes.now)) }
        ensures err { OnErr result (self.new ≡ self.old) }
    {
        self.inner.set(session, path, bytes, expect)
    }

    /// Deletes a node that has no children.
    pub fn delete(&mut self, session: u32, path: &Path, expect: Expect) -> Result<(), TreeFault>
        ensures answer { Answers result (delete_answer self.old session path.now expect) }
        ensures ok { OnOk result (self.new ≡ with_next_number (after_delete self.old path.now)) }
        ensures err { OnErr result (self.new ≡ self.old) }
    {
        self.inner.delete(session, path, expect)
    }

    /// Whether a node has the expected version. Takes no memory.
    pub fn check(&self, session: u32, path: &Path, expect: Expect) -> Result<(), TreeRefusal>
        ensures { result ≡ check_answer self.now session path.now expect }
    {
        self.inner.check(session, path.text(), expect)
    }

    /// Makes all parts in order, under one change number, or none. Parts that are all checks take no
    /// number. If a part stops the call, what was done is undone in the same time that it took
    /// (client API: `multi`).
    pub fn multi(&mut self, session: u32, ops: &[Op]) -> Result<Vec<OpDone>, MultiFault>
        requires few { length ops.now ≤ 4294967295 }
        requires numbered { list_all is_numbered ops.now ≡ true }
        ensures answer { MatchResult result
            (λ done. answers_from 0 self.old session ops.now ≡ Ok done.items)
            (Stops self.old session ops.now) }
        ensures ok { OnOk result (self.new ≡ after_multi self.old session ops.now) }
        ensures err { OnErr result (self.new ≡ self.old) }
    {
        self.inner.multi(session, ops)
    }

    /// Raises a node's sequence counter if it is lower and the number is at most 2,147,483,648,
    /// and answers whether it did. Takes no memory.
    pub fn raise_counter(&mut self, path: &Path, to: u32) -> bool
        ensures answer { result ≡ may_raise self.old path.now to }
        ensures yes { OnTrue result (self.new ≡ after_raise self.old path.now to) }
        ensures no { OnFalse result (self.new ≡ self.old) }
    {
        self.inner.raise_counter(path, to)
    }

    /// The bytes and the stat of the node at a path. The readers take no memory and need no `Path`.
    pub fn get(&self, path: &str) -> Option<(&[u8], Stat)>
        ensures bytes { option_map (λ told. told.0.now) result ≡ bytes_at self.now path.now }
        ensures stat { option_map (λ told. told.1) result ≡ stat_at self.now path.now }
    {
        let found = self.inner.lists.find(path)?;
        let node = found.node();
        Some((node.bytes(), self.inner.stat(node)))
    }

    /// The stat of the node at a path.
    pub fn exists(&self, path: &str) -> Option<Stat>
        ensures { result ≡ stat_at self.now path.now }
    {
        let found = self.inner.lists.find(path)?;
        Some(self.inner.stat(found.node()))
    }

    /// The number that the next sequence node below the node at a path gets.
    pub fn counter(&self, path: &str) -> Option<u32>
        ensures { result ≡ counter_at self.now path.now }
    {
        let found = self.inner.lists.find(path)?;
        Some(found.node().counter())
    }

    /// The name of the child at a place, in byte order.
    pub fn child_at(&self, path: &str, at: u32) -> Option<&str>
        ensures { option_copied result ≡ child_name self.now path.now at }
    {
        let node = self.inner.lists.child(path, at)?;
        Some(node.path().name())
    }

    /// The stat of that child.
    pub fn child_stat(&self, path: &str, at: u32) -> Option<Stat>
        ensures { result ≡ stat_of_child self.now path.now at }
    {
        let node = self.inner.lists.child(path, at)?;
        Some(self.inner.stat(node))
    }
}
