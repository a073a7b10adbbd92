//! The fields of the tree, and what each call does to them.

ghost use Rattle.std.specs.Prelude.{◌≡◌, ◌<◌, ◌≤◌, ◌+◌, [], true, IfOk, OnOk, OnErr};
ghost use Rattle.np_tree.specs.Lower.{Begins, IsKept, KeepsStart, MakesName, OnFalse, OnTrue, after_begin, after_create, after_create_under, after_delete, after_end, after_raise, after_set, child_answer, create_answer, create_under_answer, delete_answer, is_in, is_path, is_sequential, may_raise, new_tree, next_change, set_answer, stat_of, with_next_number, with_spare};
ghost use Rattle.np_tree.specs.Whole.{Answers, Holds, state_of};

use np_path::Path;
use np_session::{SessionFault, Sessions};
use np_text::{Ample, NoMemory};
use np_tree_nodes::{Expect, Mode, Node, NodeLists, Stat, TreeFault, TreeRefusal, child_path};
use std::alloc::Global;

/// The fields of the tree: its lists, its sessions, and the number of its last change.
#[derive(Drop)]
pub struct Inner {
    pub alloc: Global,
    pub lists: NodeLists,
    pub sessions: Sessions,
    pub changes: u64,
}

impl Inner {
    /// The root alone.
    pub fn new(alloc: Global) -> Result<Inner, NoMemory>
        ensures state { IfOk result (λ inner. with_spare (state_of inner) 0 ≡ new_tree) }
        ensures holds { IfOk result Holds }
    {
        Ok(Inner {
            alloc,
            lists: NodeLists::new(alloc)?,
            sessions: Sessions::new(alloc),
            changes: 0,
        })
    }

    /// `reserve_session`.
    pub fn reserve_session(&mut self) -> Ample
        requires { Holds self.old }
        ensures ok { OnOk result (0 < (state_of self.new).spare) }
        ensures same { state_of self.new
            ≡ with_spare (state_of self.old) (state_of self.new).spare }
        ensures err { OnErr result (state_of self.new ≡ state_of self.old) }
        ensures holds { Holds self.new }
    {
        self.sessions.reserve().map_err(|_| NoMemory)
    }

    /// `begin_session`.
    pub fn begin_session(&mut self) -> Result<u32, SessionFault>
        requires { Holds self.old }
        ensures answer { Begins (state_of self.old).begun (state_of self.old).spare result }
        ensures ok { OnOk result
            (state_of self.new
            ≡ with_spare (after_begin (state_of self.old)) (state_of self.new).spare) }
        ensures spare { (state_of self.old).spare ≤ (state_of self.new).spare + 1 }
        ensures err { OnErr result (state_of self.new ≡ state_of self.old) }
        ensures holds { Holds self.new }
    {
        self.sessions.begin()
    }

    /// `end_session`.
    pub fn end_session(&mut self, session: u32) -> bool
        requires { Holds self.old }
        ensures answer { result ≡ is_in (state_of self.old).live session }
        ensures yes { OnTrue result (state_of self.new ≡ after_end (state_of self.old) session) }
        ensures no { OnFalse result (state_of self.new ≡ state_of self.old) }
        ensures holds { Holds self.new }
    {
        if !self.sessions.end(session) {
            return false;
        }
        let change = self.next_change();
        self.lists.release(change, session);
        self.changes = change;
        true
    }

    /// `create`.
    pub fn create(
        &mut self,
        session: u32,
        path: &Path,
        bytes: &[u8],
        mode: Mode,
    ) -> Result<Path, TreeFault>
        requires { Holds self.old }
        ensures answer { Answers result
            (create_answer (state_of self.old) session path.now bytes.now mode) }
        ensures ok { OnOk result
            (state_of self.new
            ≡ with_next_number (after_create (state_of self.old) session path.now bytes.now mode)) }
        ensures err { OnErr result (state_of self.new ≡ state_of self.old) }
        ensures holds { Holds self.new }
    {
        let made = self.create_part(session, path, bytes, mode)?;
        self.settle();
        Ok(made)
    }

    /// `create_under`.
    pub fn create_under(
        &mut self,
        session: u32,
        parent: &Path,
        bytes: &[u8],
        mode: Mode,
    ) -> Result<Path, TreeFault>
        requires holds { Holds self.old }
        requires sequential { is_sequential mode ≡ true }
        ensures answer { Answers result
            (create_under_answer (state_of self.old) session parent.now bytes.now mode) }
        ensures ok { OnOk result (state_of self.new ≡ with_next_number
            (after_create_under (state_of self.old) session parent.now [] bytes.now mode)) }
        ensures err { OnErr result (state_of self.new ≡ state_of self.old) }
        ensures holds { Holds self.new }
    {
        let made = self.create_under_part(session, parent, bytes, mode)?;
        self.settle();
        Ok(made)
    }

    /// `set`.
    pub fn set(
        &mut self,
        session: u32,
        path: &Path,
        bytes: &[u8],
        expect: Expect,
    ) -> Result<u64, TreeFault>
        requires { Holds self.old }
        ensures answer { Answers result
            (set_answer (state_of self.old) session path.now bytes.now expect) }
        ensures ok { OnOk result
            (state_of self.new
            ≡ with_next_number (after_set (state_of self.old) path.now bytes.now)) }
        ensures err { OnErr result (state_of self.new ≡ state_of self.old) }
        ensures holds { Holds self.new }
    {
        let version = self.set_part(session, path, bytes, expect)?;
        self.settle();
        Ok(version)
    }

    /// `delete`.
    pub fn delete(&mut self, session: u32, path: &Path, expect: Expect) -> Result<(), TreeFault>
        requires { Holds self.old }
        ensures answer { Answers result
            (delete_answer (state_of self.old) session path.now expect) }
        ensures ok { OnOk result
            (state_of self.new ≡ with_next_number (after_delete (state_of self.old) path.now)) }
        ensures err { OnErr result (state_of self.new ≡ state_of self.old) }
        ensures holds { Holds self.new }
    {
        self.delete_part(session, path, expect)?;
        self.settle();
        Ok(())
    }

    /// `raise_counter`.
    pub fn raise_counter(&mut self, path: &Path, to: u32) -> bool
        requires { Holds self.old }
        ensures answer { result ≡ may_raise (state_of self.old) path.now to }
        ensures yes { OnTrue result
            (state_of self.new ≡ after_raise (state_of self.old) path.now to) }
        ensures no { OnFalse result (state_of self.new ≡ state_of self.old) }
        ensures holds { Holds self.new }
    {
        let Some(found) = self.admit_raise(path.text(), to) else {
            return false;
        };
        let edit = self.lists.raise(found, to);
        self.lists.make(edit);
        true
    }

    /// The stat of a node.
    pub fn stat(&self, node: &Node) -> Stat
        requires { IsKept self.now.lists.nodes self.now.lists.marks }
        ensures { result ≡ stat_of self.now.lists.nodes node.now }
    {
        node.stat(self.lists.count_children(node.path().text()))
    }

    /// The number of the change that is being made.
    fn next_change(&self) -> u64
        ensures { result ≡ next_change (state_of self.now) }
    {
        self.changes.saturating_add(1)
    }

    /// The call was accepted: its change takes its number.
    pub fn settle(&mut self)
        requires { IsKept self.old.lists.nodes self.old.lists.marks }
        ensures state { state_of self.new ≡ with_next_number (state_of self.old) }
        ensures kept { IsKept self.new.lists.nodes self.new.lists.marks }
        ensures undo { self.new.lists.undo.items ≡ [] }
    {
        self.changes = self.next_change();
        self.lists.forget_undo();
    }

    /// Makes a child, if the tests that come after the session's pass.
    fn make(
        &mut self,
        session: u32,
        above: &str,
        name: &str,
        bytes: &[u8],
        mode: Mode,
    ) -> Result<Path, TreeFault>
        requires kept { IsKept self.old.lists.nodes self.old.lists.marks }
        requires name { MakesName name.now mode }
        ensures answer { Answers result
            (child_answer (state_of self.old) above.now name.now bytes.now mode) }
        ensures ok { OnOk result
            (state_of self.new
            ≡ after_create_under (state_of self.old) session above.now name.now bytes.now mode) }
        ensures err { OnErr result (state_of self.new ≡ state_of self.old) }
        ensures kept { IsKept self.new.lists.nodes self.new.lists.marks }
        ensures start { KeepsStart self.old.lists self.new.lists }
        ensures undo { OnErr result (self.new.lists.undo.items ≡ self.old.lists.undo.items) }
    {
        let spot = self.admit_child(above, name, bytes, mode)?;
        let path = child_path(spot.parent(), name, mode)?;
        let change = self.next_change();
        let edit = self
            .lists
            .creation(change, session, spot, name, bytes, mode)?;
        self.lists.edit(edit)?;
        Ok(path)
    }

    /// `create`, before the change takes its number.
    pub fn create_part(
        &mut self,
        session: u32,
        path: &Path,
        bytes: &[u8],
        mode: Mode,
    ) -> Result<Path, TreeFault>
        requires { IsKept self.old.lists.nodes self.old.lists.marks }
        ensures answer { Answers result
            (create_answer (state_of self.old) session path.now bytes.now mode) }
        ensures ok { OnOk result
            (state_of self.new ≡ after_create (state_of self.old) session path.now bytes.now mode) }
        ensures err { OnErr result (state_of self.new ≡ state_of self.old) }
        ensures kept { IsKept self.new.lists.nodes self.new.lists.marks }
        ensures start { KeepsStart self.old.lists self.new.lists }
        ensures undo { OnErr result (self.new.lists.undo.items ≡ self.old.lists.undo.items) }
        ensures path { OnOk result (is_path path.now ≡ true) }
    {
        if !self.sessions.is_live(session) {
            return Err(TreeFault::Refused(TreeRefusal::SessionExpired));
        }
        let Some(above) = path.parent() else {
            return Err(TreeFault::Refused(TreeRefusal::NodeExists));
        };
        // A path is in the grammar, so its name is an element.
        let _ = path.text();
        self.make(session, above, path.name(), bytes, mode)
    }

    /// `create_under`, before the change takes its number.
    pub fn create_under_part(
        &mut self,
        session: u32,
        parent: &Path,
        bytes: &[u8],
        mode: Mode,
    ) -> Result<Path, TreeFault>
        requires kept { IsKept self.old.lists.nodes self.old.lists.marks }
        requires sequential { is_sequential mode ≡ true }
        ensures answer { Answers result
            (create_under_answer (state_of self.old) session parent.now bytes.now mode) }
        ensures ok { OnOk result
            (state_of self.new
            ≡ after_create_under (state_of self.old) session parent.now [] bytes.now mode) }
        ensures err { OnErr result (state_of self.new ≡ state_of self.old) }
        ensures kept { IsKept self.new.lists.nodes self.new.lists.marks }
        ensures start { KeepsStart self.old.lists self.new.lists }
        ensures undo { OnErr result (self.new.lists.undo.items ≡ self.old.lists.undo.items) }
        ensures path { OnOk result (is_path parent.now ≡ true) }
    {
        if !self.sessions.is_live(session) {
            return Err(TreeFault::Refused(TreeRefusal::SessionExpired));
        }
        self.make(session, parent.text(), "", bytes, mode)
    }

    /// `set`, before the change takes its number.
    pub fn set_part(
        &mut self,
        session: u32,
        path: &Path,
        bytes: &[u8],
        expect: Expect,
    ) -> Result<u64, TreeFault>
        requires { IsKept self.old.lists.nodes self.old.lists.marks }
        ensures answer { Answers result
            (set_answer (state_of self.old) session path.now bytes.now expect) }
        ensures ok { OnOk result
            (state_of self.new ≡ after_set (state_of self.old) path.now bytes.now) }
        ensures err { OnErr result (state_of self.new ≡ state_of self.old) }
        ensures kept { IsKept self.new.lists.nodes self.new.lists.marks }
        ensures start { KeepsStart self.old.lists self.new.lists }
        ensures undo { OnErr result (self.new.lists.undo.items ≡ self.old.lists.undo.items) }
        ensures path { OnOk result (is_path path.now ≡ true) }
    {
        let (found, version) = self.admit_set(session, path.text(), bytes, expect)?;
        let change = self.next_change();
        let edit = self.lists.replacement(change, found, bytes, version)?;
        self.lists.edit(edit)?;
        Ok(version)
    }

    /// `delete`, before the change takes its number.
    pub fn delete_part(
        &mut self,
        session: u32,
        path: &Path,
        expect: Expect,
    ) -> Result<(), TreeFault>
        requires { IsKept self.old.lists.nodes self.old.lists.marks }
        ensures answer { Answers result
            (delete_answer (state_of self.old) session path.now expect) }
        ensures ok { OnOk result (state_of self.new ≡ after_delete (state_of self.old) path.now) }
        ensures err { OnErr result (state_of self.new ≡ state_of self.old) }
        ensures kept { IsKept self.new.lists.nodes self.new.lists.marks }
        ensures start { KeepsStart self.old.lists self.new.lists }
        ensures undo { OnErr result (self.new.lists.undo.items ≡ self.old.lists.undo.items) }
        ensures path { OnOk result (is_path path.now ≡ true) }
    {
        let found = self.admit_delete(session, path.text(), expect)?;
        let change = self.next_change();
        let edit = self.lists.removal(change, found);
        self.lists.edit(edit)?;
        Ok(())
    }
}
