//! Several operations in one change, or none.

ghost use Rattle.std.specs.Prelude.{◌≡◌, ◌≤◌, [], true, not, length, MatchResult, OnOk, OnErr};
ghost use Rattle.np_tree.specs.Lower.{AllByRecursion, IsKept, KeepsStart, Stops, after_multi, after_part, after_parts, answers_from, is_check, is_numbered, list_all, list_any, part_answer};
ghost use Rattle.np_tree.specs.Whole.{Answers, Holds, state_of, IsPart};

use crate::inner::Inner;
use np_tree_nodes::{MultiFault, Op, OpDone, TreeFault};

/// Whether some part is not a check.
fn has_change(ops: &[Op]) -> bool
    ensures { result ≡ list_any (λ part. not (is_check part)) ops.now }
{
    ops.iter().any(|op| !op.is_check())
}

impl Inner {
    /// One part, before the change takes its number.
    fn part(&mut self, session: u32, op: &Op) -> Result<OpDone, TreeFault>
        requires kept { IsKept self.old.lists.nodes self.old.lists.marks }
        requires numbered { is_numbered op.now ≡ true }
        ensures answer { Answers result (part_answer (state_of self.old) session op.now) }
        ensures ok { OnOk result
            (state_of self.new ≡ after_part (state_of self.old) session op.now) }
        ensures err { OnErr result (state_of self.new ≡ state_of self.old) }
        ensures kept { IsKept self.new.lists.nodes self.new.lists.marks }
        ensures start { KeepsStart self.old.lists self.new.lists }
        ensures proper { OnOk result (IsPart op.now) }
    {
        // A path is in the grammar.
        let _ = op.path().text();
        match op {
            Op::Create { path, bytes, mode } => {
                let made = self.create_part(session, path, bytes.items(), *mode)?;
                Ok(OpDone::Created(made))
            }
            Op::CreateUnder {
                parent,
                bytes,
                mode,
            } => {
                let made = self.create_under_part(session, parent, bytes.items(), *mode)?;
                Ok(OpDone::Created(made))
            }
            Op::Set {
                path,
                bytes,
                expect,
            } => {
                let version = self.set_part(session, path, bytes.items(), *expect)?;
                Ok(OpDone::Set(version))
            }
            Op::Delete { path, expect } => {
                self.delete_part(session, path, *expect)?;
                Ok(OpDone::Deleted)
            }
            Op::Check { path, expect } => {
                self.check(session, path.text(), *expect)?;
                Ok(OpDone::Checked)
            }
        }
    }

    /// The parts in order, up to one that stops them.
    fn parts(&mut self, session: u32, ops: &[Op], done: &mut Vec<OpDone>) -> Result<(), MultiFault>
        requires kept { IsKept self.old.lists.nodes self.old.lists.marks }
        requires few { length ops.now ≤ 4294967295 }
        requires numbered { list_all is_numbered ops.now ≡ true }
        requires none { done.old.items ≡ [] }
        ensures answer { MatchResult result
            (λ _. answers_from 0 (state_of self.old) session ops.now ≡ Ok done.new.items)
            (Stops (state_of self.old) session ops.now) }
        ensures ok { OnOk result
            (state_of self.new ≡ after_parts (state_of self.old) session ops.now) }
        ensures rest { state_of self.new
            ≡ record (state_of self.old) { nodes = self.new.lists.nodes } }
        ensures kept { IsKept self.new.lists.nodes self.new.lists.marks }
        ensures start { KeepsStart self.old.lists self.new.lists }
        ensures proper { OnOk result (AllByRecursion IsPart ops.now) }
    {
        for (index, op) in ops.iter().enumerate() {
            match self.part(session, op) {
                Ok(did) => {
                    if done.push(did).is_err() {
                        return Err(MultiFault::NoMemory);
                    }
                }
                Err(TreeFault::Refused(refusal)) => {
                    let index = index as u32;
                    return Err(MultiFault::Refused { index, refusal });
                }
                Err(TreeFault::NoMemory) => return Err(MultiFault::NoMemory),
            }
        }
        Ok(())
    }

    /// `multi`: all parts under one change number, or none.
    pub fn multi(&mut self, session: u32, ops: &[Op]) -> Result<Vec<OpDone>, MultiFault>
        requires holds { Holds self.old }
        requires few { length ops.now ≤ 4294967295 }
        requires numbered { list_all is_numbered ops.now ≡ true }
        ensures answer { MatchResult result
            (λ done. answers_from 0 (state_of self.old) session ops.now ≡ Ok done.items)
            (Stops (state_of self.old) session ops.now) }
        ensures ok { OnOk result
            (state_of self.new ≡ after_multi (state_of self.old) session ops.now) }
        ensures err { OnErr result (state_of self.new ≡ state_of self.old) }
        ensures holds { Holds self.new }
    {
        let mut done = Vec::new(self.alloc);
        if let Err(fault) = self.parts(session, ops, &mut done) {
            self.lists.roll_back();
            return Err(fault);
        }
        if !has_change(ops) {
            self.lists.forget_undo();
            return Ok(done);
        }
        self.settle();
        Ok(done)
    }
}
