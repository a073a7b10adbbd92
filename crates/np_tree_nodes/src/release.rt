//! The end of a session: its ephemeral nodes go, one for each of its marks.

ghost use Rattle.std.specs.Prelude.{◌≡◌, MatchOption};
ghost use Rattle.np_tree_nodes.specs.After.{nodes_after_end};
ghost use Rattle.np_tree_nodes.specs.Kept.{EndsOne, IsKept};

use crate::edit::Edit;
use crate::lists::NodeLists;
use crate::mark::ByMark;
use crate::step::Step;

impl NodeLists {
    /// The edit that removes the first of a session's marks, and its node; none if the session
    /// has no node.
    fn first_removal(&self, change: u64, session: u32) -> Option<Edit>
        requires { IsKept self.now.nodes self.now.marks }
        ensures { MatchOption result
            (nodes_after_end change session self.now.nodes ≡ self.now.nodes)
            (EndsOne change session self.now.nodes self.now.marks) }
    {
        let place = self.marks.place(&ByMark { session, path: b"" });
        let mark = self.marks.at(place)?;
        if mark.session != session {
            return None;
        }
        let Some(found) = self.find(mark.path.text()) else {
            unreachable!()
        };
        Some(self.removal_with(change, found, Step::Take(place)))
    }

    /// Removes all nodes of a session. Takes no memory.
    pub fn release(&mut self, change: u64, session: u32)
        requires { IsKept self.old.nodes self.old.marks }
        ensures nodes { self.new.nodes ≡ nodes_after_end change session self.old.nodes }
        ensures kept { IsKept self.new.nodes self.new.marks }
        ensures undo { self.new.undo.items ≡ self.old.undo.items }
    {
        while let Some(edit) = self.first_removal(change, session) {
            self.make(edit);
        }
    }
}
