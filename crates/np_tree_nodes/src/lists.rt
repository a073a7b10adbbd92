//! The lists of the tree, with what undoes the edits of the call so far.

ghost use Rattle.std.specs.Prelude.{◌≡◌, ◌∷◌, [], IfOk, OnOk, OnErr};
ghost use Rattle.np_tree_nodes.specs.Undo.{KeepsStart, SameLists};
ghost use Rattle.np_tree_nodes.specs.Edits.{CanEdit, CanTakeBack, CanTouch, CanUndo, after_edit, marks_before, nodes_before, after_undo, with_touch};
ghost use Rattle.np_tree_nodes.specs.Kept.{IsKept};
ghost use Rattle.np_tree_nodes.specs.Steps.{after_step};
ghost use Rattle.np_tree_nodes.specs.TreeState.{root_node};

use crate::bytes::Bytes;
use crate::edit::{Edit, Touch};
use crate::mark::Mark;
use crate::node::{Facts, Node};
use np_lists::{Piece, Shelf};
use np_path::Path;
use np_text::{Ample, NoMemory};
use std::alloc::Global;

/// The lists of the tree, with what undoes the edits of the call so far.
#[derive(Drop)]
pub struct NodeLists {
    pub(crate) nodes: Shelf<Node>,
    pub(crate) marks: Shelf<Mark>,
    // What undoes an edit comes after what undoes those before it.
    pub(crate) undo: Vec<Edit>,
}

/// Changes a node, and answers the touch that changes it back.
fn touch(nodes: &mut Shelf<Node>, touch: Option<Touch>) -> Option<Touch>
    requires { CanTouch touch nodes.old }
    ensures nodes { nodes.new ≡ with_touch touch nodes.old }
    ensures back { with_touch result nodes.new ≡ nodes.old }
    ensures can { CanTouch result nodes.new }
{
    match touch {
        None => None,
        Some(Touch { place, mut swap }) => {
            nodes.change(place, &mut swap);
            Some(Touch { place, swap })
        }
    }
}

impl NodeLists {
    /// The root alone, with no edit to undo.
    pub fn new(alloc: Global) -> Result<NodeLists, NoMemory>
        ensures nodes { IfOk result (λ lists. lists.nodes ≡ root_node ∷ []) }
        ensures kept { IfOk result (λ lists. IsKept lists.nodes lists.marks) }
        ensures undo { IfOk result (λ lists. lists.undo.items ≡ []) }
    {
        let root = Node {
            path: Path::new(alloc, "/").map_err(|_| NoMemory)?,
            bytes: Bytes::new(Vec::new(alloc)),
            facts: Facts::new(0, None),
        };
        let mut nodes = Shelf::new();
        nodes.insert(0, Piece::new(alloc, root)?);
        Ok(NodeLists {
            nodes,
            marks: Shelf::new(),
            undo: Vec::new(alloc),
        })
    }

    /// Makes an edit, and answers the one that undoes it. Takes no memory.
    pub fn make(&mut self, edit: Edit) -> Edit
        requires { CanEdit edit self.old.nodes self.old.marks }
        ensures nodes { self.new.nodes ≡ after_edit edit self.old.nodes }
        ensures marks { self.new.marks ≡ after_step edit.mark self.old.marks }
        ensures undo { self.new.undo ≡ self.old.undo }
        ensures nodes_back { after_undo result self.new.nodes ≡ self.old.nodes }
        ensures marks_back { after_step result.mark self.new.marks ≡ self.old.marks }
        ensures can { CanTakeBack result self.new.nodes self.new.marks }
    {
        let touch = touch(&mut self.nodes, edit.touch);
        let node = edit.node.make(&mut self.nodes);
        let mark = edit.mark.make(&mut self.marks);
        Edit { touch, node, mark }
    }

    /// Makes an edit, and keeps what undoes it.
    pub fn edit(&mut self, edit: Edit) -> Ample
        requires { CanEdit edit self.old.nodes self.old.marks }
        ensures nodes { OnOk result (self.new.nodes ≡ after_edit edit self.old.nodes) }
        ensures marks { OnOk result (self.new.marks ≡ after_step edit.mark self.old.marks) }
        ensures start { KeepsStart self.old self.new }
        ensures err { OnErr result (SameLists self.old self.new) }
    {
        self.undo.reserve(1)?;
        let back = self.make(edit);
        self.undo.push(back)?;
        Ok(())
    }

    /// Undoes an edit.
    fn take_back(&mut self, edit: Edit)
        requires { CanTakeBack edit self.old.nodes self.old.marks }
        ensures nodes { self.new.nodes ≡ after_undo edit self.old.nodes }
        ensures marks { self.new.marks ≡ after_step edit.mark self.old.marks }
        ensures undo { self.new.undo ≡ self.old.undo }
    {
        edit.mark.make(&mut self.marks);
        edit.node.make(&mut self.nodes);
        touch(&mut self.nodes, edit.touch);
    }

    /// Undoes all edits of the call so far, in the same time that they took. Takes no memory.
    pub fn roll_back(&mut self)
        requires { CanUndo self.old.undo.items self.old.nodes self.old.marks }
        ensures nodes { self.new.nodes ≡ nodes_before self.old.undo.items self.old.nodes }
        ensures marks { self.new.marks ≡ marks_before self.old.undo.items self.old.marks }
        ensures undo { self.new.undo.items ≡ [] }
    {
        while let Some(edit) = self.undo.pop() {
            self.take_back(edit);
        }
    }

    /// Forgets how to undo the edits so far.
    pub fn forget_undo(&mut self)
        ensures nodes { self.new.nodes ≡ self.old.nodes }
        ensures marks { self.new.marks ≡ self.old.marks }
        ensures undo { self.new.undo.items ≡ [] }
    {
        self.undo.clear();
    }
}
