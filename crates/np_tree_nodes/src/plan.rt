//! The edits of the tree's operations.

ghost use Rattle.std.specs.Prelude.{◌≡◌, ◌+◌, ◌≤◌, true, Some, IfOk, slice_get, if◌then◌else◌};
ghost use Rattle.np_tree_nodes.specs.Lower.{parent_of};
ghost use Rattle.np_tree_nodes.specs.After.{after_removal, with_bytes, with_new_child, without_child_above};
ghost use Rattle.np_tree_nodes.specs.Answer.{made_path};
ghost use Rattle.np_tree_nodes.specs.Calls.{with_counter};
ghost use Rattle.np_tree_nodes.specs.Edits.{CanTouch, with_touch};
ghost use Rattle.np_tree_nodes.specs.Kept.{IsKept, Plans};
ghost use Rattle.np_tree_nodes.specs.Marks.{AreRanked, mark_place, new_mark};
ghost use Rattle.np_tree_nodes.specs.Names.{MakesName};
ghost use Rattle.np_tree_nodes.specs.Nodes.{change_node};
ghost use Rattle.np_tree_nodes.specs.Plans.{IsSpot, TakesMark, mark_step};
ghost use Rattle.np_tree_nodes.specs.Tests.{is_sequential};
ghost use Rattle.np_tree_nodes.specs.declared.step.Step.TheVariants.{Put};

use crate::bytes::Bytes;
use crate::edit::{Edit, Swap, Touch};
use crate::find::{Found, Spot};
use crate::kind::Mode;
use crate::lists::NodeLists;
use crate::mark::{ByMark, Mark};
use crate::node::{Facts, Node};
use crate::step::Step;
use np_lists::{Piece, Shelf};
use np_path::Path;
use np_text::NoMemory;
use std::alloc::Global;

/// The path of a new child.
pub fn child_path(parent: &Node, name: &str, mode: Mode) -> Result<Path, NoMemory>
    requires { MakesName name.now mode }
    ensures { IfOk result (λ path. path ≡ made_path parent.now name.now mode) }
{
    let made = if mode.is_sequential() {
        parent.path.sequence_child(name, parent.facts.counter)
    } else {
        parent.path.child(name)
    };
    // The name is an element, so only memory can run out.
    made.map_err(|_| NoMemory)
}

/// The step that puts a session's mark of a path in.
fn put_mark(
    alloc: Global,
    marks: &Shelf<Mark>,
    session: u32,
    path: Path,
) -> Result<Step<Mark>, NoMemory>
    requires { AreRanked marks.now }
    ensures { IfOk result
        (λ step. step ≡ Put (mark_place session path marks.now) (new_mark session path)) }
{
    let place = marks.place(&ByMark {
        session,
        path: path.text().as_bytes(),
    });
    Ok(Step::Put(place, Piece::new(alloc, Mark { session, path })?))
}

/// The step of the marks for a new child.
fn mark_step(
    alloc: Global,
    marks: &Shelf<Mark>,
    session: u32,
    parent: &Node,
    name: &str,
    mode: Mode,
) -> Result<Step<Mark>, NoMemory>
    requires marks { AreRanked marks.now }
    requires name { MakesName name.now mode }
    ensures { IfOk result
        (λ step. step ≡ mark_step mode session (made_path parent.now name.now mode) marks.now) }
{
    if !mode.is_ephemeral() {
        return Ok(Step::Nothing);
    }
    put_mark(alloc, marks, session, child_path(parent, name, mode)?)
}

impl NodeLists {
    /// The edit that makes a child of a node.
    pub fn creation(
        &self,
        change: u64,
        session: u32,
        spot: Spot<'_>,
        name: &str,
        bytes: &[u8],
        mode: Mode,
    ) -> Result<Edit, NoMemory>
        requires kept { IsKept self.now.nodes self.now.marks }
        requires name { MakesName name.now mode }
        requires spot { IsSpot self.now.nodes spot.parent.node.now.path name.now mode spot }
        ensures { let parent = spot.entry.parent.node.now in IfOk result (Plans self.now.nodes self.now.marks
            (with_new_child change session parent.path name.now bytes.now mode parent self.now.nodes)) }
    {
        if self.nodes.len() == usize::MAX || self.marks.len() == usize::MAX {
            return Err(NoMemory);
        }
        let alloc = *self.undo.allocator();
        let parent = spot.parent.node;
        let path = child_path(parent, name, mode)?;
        let mark = mark_step(alloc, &self.marks, session, parent, name, mode)?;
        let node = Node {
            path,
            bytes: Bytes::copy(alloc, bytes)?,
            facts: Facts::new(change, mode.is_ephemeral().then_some(session)),
        };
        let touch = Touch {
            place: spot.parent.place,
            swap: Swap {
                bytes: None,
                facts: with_child(parent.facts, change, mode),
            },
        };
        Ok(Edit {
            touch: Some(touch),
            node: Step::Put(spot.place, Piece::new(alloc, node)?),
            mark,
        })
    }

    /// The edit that replaces a node's bytes.
    pub fn replacement(
        &self,
        change: u64,
        found: Found<'_>,
        bytes: &[u8],
        version: u64,
    ) -> Result<Edit, NoMemory>
        requires kept { IsKept self.now.nodes self.now.marks }
        requires there { slice_get self.now.nodes found.place ≡ Some found.node.now }
        requires version { version ≡ found.node.now.facts.version + 1 }
        ensures { IfOk result (Plans self.now.nodes self.now.marks
            (change_node found.entry.node.now.path (with_bytes change bytes.now) self.now.nodes)) }
    {
        let facts = Facts {
            version,
            mzxid: change,
            ..found.node.facts
        };
        Ok(Edit {
            touch: Some(Touch {
                place: found.place,
                swap: Swap {
                    bytes: Some(Bytes::copy(*self.undo.allocator(), bytes)?),
                    facts,
                },
            }),
            node: Step::Nothing,
            mark: Step::Nothing,
        })
    }

    /// The edit that raises a node's sequence counter.
    pub fn raise(&self, found: Found<'_>, to: u32) -> Edit
        requires kept { IsKept self.now.nodes self.now.marks }
        requires there { slice_get self.now.nodes found.place ≡ Some found.node.now }
        ensures { Plans self.now.nodes self.now.marks
            (change_node found.entry.node.now.path (with_counter to) self.now.nodes) result }
    {
        let facts = Facts {
            counter: to,
            ..found.node.facts
        };
        Edit {
            touch: Some(Touch {
                place: found.place,
                swap: Swap { bytes: None, facts },
            }),
            node: Step::Nothing,
            mark: Step::Nothing,
        }
    }

    /// The change of the node above one that is removed, if there is one.
    fn touch_above(&self, path: &Path, change: u64) -> Option<Touch>
        requires { IsKept self.now.nodes self.now.marks }
        ensures nodes { with_touch result self.now.nodes
            ≡ without_child_above change (parent_of path.now) self.now.nodes }
        ensures can { CanTouch result self.now.nodes }
    {
        let above = self.find(path.parent()?)?;
        let facts = Facts {
            pzxid: change,
            ..above.node.facts
        };
        Some(Touch {
            place: above.place,
            swap: Swap { bytes: None, facts },
        })
    }

    /// The edit that removes a node, with what is done to the marks.
    pub(crate) fn removal_with(&self, change: u64, found: Found<'_>, mark: Step<Mark>) -> Edit
        requires kept { IsKept self.now.nodes self.now.marks }
        requires there { slice_get self.now.nodes found.place ≡ Some found.node.now }
        requires mark { TakesMark found.node.now.facts.owner found.node.now.path self.now.marks mark }
        ensures plan { Plans self.now.nodes self.now.marks
            (after_removal change found.entry.node.now.path self.now.nodes) result }
        ensures mark { result.mark ≡ mark }
    {
        Edit {
            touch: self.touch_above(&found.node.path, change),
            node: Step::Take(found.place),
            mark,
        }
    }

    /// The step that takes an ephemeral's mark.
    fn unmark(&self, found: Found<'_>) -> Step<Mark>
        requires kept { IsKept self.now.nodes self.now.marks }
        requires there { slice_get self.now.nodes found.place ≡ Some found.node.now }
        ensures { let node = found.entry.node.now in
            TakesMark node.facts.owner node.path self.now.marks result }
    {
        let Some(session) = found.node.facts.owner else {
            return Step::Nothing;
        };
        let path = found.node.path.text().as_bytes();
        Step::Take(self.marks.place(&ByMark { session, path }))
    }

    /// The edit that removes a node, with its mark.
    pub fn removal(&self, change: u64, found: Found<'_>) -> Edit
        requires kept { IsKept self.now.nodes self.now.marks }
        requires there { slice_get self.now.nodes found.place ≡ Some found.node.now }
        ensures { Plans self.now.nodes self.now.marks
            (after_removal change found.entry.node.now.path self.now.nodes) result }
    {
        self.removal_with(change, found, self.unmark(found))
    }
}

/// The facts of a node that gets a child.
fn with_child(facts: Facts, change: u64, mode: Mode) -> Facts
    requires { is_sequential mode ≡ true → facts.counter ≤ 2147483647 }
    ensures { result ≡ record facts {
      pzxid = change;
      counter = if is_sequential mode then facts.counter + 1 else facts.counter;
    } }
{
    let counter = if mode.is_sequential() {
        facts.counter + 1
    } else {
        facts.counter
    };
    Facts {
        pzxid: change,
        counter,
        ..facts
    }
}
