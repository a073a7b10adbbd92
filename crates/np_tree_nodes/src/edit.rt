//! Changes of the tree's lists that can be undone without memory.

ghost use Rattle.std.specs.Prelude.{◌≡◌};
ghost use Rattle.np_tree_nodes.specs.Edits.{kept_of, with_swap};

use crate::bytes::Bytes;
use crate::mark::Mark;
use crate::node::{Facts, Node};
use crate::step::Step;
use np_lists::Change;
use std::mem;

/// Other bytes, if there are some, and other facts of a node; after the change, those that the node
/// had.
#[derive(Drop)]
pub(crate) struct Swap {
    pub(crate) bytes: Option<Bytes>,
    pub(crate) facts: Facts,
}

impl Change<Node> for Swap {
    ghost after = { with_swap };

    ghost kept = { kept_of };

    fn make(&mut self, item: &mut Node) {
        if let Some(bytes) = &mut self.bytes {
            mem::swap(bytes, &mut item.bytes);
        }
        mem::swap(&mut self.facts, &mut item.facts);
    }
}

/// The change of the node at a place.
#[derive(Drop)]
pub(crate) struct Touch {
    pub(crate) place: usize,
    pub(crate) swap: Swap,
}

/// What one operation does to the lists: first the touch of a node, then one node more or fewer and
/// one mark more or fewer. It is undone in the opposite order.
#[derive(Drop)]
pub struct Edit {
    pub(crate) touch: Option<Touch>,
    pub(crate) node: Step<Node>,
    pub(crate) mark: Step<Mark>,
}
