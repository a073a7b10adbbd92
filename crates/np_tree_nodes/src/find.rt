//! Nodes by their paths, and children by their places.

ghost use Rattle.std.specs.Prelude.{◌≡◌, ◌++◌, ◌&&◌, ℕ, List, [], true, length, slice_get, if◌then◌else◌};
ghost use Rattle.std.specs.Option.{option_copied};
ghost use Rattle.std.specs.Cmp.Lexicographic.{slice_cmp};
ghost use Rattle.std.specs.List.{prefix_len};
ghost use Rattle.std.specs.Ordering.{nat_cmp};
ghost use Rattle.std.specs.Str.{bytes_eq};
ghost use Rattle.np_tree_nodes.specs.Lower.{is_path, name_of};
ghost use Rattle.np_tree_nodes.specs.Answer.{made_path};
ghost use Rattle.np_tree_nodes.specs.Kept.{IsKept};
ghost use Rattle.np_tree_nodes.specs.Nodes.{before_of, children_of};
ghost use Rattle.np_tree_nodes.specs.Names.{MakesName, half_of};
ghost use Rattle.np_tree_nodes.specs.Tests.{is_sequential};
ghost use Rattle.np_tree_nodes.specs.Finds.{Finds, FindsGap, IsStretch, upto_first, upto_last, stands_before};
ghost use Rattle.np_tree_nodes.specs.Order.{AllPaths, IsSorted};

use crate::kind::Mode;
use crate::lists::NodeLists;
use crate::node::Node;
use np_lists::Probe;
use np_path::{Path, halves};
use np_text::ten_digits;
use std::cmp::Ordering;

/// The place of a path, by what is before its last slash, and its name in two parts.
#[derive(Clone, Copy)]
pub(crate) struct ByHalves<'a> {
    pub(crate) before: &'a [u8],
    pub(crate) name: &'a [u8],
    pub(crate) digits: &'a [u8],
}

impl Probe<Node> for ByHalves<'_> {
    ghost before = { λ p n. stands_before p.before.now (p.name.now ++ p.digits.now) n.path };

    fn is_before(&self, item: &Node) -> bool {
        let (before, name) = item.path.halves();
        match before.cmp(self.before) {
            Ordering::Equal => name_cmp(name, self.name, self.digits).is_lt(),
            first => first.is_lt(),
        }
    }
}

/// How a name compares to one of two parts.
fn name_cmp(name: &[u8], front: &[u8], digits: &[u8]) -> Ordering
    ensures { result ≡ slice_cmp nat_cmp name.now (front.now ++ digits.now) }
{
    if name.len() < front.len() {
        return name.cmp(front);
    }
    let (begin, rest) = name.split_at(front.len());
    begin.cmp(front).then(rest.cmp(digits))
}

/// The place of the first child of a node, by what is before its children's last slash.
#[derive(Clone, Copy)]
pub(crate) struct FirstChild<'a> {
    pub(crate) before: &'a [u8],
}

impl Probe<Node> for FirstChild<'_> {
    ghost before = { λ p n. upto_first p.before.now n.path };

    fn is_before(&self, item: &Node) -> bool {
        let (before, name) = item.path.halves();
        before
            .cmp(self.before)
            .then(name.cmp(b"".as_slice()))
            .is_le()
    }
}

/// The place after the last child of a node.
#[derive(Clone, Copy)]
pub(crate) struct LastChild<'a> {
    pub(crate) before: &'a [u8],
}

impl Probe<Node> for LastChild<'_> {
    ghost before = { λ p n. upto_last p.before.now n.path };

    fn is_before(&self, item: &Node) -> bool {
        let (before, _) = item.path.halves();
        before.cmp(self.before).is_le()
    }
}

/// A node, and its place.
#[derive(Clone, Copy)]
pub struct Found<'a> {
    pub(crate) place: usize,
    pub(crate) node: &'a Node,
}

impl<'a> Found<'a> {
    /// The node.
    pub fn node(self) -> &'a Node
        ensures { result.now ≡ self.entry.node.now }
    {
        self.node
    }
}

/// Where a child goes: below its parent, and at its own place.
#[derive(Clone, Copy)]
pub struct Spot<'a> {
    pub(crate) parent: Found<'a>,
    pub(crate) place: usize,
}

impl<'a> Spot<'a> {
    /// Below a parent, at a place that `gap` found.
    pub fn new(parent: Found<'a>, place: usize) -> Spot<'a>
        ensures { result ≡ record { parent = parent.entry; place = place } }
    {
        Spot { parent, place }
    }

    /// The parent.
    pub fn parent(self) -> &'a Node
        ensures { result.now ≡ self.entry.parent.node.now }
    {
        self.parent.node
    }
}

/// Where the children of a node are side by side: the place of the first, and one past the last.
#[derive(Clone, Copy)]
struct Stretch {
    from: usize,
    to: usize,
}

impl NodeLists {
    /// The node at a path, by one search.
    pub fn find(&self, path: &str) -> Option<Found<'_>>
        requires sorted { IsSorted self.now.nodes }
        requires paths { AllPaths self.now.nodes }
        ensures { Finds self.now.nodes path.now result }
    {
        let (before, name) = halves(path.as_bytes())?;
        let place = self.nodes.place(&ByHalves {
            before,
            name,
            digits: b"",
        });
        let node = self.nodes.at(place)?;
        if node.path.text() != path {
            return None;
        }
        Some(Found { place, node })
    }

    /// How many children the node at a path has, by two searches.
    pub fn count_children(&self, path: &str) -> u32
        requires { IsKept self.now.nodes self.now.marks }
        ensures { result ≡ length (children_of self.now.nodes path.now) }
    {
        let stretch = self.children(path);
        (stretch.to - stretch.from) as u32
    }

    /// The child of the node at a path with this place among them, by three searches.
    pub fn child(&self, path: &str, at: u32) -> Option<&Node>
        requires { IsKept self.now.nodes self.now.marks }
        ensures { option_copied result ≡ slice_get (children_of self.now.nodes path.now) at }
    {
        let stretch = self.children(path);
        let at = at as usize;
        if at >= stretch.to - stretch.from {
            return None;
        }
        self.nodes.at(stretch.from + at)
    }

    /// The children of the node at a path, by two searches.
    fn children(&self, path: &str) -> Stretch
        requires sorted { IsSorted self.now.nodes }
        requires paths { AllPaths self.now.nodes }
        ensures { IsStretch self.now.nodes path.now result.from result.to }
    {
        if path.is_empty() {
            return Stretch { from: 0, to: 0 };
        }
        if path == "/" {
            return self.below(b"");
        }
        self.below(path.as_bytes())
    }

    /// The nodes with a name that have this before their last slash.
    fn below(&self, before: &[u8]) -> Stretch
        requires { IsSorted self.now.nodes }
        ensures from { result.from ≡ prefix_len (λ n. upto_first before.now n.path) self.now.nodes }
        ensures to { result.to ≡ prefix_len (λ n. upto_last before.now n.path) self.now.nodes }
    {
        Stretch {
            from: self.nodes.place(&FirstChild { before }),
            to: self.nodes.place(&LastChild { before }),
        }
    }

    /// The place of a child that isn't there yet, by one search; none if a node is at its path.
    pub fn gap(&self, parent: &Node, name: &str, mode: Mode) -> Option<usize>
        requires sorted { IsSorted self.now.nodes }
        requires paths { AllPaths self.now.nodes }
        requires name { MakesName name.now mode }
        ensures { FindsGap self.now.nodes (made_path parent.now name.now mode) result }
    {
        let number = ten_digits(parent.facts.counter);
        let digits = digits_for(mode, &number);
        self.gap_at(half_of(&parent.path), name.as_bytes(), digits)
    }

    /// The place of the path of two halves, by one search; none if there is a node there.
    fn gap_at(&self, before: &[u8], name: &[u8], digits: &[u8]) -> Option<usize>
        requires sorted { IsSorted self.now.nodes }
        requires paths { AllPaths self.now.nodes }
        ensures { (path : List ℕ) → is_path path ≡ true → before_of path ≡ before.now
            → name_of path ≡ name.now ++ digits.now → FindsGap self.now.nodes path result }
    {
        let place = self.nodes.place(&ByHalves {
            before,
            name,
            digits,
        });
        let Some(node) = self.nodes.at(place) else {
            return Some(place);
        };
        if stands_there(node, before, name, digits) {
            return None;
        }
        Some(place)
    }
}

/// The digits that come after a name of this mode.
fn digits_for(mode: Mode, number: &[u8]) -> &[u8]
    ensures { result.now ≡ (if is_sequential mode then number.now else []) }
{
    if mode.is_sequential() { number } else { b"" }
}

/// What is before the last slash of a node's children.
fn half_of(path: &Path) -> &[u8]
    ensures half { result.now ≡ half_of path.now }
    ensures path { is_path path.now ≡ true }
{
    let text = path.text();
    if text == "/" { b"" } else { text.as_bytes() }
}

/// Whether a node has these two halves, the name in two parts.
fn stands_there(node: &Node, before: &[u8], name: &[u8], digits: &[u8]) -> bool
    ensures { result ≡ (bytes_eq (before_of node.now.path) before.now
        && bytes_eq (name_of node.now.path) (name.now ++ digits.now)) }
{
    let (first, last) = node.path.halves();
    first == before && name_cmp(last, name, digits).is_eq()
}
