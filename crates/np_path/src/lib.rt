//! Paths of the tree's nodes: texts in one grammar, with a node's parent and name in constant time.
//!
//! `specs/Grammar` says which texts are paths, where the first fault of another text is, and what
//! parent, name and child are. Contracts see a `Path` as the list of its bytes.
//!
//! A `Path` is always in the grammar, and never changes.
#![tactic(auto)]

mod fault;
mod grammar;
mod laws;
mod path;

pub use fault::PathFault;
pub use laws::{
    children_have_their_parts, paths_are_their_parts, paths_have_no_fault, texts_are_their_halves,
};
pub use path::{Path, halves};
