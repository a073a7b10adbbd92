//! The law. The function does nothing: its contract is the law.
#![tactic(auto, using(crate::proofs::Proved::decoding))]

ghost use Rattle.np_layout.specs.Decoded.{TreesHaveOneState};

/// The state that is read from a tree is the one that the tree lays out.
pub fn a_tree_has_one_state()
    ensures { TreesHaveOneState }
{}
