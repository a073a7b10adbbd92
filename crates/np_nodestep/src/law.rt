//! A node's record may be spelled in two ways.

ghost use Rattle.std.specs.Prelude.{◌≡◌, ◌<◌, ℕ, List};
ghost use Rattle.np_changes.specs.Prelude.{Configuration, NodeId};
ghost use Rattle.np_layout.specs.Prelude.{IsWhole, TreeState, decoded};
ghost use Rattle.np_keeper.specs.Keeper.{IsHeld};
ghost use Rattle.np_nodestep.specs.Spelling.{IsSpelling, respelled};

/// If the bytes of a node's record are set to another spelling of it, the tree is held as before and
/// stores the same state. So a tree may have records of nodes from before there were tenants.
pub fn a_respelled_node_is_the_same()
    ensures held { (c : Configuration) (t : TreeState) (n : NodeId) (bytes : List ℕ) →
        IsHeld c t → t.changes < 16777214 → IsSpelling c t n bytes →
        IsWhole (respelled t n bytes).nodes → IsHeld c (respelled t n bytes) }
    ensures state { (c : Configuration) (t : TreeState) (n : NodeId) (bytes : List ℕ) →
        IsHeld c t → t.changes < 16777214 → IsSpelling c t n bytes →
        IsWhole (respelled t n bytes).nodes → decoded c (respelled t n bytes) ≡ decoded c t }
{}
