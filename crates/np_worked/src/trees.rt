//! A worked tree, which lays its state out, and others, which don't.

ghost use Rattle.np_worked.specs.Lower.{LaysOut};
ghost use Rattle.np_worked.specs.WorkedTree.{another_holder, another_tick, lock_of_no_request, node_below_a_pair, queued_tree, worked, worked_tree};

/// A worked tree lays out its state, in which ids and names are in different orders.
pub fn a_worked_tree_lays_out_its_state()
    ensures { LaysOut worked worked_tree }
{}

/// A tree does not lay the worked state out if its tick is another, if another session holds a
/// lock, if an ended session is live, or if it has a node too many.
pub fn other_trees_do_not()
    ensures tick { LaysOut worked another_tick → ⊥ }
    ensures holder { LaysOut worked another_holder → ⊥ }
    ensures ended { LaysOut worked queued_tree → ⊥ }
    ensures lock { LaysOut worked lock_of_no_request → ⊥ }
    ensures below { LaysOut worked node_below_a_pair → ⊥ }
{}
