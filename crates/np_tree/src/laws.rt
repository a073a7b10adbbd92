//! Laws of the definitions. The functions do nothing: their contracts are a table of closed answers,
//! what calls keep true of the tree, and what the order of nodes means.

ghost use Rattle.std.specs.Prelude.{◌≡◌, codes, [], ◌∷◌, None, Err};
ghost use Rattle.np_tree.specs.Lower.{Any, SessionExpired, after_multi, answers_from, at_path, new_tree, set_answer};
ghost use Rattle.np_tree.specs.Views.{ChildrenByName, ParentsComeFirst, begun_tree, calls, replies, replies_to, sequence_calls, sequence_replies, third_fails, three_parts, tree_ended, tree_raised, two_done, two_parts, with_a};
ghost use Rattle.np_tree.specs.Whole.{BeginsKeepTree, CallsKeepTree, CallsKeepWhole, EndsKeepTree, EndsKeepWhole, EphemeralsHaveNoChildren, IsTree, IsWhole, PartsKeepTree, PartsKeepWhole, RaisesKeepTree, RaisesKeepWhole};

/// The definitions agree with the worked rows.
pub fn worked_rows()
    ensures calls { replies_to begun_tree 1 calls ≡ replies }
    ensures sequence { replies_to tree_raised 1 sequence_calls ≡ sequence_replies }
    ensures ephemeral { at_path tree_ended.nodes (codes "/e") ≡ None }
    ensures expired { set_answer tree_ended 1 (codes "/a") [] Any ≡ Err SessionExpired }
    ensures changes { tree_ended.changes ≡ 7 }
    ensures refused { answers_from 0 with_a 1 three_parts ≡ third_fails }
    ensures done { answers_from 0 with_a 1 two_parts ≡ two_done }
    ensures once { (after_multi with_a 1 two_parts).changes ≡ 3 }
{}

/// In the nodes that calls can make there is a root, and each other one is below a node that no
/// session owns: so no node is without its parent.
pub fn calls_keep_the_nodes_whole()
    ensures begin { IsWhole new_tree.nodes }
    ensures part { PartsKeepWhole }
    ensures multi { CallsKeepWhole }
    ensures end { EndsKeepWhole }
    ensures raise { RaisesKeepWhole }
{}

/// In each tree that calls can make the nodes are whole, each owner is a live session, and no node has
/// a change number above that of the last change.
pub fn calls_keep_the_tree()
    ensures new { IsTree new_tree }
    ensures part { PartsKeepTree }
    ensures multi { CallsKeepTree }
    ensures begin { BeginsKeepTree }
    ensures end { EndsKeepTree }
    ensures raise { RaisesKeepTree }
{}

/// No ephemeral node has a child.
pub fn ephemerals_have_no_children()
    ensures { EphemeralsHaveNoChildren }
{}

/// In the order of nodes each comes after its parent, and the children of a node are in byte order
/// of their names.
pub fn nodes_stand_in_order()
    ensures parents { ParentsComeFirst }
    ensures children { ChildrenByName }
{}
