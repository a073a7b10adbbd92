//! Events of nodes: the answer, and the changes.

ghost use Rattle.std.specs.Prelude.{◌≡◌, ◌<◌, true, is_ok, OnOk, OnErr};
ghost use Rattle.np_layout.specs.Prelude.{decoded, with_spare};
ghost use Rattle.np_changes.specs.Prelude.{Fits, IsReached, State, judge, next, reply_of};
ghost use Rattle.np_keeper.specs.Carried.{IsStored};
ghost use Rattle.np_keeper.specs.Keeper.{IsHeld};
ghost use Rattle.np_nodestep.specs.Nodes.{is_node_event};

use np_config::Config;
use np_event::{Event, Reply};
use np_text::Ample;
use np_tree::Tree;
use std::alloc::Global;

/// What the machine answers to an event of nodes in the state that the tree stores. It takes no
/// memory, and costs what the readers cost that the event's row calls.
pub fn judge_node(tree: &Tree, config: &Config, event: Event) -> Reply
    requires group { is_node_event event ≡ true }
    requires held { IsHeld config.now tree.now }
    requires fits { Fits config.now (decoded config.now tree.now) }
    ensures reply { result ≡ reply_of (judge config.now (decoded config.now tree.now) event) }
    ensures laid { (s : State) → IsStored config.now s tree.now →
        result ≡ reply_of (judge config.now s event) }
{
    np_keeper::judge(tree, config, event)
}

/// Decides an accepted event of nodes, and makes its changes: one call of the tree, in which
/// fewer than 16,777,214 changes were made before. An error says that memory ran out, and then
/// only the memory for a session may be there that was not. The cost is that of the decision
/// (`judge_node`), and of the changes.
pub fn enact_node(alloc: Global, tree: &mut Tree, config: &Config, event: Event) -> Ample
    requires group { is_node_event event ≡ true }
    requires held { IsHeld config.now tree.old }
    // A run of the configuration reaches the state.
    requires reached { IsReached config.now (decoded config.now tree.old) }
    requires low { tree.old.changes < 16777214 }
    requires accepted { is_ok (judge config.now (decoded config.now tree.old) event) ≡ true }
    ensures held { IsHeld config.now tree.new }
    ensures ok { OnOk result (decoded config.now tree.new
        ≡ next config.now (decoded config.now tree.old) event) }
    ensures err { OnErr result (decoded config.now tree.new ≡ decoded config.now tree.old) }
    ensures same { OnErr result (tree.new ≡ with_spare tree.old tree.new.spare) }
    ensures laid { (s : State) → IsStored config.now s tree.old →
        OnOk result (IsStored config.now (next config.now s event) tree.new) }
{
    np_keeper::enact(alloc, tree, config, event)
}
