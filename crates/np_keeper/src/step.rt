//! What an accepted event changes, made in the tree.

ghost use Rattle.std.specs.Prelude.{◌≡◌, ◌<◌, true, is_ok, OnOk, OnErr};
ghost use Rattle.np_keeper.specs.Lower.{IsReached, IsStored, State, decoded, judge, next, with_spare};
ghost use Rattle.np_keeper.specs.Keeper.{IsHeld};

use crate::answer::verdict_on;
use crate::change::enact_changes;
use np_config::Config;
use np_event::Event;
use np_text::Ample;
use np_tree::Tree;
use std::alloc::Global;

/// Decides an accepted event, and makes its changes: one call of the tree, in which fewer than
/// 16,777,214 changes were made before. An error says that memory ran out, and then only the memory
/// for a session may be there that was not. The cost is that of the decision (`judge`), and of
/// `enact_changes`.
pub fn enact(alloc: Global, tree: &mut Tree, config: &Config, event: Event) -> Ample
    requires held { IsHeld config.now tree.old }
    // A run of the configuration reaches the state.
    requires reached { IsReached config.now (decoded config.now tree.old) }
    requires low { tree.old.changes < 16777214 }
    requires accepted { is_ok (judge config.now (decoded config.now tree.old) event) ≡ true }
    ensures held { IsHeld config.now tree.new }
    ensures ok { OnOk result (decoded config.now tree.new
        ≡ next config.now (decoded config.now tree.old) event) }
    ensures err { OnErr result (decoded config.now tree.new ≡ decoded config.now tree.old) }
    ensures same { OnErr result (tree.new ≡ with_spare tree.old tree.new.spare) }
    ensures laid { (s : State) → IsStored config.now s tree.old →
        OnOk result (IsStored config.now (next config.now s event) tree.new) }
{
    config.know_soundness();
    match verdict_on(tree, config, event) {
        Ok(verdict) => enact_changes(alloc, tree, config, &verdict.changes),
        Err(_) => unreachable!(),
    }
}
