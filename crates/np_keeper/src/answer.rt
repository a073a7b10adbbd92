//! What the machine answers to an event.

ghost use Rattle.std.specs.Prelude.{◌≡◌, IfOk};
ghost use Rattle.np_keeper.specs.Lower.{Fits, IsStored, State, answer_of, decoded, judge, plan, reply_of};
ghost use Rattle.np_keeper.specs.Keeper.{IsHeld};

use np_config::Config;
use np_decision::{Ruling, decide};
use np_event::{Event, Reply};
use np_look::Scan;
use np_tree::Tree;
use np_tree_rows::TreeRows;

/// The decision on an event, over the state that the tree stores.
pub(crate) fn verdict_on(tree: &Tree, config: &Config, event: Event) -> Ruling
    requires held { IsHeld config.now tree.now }
    requires fits { Fits config.now (decoded config.now tree.now) }
    ensures answer { answer_of result ≡ judge config.now (decoded config.now tree.now) event }
    ensures changes { IfOk result (λ v. v.changes ≡
        plan config.now (decoded config.now tree.now) event) }
{
    let rows = TreeRows::new(config, tree);
    let scan = Scan::over(&rows);
    decide(&scan, event)
}

/// What the machine answers to an event in the state that the tree stores. It takes no memory. It
/// reads the tree's rows (np_tree_rows), and searches by walking them.
pub fn judge(tree: &Tree, config: &Config, event: Event) -> Reply
    requires held { IsHeld config.now tree.now }
    requires fits { Fits config.now (decoded config.now tree.now) }
    ensures reply { result ≡ reply_of (judge config.now (decoded config.now tree.now) event) }
    ensures laid { (s : State) → IsStored config.now s tree.now →
        result ≡ reply_of (judge config.now s event) }
{
    match verdict_on(tree, config, event) {
        Err(refusal) => Reply::Refused(refusal),
        Ok(verdict) => Reply::Done(verdict.done),
    }
}
