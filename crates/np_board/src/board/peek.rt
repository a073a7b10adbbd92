//! Choosing an event, and watching its spots.
#![tactic(auto, using(crate::proofs::BoardTurns::turned))]

ghost use Rattle.std.specs.Prelude.{◌≡◌, ◌≤◌, true, IfOk, MatchOption, length};
ghost use Rattle.np_board.specs.Lower.{IsUseful, Launcher, is_planned};
ghost use Rattle.np_board.specs.Outstanding.{IsNewPlan, watches_of};

use crate::board::plan::{Plan, Watched};
use np_event::Event;
use np_jobs::takes_part;
use np_keeper::TreeStore;
use np_launch::choose_planned;
use np_lists::Items;
use np_look::Look;
use np_path::Path;
use np_planned::{paths_of, spots, spots_have_paths};
use np_rules::Machine;
use np_text::{NoMemory, PoolId, Role};
use np_tree::Tree;
use np_watch::Watches;
use std::alloc::Global;

/// A useful event of the pool's launcher that can be planned, or `None` if and only if it has none.
fn chosen(machine: &Machine<TreeStore>, pool: PoolId) -> Option<Event>
    ensures { MatchOption result
        ((e : _) → is_planned e ≡ true
        → IsUseful machine.now.configuration machine.now.state (Launcher pool) e → ⊥)
        (λ e. IsUseful machine.now.configuration machine.now.state (Launcher pool) e
        × (is_planned e ≡ true)) }
{
    machine.know_soundness();
    if !takes_part(machine.rows(), Role::Launcher(pool)) {
        return None;
    }
    choose_planned(machine, pool)
}

/// Watches of all paths, each by its place.
fn watch_all(alloc: Global, tree: &Tree, paths: &[Path]) -> Result<Watches, NoMemory>
    requires { length paths.now ≤ 68 }
    ensures { IfOk result (λ watches. watches ≡ watches_of tree.now.changes paths.now) }
{
    let mut watches = Watches::new(alloc);
    for (place, path) in paths.iter().enumerate() {
        watches.set(tree, place as u32, path)?;
    }
    Ok(watches)
}

/// The plan of the event, with its spots watched from now on.
fn watched(
    alloc: Global,
    machine: &Machine<TreeStore>,
    pool: PoolId,
    event: Event,
) -> Result<Watched, NoMemory>
    requires useful { IsUseful machine.now.configuration machine.now.state (Launcher pool) event }
    requires planned { is_planned event ≡ true }
    ensures { IfOk result (λ x. IsNewPlan machine.now.configuration machine.now.state
        machine.now.store pool x) }
{
    machine.know_soundness();
    spots_have_paths();
    let tree = machine.store().tree();
    let spots = spots(machine.rows(), &event);
    let paths = paths_of(alloc, &spots)?;
    let watches = watch_all(alloc, tree, paths.as_slice())?;
    let at = tree.changes();
    Ok(Watched {
        plan: Plan {
            pool,
            event,
            at,
            spots,
        },
        paths: Items::new(paths),
        watches,
    })
}

/// A plan of the pool's launcher, or `None` if and only if it has no useful event that can be
/// planned. The cost is that of the choice, and of two lookups in the tree for each spot.
pub(crate) fn peeked(
    alloc: Global,
    machine: &Machine<TreeStore>,
    pool: PoolId,
) -> Result<Option<Watched>, NoMemory>
    ensures { IfOk result (λ found. MatchOption found
        ((e : _) → is_planned e ≡ true
        → IsUseful machine.now.configuration machine.now.state (Launcher pool) e → ⊥)
        (λ x. IsNewPlan machine.now.configuration machine.now.state machine.now.store pool x)) }
{
    match chosen(machine, pool) {
        None => Ok(None),
        Some(event) => Ok(Some(watched(alloc, machine, pool, event)?)),
    }
}
