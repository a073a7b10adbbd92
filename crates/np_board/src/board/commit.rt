//! What a commit tests.

ghost use Rattle.std.specs.Prelude.{◌≡◌, ◌≤◌, ◌<◌, true, length, IfSome, MatchOption, None, find, option_and_then, slice_get, if◌then◌else◌};
ghost use Rattle.np_board.specs.Lower.{AreFreshPaths, StaleHasParent, is_fired, is_some, paths_at, remove_first};
ghost use Rattle.np_board.specs.Outstanding.{AreOfSpots};
ghost use Rattle.np_board.specs.Batch.{IsStaleSpot, fired_spot, told_by};

use crate::board::plan::{PlanTurn, Watched};
use np_path::Path;
use np_planned::{Spot, TreeStats, first_stale};
use np_tree::Tree;

/// A spot, and its last change.
#[derive(Clone, Copy)]
pub(crate) struct StaleSpot {
    pub(crate) spot: Spot,
    pub(crate) change: u64,
}

/// The first spot of the plan that isn't as it was when the plan was made, or `None` if and only if
/// all are. It takes no memory, and looks at most two nodes up for each spot.
pub(crate) fn stale_spot(tree: &Tree, watched: &Watched) -> Option<StaleSpot>
    requires few { length watched.now.paths ≤ 68 }
    requires paths { watched.now.paths ≡ paths_at watched.now.plan.spots }
    requires parent { StaleHasParent tree.now watched.now.plan.at watched.now.paths }
    ensures { MatchOption result
        (AreFreshPaths watched.now.plan.at tree.now watched.now.paths)
        (IsStaleSpot tree.now watched.now) }
{
    let mut stats = TreeStats::new(tree);
    let kept = first_stale(&mut stats, watched.plan.at, watched.paths.items())?;
    let spot = watched.plan.spots.at(kept.place)?;
    Some(StaleSpot {
        spot,
        change: kept.change,
    })
}

/// The spot of the first watch whose path changed. That watch is taken out.
pub(crate) fn take_news(tree: &Tree, watched: &mut Watched) -> Option<Spot>
    ensures spot { result ≡ fired_spot tree.now watched.old }
    ensures rest { watched.new ≡ record watched.old {
      watches = remove_first (is_fired tree.now) watched.old.watches;
    } }
{
    let key = watched.watches.take_fired(tree)?;
    watched.plan.spots.at(key)
}

/// What is told of the spot of a watch that fired, if one did.
pub(crate) fn told_by(news: Option<Spot>) -> PlanTurn
    ensures { result ≡ told_by news }
{
    match news {
        None => PlanTurn::Idle,
        Some(spot) => PlanTurn::Fired(spot),
    }
}
