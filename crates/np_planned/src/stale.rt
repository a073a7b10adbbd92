//! The first path that isn't as it was.

ghost use Rattle.std.specs.Prelude.{◌≡◌, ◌<◌, ◌≤◌, ◌+◌, ◌*◌, None, Some, length, IfSome, MatchOption, if◌then◌else◌};
ghost use Rattle.np_planned.specs.Lower.{AreFreshPaths, change_at_path, is_fresh};
ghost use Rattle.np_planned.specs.Stale.{StaleHasParent, IsFirstStale};

use crate::stats::StatRead;
use np_path::Path;
use np_watch::{change_of, is_fresh};

/// The place of a path, and its last change.
#[derive(Clone, Copy, Debug, PartialEq, Eq)]
pub struct Kept {
    pub place: u32,
    pub change: u64,
}

/// The first path that isn't as it was at a change, and its last change, which is later. Takes no
/// memory, and looks at most two nodes up for each path. At most 68 paths, and at most 2^63 reads
/// before; above the first path that isn't as it was there is a node.
pub fn first_stale<R: StatRead>(stats: &mut R, at: u64, paths: &[Path]) -> Option<Kept>
    requires few { length paths.now ≤ 68 }
    requires reads { R.reads stats.old ≤ 9_223_372_036_854_775_808 }
    requires parent { StaleHasParent (R.tree stats.old) at paths.now }
    ensures answer { MatchOption result
        (AreFreshPaths at (R.tree stats.old) paths.now)
        (IsFirstStale (R.tree stats.old) at paths.now) }
    ensures later { IfSome result (λ kept. at < kept.change) }
    ensures tree { R.tree stats.new ≡ R.tree stats.old }
    ensures reads { R.reads stats.new ≤ R.reads stats.old + 2 * length paths.now }
{
    for (place, path) in paths.iter().enumerate() {
        if let Some(change) = stale_change(stats, at, path) {
            return Some(Kept {
                place: place as u32,
                change,
            });
        }
    }
    None
}

/// The last change of a path that isn't as it was at a change.
fn stale_change<R: StatRead>(stats: &mut R, at: u64, path: &Path) -> Option<u64>
    requires { R.reads stats.old ≤ 18_446_744_073_709_551_613 }
    ensures answer { result ≡ (if is_fresh (R.tree stats.old) at path.now then None
        else Some (change_at_path (R.tree stats.old) path.now)) }
    ensures tree { R.tree stats.new ≡ R.tree stats.old }
    ensures reads { R.reads stats.new ≤ R.reads stats.old + 2 }
{
    let above = match path.parent() {
        Some(parent) => stats.exists(parent),
        None => None,
    };
    let here = stats.exists(path.text());
    if is_fresh(at, above, here) {
        return None;
    }
    Some(change_of(above, here))
}
