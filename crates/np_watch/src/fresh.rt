//! Whether a path is as it was at a change, by the stats of two nodes.

ghost use Rattle.std.specs.Prelude.{◌≡◌};
ghost use Rattle.np_watch.specs.Watching.{change_by, is_fresh_by, stat_above};

use np_path::Path;
use np_tree::{Stat, Tree};

/// The stat of the node above a path. It is none for `/`, which has no parent.
pub fn stat_above(tree: &Tree, path: &Path) -> Option<Stat>
    ensures { result ≡ stat_above tree.now path.now }
{
    path.parent().and_then(|above| tree.exists(above))
}

/// Whether a path is as it was at a change, by the stat of the node above it and the stat of the
/// node at it: that node has the same bytes or is still absent. Without a node above it is not.
pub fn is_fresh(at: u64, above: Option<Stat>, here: Option<Stat>) -> bool
    ensures { result ≡ is_fresh_by at above here }
{
    let Some(parent) = above else {
        return false;
    };
    let written = match here {
        Some(node) => node.mzxid <= at,
        None => true,
    };
    parent.pzxid <= at && written
}

/// The last change of a path, by the same stats: of the children above it or of its bytes.
pub fn change_of(above: Option<Stat>, here: Option<Stat>) -> u64
    ensures { result ≡ change_by above here }
{
    let listed = above.map_or(0, |parent| parent.pzxid);
    let written = here.map_or(0, |node| node.mzxid);
    listed.max(written)
}
