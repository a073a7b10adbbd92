//! One watch, and the order of watches.

ghost use Rattle.std.specs.Prelude.{◌≡◌, ◌==◌, nat_lt};
ghost use Rattle.np_watch.specs.Watching.{is_between, is_fired};
ghost use Rattle.np_watch.specs.Keys.{key_equal, key_one_way, key_some_way, key_transitive};

use crate::fresh::{is_fresh, stat_above};
use np_lists::Order;
use np_path::Path;
use np_tree::Tree;

/// A watch of a path.
#[derive(Drop)]
pub(crate) struct Watch {
    pub(crate) key: u32,
    pub(crate) path: Path,
    // The last change of the tree when the watch was set.
    pub(crate) at: u64,
}

/// Whether the path has changed since the watch was set.
pub(crate) fn is_fired(tree: &Tree, watch: &Watch) -> bool
    ensures { result ≡ is_fired tree.now watch.now }
{
    let above = stat_above(tree, &watch.path);
    let here = tree.exists(watch.path.text());
    !is_fresh(watch.at, above, here)
}

/// Whether the key is from one number up to but not including another.
pub(crate) fn is_between(low: u32, high: u32, watch: &Watch) -> bool
    ensures { result ≡ is_between low high watch.now }
{
    low <= watch.key && watch.key < high
}

/// Watches, by key.
pub(crate) struct ByKey;

impl Order for ByKey {
    type Key = u32;

    type Row = Watch;

    ghost key = { λ watch. watch.key };

    ghost before = { nat_lt };

    ghost same = { λ a b. a == b };

    fn key(row: &Watch) -> u32 {
        row.key
    }

    fn is_before(first: u32, second: u32) -> bool {
        first < second
    }

    fn is_same(first: u32, second: u32) -> bool {
        first == second
    }

    ghost transitive = { key_transitive };

    ghost one_way = { key_one_way };

    ghost some_way = { key_some_way };

    ghost equal = { key_equal };
}
