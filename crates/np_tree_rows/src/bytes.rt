//! The bytes and the stat at a place.

ghost use Rattle.std.specs.Prelude.{◌≡◌, length, option_and_then};
ghost use Rattle.np_tree_rows.specs.Lower.{IsGood, bytes_at, counter_at, option_copied, path_of, rows_at, stat_at};

use crate::directory::children;
use np_layout::{PathText, Place};
use np_tree::{Stat, Tree};

/// The bytes at a place, or `None` if there is no node.
pub(crate) fn bytes_at(tree: &Tree, place: Place) -> Option<&[u8]>
    requires { IsGood place }
    ensures { option_copied result ≡ bytes_at tree.now (path_of place) }
{
    let path = PathText::of(place);
    let (bytes, _) = tree.get(path.text())?;
    Some(bytes)
}

/// The stat at a place, or `None` if there is no node.
pub(crate) fn stat_at(tree: &Tree, place: Place) -> Option<Stat>
    requires { IsGood place }
    ensures { result ≡ stat_at tree.now (path_of place) }
{
    let path = PathText::of(place);
    tree.exists(path.text())
}

/// The session that owns the node at a place. `None` if no session does, or if there is no node.
pub(crate) fn owner_at(tree: &Tree, place: Place) -> Option<u32>
    requires { IsGood place }
    ensures { result
        ≡ option_and_then (λ stat. stat.owner) (stat_at tree.now (path_of place)) }
{
    stat_at(tree, place)?.owner
}

/// How many children there are below a place, and 0 if there is no node.
pub(crate) fn count_at(tree: &Tree, place: Place) -> u32
    requires { IsGood place }
    ensures { result ≡ length (rows_at tree.now (path_of place)) }
{
    children(tree, PathText::of(place).text())
}

/// The number that the next sequence node below a place gets, or `None` if there is no node.
pub(crate) fn counter_at(tree: &Tree, place: Place) -> Option<u32>
    requires { IsGood place }
    ensures { result ≡ counter_at tree.now (path_of place) }
{
    let path = PathText::of(place);
    tree.counter(path.text())
}
