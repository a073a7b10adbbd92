//! The children of a directory, and whose they are.

ghost use Rattle.std.specs.Prelude.{◌≡◌, false, length, slice_get};
ghost use Rattle.np_tree_rows.specs.Lower.{is_owner, option_map_or, rows_at, tree_session};

use np_text::SessionId;
use np_tree::Tree;

/// How many children the directory has, and 0 if there is no node.
pub fn children(tree: &Tree, dir: &str) -> u32
    ensures { result ≡ length (rows_at tree.now dir.now) }
{
    // The contract of `changes` also says what is always true of a tree.
    let _ = tree.changes();
    match tree.exists(dir) {
        Some(stat) => stat.children,
        None => 0,
    }
}

/// Whether the child at a place among its siblings is the session's. `false` past the last one.
pub fn waits_at(tree: &Tree, lock: &str, session: SessionId, at: u32) -> bool
    ensures { result
        ≡ option_map_or (λ row. is_owner (tree_session session) row.owner)
        (slice_get (rows_at tree.now lock.now) at) false }
{
    match tree.child_stat(lock, at) {
        Some(stat) => is_owner(stat.owner, session),
        None => false,
    }
}

/// Whether the owner is the session: the tree's number of a session is one more than its own.
fn is_owner(owner: Option<u32>, session: SessionId) -> bool
    ensures { result ≡ is_owner (tree_session session) owner }
{
    match owner {
        Some(number) => number > 0 && number - 1 == session.0,
        None => false,
    }
}
