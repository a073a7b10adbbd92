//! The children of a place: their names, and the sessions that wait for a lock.

ghost use Rattle.std.specs.Prelude.{◌≡◌, ℕ, ◌^◌, ◌<◌, List, slice_get, Some};
ghost use Rattle.np_tree_rows.specs.Lower.{AllZip, IsGood, IsWait, SessionId, option_copied, option_map, path_of, stat_of_child, ten_digits_of, under};

use np_layout::{PathText, Place};
use np_text::SessionId;
use np_tree::{Stat, Tree};

/// The name of the child at a place among its siblings, in byte order. `None` past the last one.
pub(crate) fn name_at(tree: &Tree, dir: Place, at: u32) -> Option<&str>
    requires { IsGood dir }
    ensures { option_copied result
        ≡ option_map (λ row. row.name) (slice_get (under dir tree.now) at) }
{
    let path = PathText::of(dir);
    tree.child_at(path.text(), at)
}

/// The stat of the child at a place among its siblings. `None` past the last one.
fn child_stat_at(tree: &Tree, dir: Place, at: u32) -> Option<Stat>
    requires { IsGood dir }
    ensures { result ≡ stat_of_child tree.now (path_of dir) at }
{
    let path = PathText::of(dir);
    tree.child_stat(path.text(), at)
}

/// The session at a place of a lock's queue. `None` past the queue's end.
pub(crate) fn waiting_at(tree: &Tree, lock: Place, at: u32) -> Option<SessionId>
    requires { IsGood lock }
    ensures { (next : ℕ) (queue : List SessionId) →
        AllZip (IsWait next) (under lock tree.now) queue → result ≡ slice_get queue at }
{
    let stat = child_stat_at(tree, lock, at)?;
    let owner = stat.owner?;
    let number = owner.checked_sub(1)?;
    Some(SessionId(number))
}

/// The number that ten digits spell. `None` for a text that is no number of 32 bits.
pub(crate) fn read_ten(name: &str) -> Option<u32>
    ensures { (n : ℕ) → n < 2 ^ 32 → name.now ≡ ten_digits_of n → result ≡ Some n }
{
    match name.parse::<u32>() {
        Ok(n) => Some(n),
        Err(_) => None,
    }
}
