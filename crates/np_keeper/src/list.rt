//! Lists that are read place by place.

ghost use Rattle.std.specs.Prelude.{◌≡◌, ◌<◌, ℕ, List, Option, length, slice_get, IfOk};

use std::alloc::{AllocError, Global};

/// The list of so many items that `read` tells one by one. It costs one call for each.
pub(crate) fn list_of<T: Drop, F: Fn(u32) -> Option<T> + Drop>(
    alloc: Global,
    count: u32,
    read: F,
) -> Result<Vec<T>, AllocError>
    requires { (at : ℕ) → at < count → F.pre read at }
    ensures { IfOk result (λ list. (whole : List T) → length whole ≡ count
        → ((at : ℕ) (item : Option T) → at < count → F.post read at item
        → item ≡ slice_get whole at)
        → list.items ≡ whole) }
{
    let mut list = Vec::new(alloc);
    for at in 0..count {
        if let Some(item) = read(at) {
            list.push(item)?;
        }
    }
    Ok(list)
}
