//! Lists of rows.

ghost use Rattle.std.specs.Prelude.{◌≡◌, ◌+◌, ◌<◌, ◌≤◌, ◌^◌, List, ℕ, Result, OnOk, IfOk, length, vec_len};
ghost use Rattle.serde_json.specs.Data.{Data};
ghost use Rattle.serde_json.specs.View.{view, items_view};
ghost use Rattle.np_json.specs.declared.fault.ConfigFault.{ConfigFault};
ghost use Rattle.np_json.specs.Reading.{Gives, Leaves, pointer_to};
ghost use Rattle.np_json.specs.Rows.{items_from, list_at, list_required, list_maybe};

use crate::fault::{Place, Reading};
use crate::leaf::{Length, list_of, required};
use serde_json::Value;
use std::alloc::Global;

/// Rows that are read from a list, each given those before it; `C` is what they may refer to.
pub trait Rows<C>: Drop {
    /// How a row is read: with what it may refer to, at its place, given the rows before it.
    ghost reads: { C → List ℕ → Self → Data → Result Self ConfigFault };
    /// How many rows there are.
    ghost count: { Self → ℕ };

    /// Reads one more row.
    fn read(&mut self, alloc: Global, context: &C, place: Place<'_>, value: &Value) -> Reading<()>
        requires { count self.old + 1 < 2 ^ 16 }
        ensures read { Leaves result self.new
            (reads context.now (pointer_to place.entry) self.old (view value.now)) }
        ensures count { OnOk result (count self.new ≡ count self.old + 1) };
}

/// Reads a row from each item, from the front.
pub fn rows_of<C, R: Rows<C>>(
    alloc: Global,
    context: &C,
    at: &[u8],
    values: &[Value],
    mut rows: R,
) -> Reading<R>
    requires { R.count rows + length values.now < 2 ^ 16 }
    ensures gives { Gives (λ r. r) result
        (items_from (R.reads context.now) at.now 0 rows (items_view values.now)) }
    ensures count { IfOk result (λ r. R.count r ≡ R.count rows + length values.now) }
{
    for (index, value) in values.iter().enumerate() {
        rows.read(alloc, context, Place::Item(at, index), value)?;
    }
    Ok(rows)
}

/// The rows of a list at a place.
#[tactic(auto, using(crate::proofs::Binds::exits), unfolding(crate::specs::Rows::list_at))]
fn list_rows<C, R: Rows<C>>(
    alloc: Global,
    context: &C,
    place: Place<'_>,
    length: Length,
    value: &Value,
    start: R,
) -> Reading<R>
    requires empty { R.count start ≡ 0 }
    requires small { length.most < 2 ^ 16 }
    ensures { Gives (λ r. r) result
        (list_at (R.reads context.now) (pointer_to place.entry) length start (view value.now)) }
{
    let values = list_of(alloc, place, length, value)?;
    let at = place.pointer(alloc)?;
    rows_of(alloc, context, at.as_slice(), values.as_slice(), start)
}

/// The rows of a list that must be there.
#[tactic(auto, using(crate::proofs::Binds::exits), unfolding(crate::specs::Rows::list_required))]
pub fn rows_required<C, R: Rows<C>>(
    alloc: Global,
    context: &C,
    at: &[u8],
    key: &str,
    length: Length,
    value: &Value,
    start: R,
) -> Reading<R>
    requires empty { R.count start ≡ 0 }
    requires small { length.most < 2 ^ 16 }
    ensures { Gives (λ r. r) result
        (list_required (R.reads context.now) at.now key.now length start (view value.now)) }
{
    let member = required(alloc, at, key, value)?;
    let place = Place::Member(at, key);
    list_rows(alloc, context, place, length, member, start)
}

/// The rows of a list, or none if it is absent.
#[tactic(auto, using(crate::proofs::Binds::exits), unfolding(crate::specs::Rows::list_maybe))]
pub fn rows_maybe<C, R: Rows<C>>(
    alloc: Global,
    context: &C,
    at: &[u8],
    key: &str,
    length: Length,
    value: &Value,
    start: R,
) -> Reading<R>
    requires empty { R.count start ≡ 0 }
    requires small { length.most < 2 ^ 16 }
    ensures { Gives (λ r. r) result
        (list_maybe (R.reads context.now) at.now key.now length start (view value.now)) }
{
    let Some(member) = value.get(key) else {
        return Ok(start);
    };
    let place = Place::Member(at, key);
    list_rows(alloc, context, place, length, member, start)
}
