//! What is there and what is coming of a label.

ghost use Rattle.std.specs.Prelude.{◌≡◌};
ghost use Rattle.np_index.specs.Lower.{AreClasses, Configuration, Fits, State, is_spent_min_ready, list_any, ready_count};

use np_classes::{Classes, coming_group, free_group, spent_group};
use np_look::Rows;
use np_text::{LabelId, PoolId};

/// The free ready nodes of the label in all pools, and those that are coming. Two groups are
/// counted, each by binary search. Nothing is read of `rows`, which says what the groups are of.
pub fn ready_count<R: Rows>(classes: &Classes, rows: &R, label: LabelId) -> u32
    requires fits { Fits (R.site rows.now) (R.state rows.now) }
    requires classes { AreClasses (R.site rows.now) (R.state rows.now) classes.now }
    ensures { result ≡ ready_count label (R.state rows.now) }
{
    let free = classes.nodes_in(free_group(label));
    let coming = classes.requests_in(coming_group(label));
    (free + coming) as u32
}

/// Whether a min-ready request of the pool for the label has failed. One group is counted, by
/// binary search.
pub fn has_spent_min_ready(classes: &Classes, pool: PoolId, label: LabelId) -> bool
    ensures { (c : Configuration) (s : State) → AreClasses c s classes.now →
        result ≡ list_any (is_spent_min_ready pool label) s.requests }
{
    classes.requests_in(spent_group(pool, label)) > 0
}
