//! What a node takes.

ghost use Rattle.std.specs.Prelude.{◌≡◌};
ghost use Rattle.np_index.specs.Lower.{AmountFits, IsFew, LabelId, PoolId, amount_of};
ghost use Rattle.np_index.specs.Index.{taken_by};

use np_amount::Amount;
use np_look::{NOTHING, Rows, amount};
use np_text::NodeId;

/// What the node takes of its pool, nothing if it is not there. It is found by binary search.
pub(crate) fn taken_by<R: Rows>(rows: &R, node: NodeId) -> Amount
    requires small { (p : PoolId) (l : LabelId) → AmountFits (amount_of (R.site rows.now) p l) }
    ensures taken { result ≡ taken_by (R.site rows.now) (R.state rows.now) node }
    ensures few { IsFew result 1 }
{
    match rows.node(node) {
        None => NOTHING,
        Some(kept) => amount(rows.config(), kept.pool, kept.label),
    }
}
