//! The first request that every registered pool declined.

ghost use Rattle.std.specs.Prelude.{◌≡◌, ◌<◌, false, length};
ghost use Rattle.std.specs.List.{list_any};
ghost use Rattle.np_index.specs.Lower.{AreClasses, first_declined_by_all};
ghost use Rattle.np_index.specs.Index.{earlier, first_of_set, is_late};

use crate::kinds::third_if;
use np_classes::{Classes, declined_group};
use np_lists::Order;
use np_look::{ByRequest, Look, Rows, Scan, is_declined_by_all};
use np_text::{POOLS, RequestId};

/// Whether a pool is registered whose number is past those of any configuration. It reads each
/// registration once.
fn has_late_pool<R: Rows>(rows: &R) -> bool
    ensures { result ≡ list_any is_late (R.state rows.now).registrations }
{
    for at in 0..rows.registrations() {
        let Some(row) = rows.registration_at(at) else {
            return false;
        };
        if row.pool.0 as usize >= POOLS {
            return true;
        }
    }
    false
}

/// The first of the requested requests that the pools of this set declined and no others, if every
/// registered pool is in the set. All requests of a set are alike in this, so only the first is
/// looked at: one binary search, one lookup of a request and a scan of its declines for each
/// registered pool.
fn first_of_set<R: Rows>(classes: &Classes, rows: &R, set: u64) -> Option<RequestId>
    requires classes { AreClasses (R.site rows.now) (R.state rows.now) classes.now }
    requires some { 0 < length (R.state rows.now).registrations }
    requires known { list_any is_late (R.state rows.now).registrations ≡ false }
    ensures { result ≡ first_of_set set (R.state rows.now) }
{
    let request = classes.request_at(declined_group(set), 0)?;
    let kept = rows.request(request)?;
    if is_declined_by_all(rows, &kept) {
        Some(request)
    } else {
        None
    }
}

/// The one that comes first by priority and then sequence.
fn earlier(one: Option<RequestId>, other: Option<RequestId>) -> Option<RequestId>
    ensures { result ≡ earlier one other }
{
    let Some(first) = one else {
        return other;
    };
    let Some(second) = other else {
        return one;
    };
    if ByRequest::is_before(second, first) {
        other
    } else {
        one
    }
}

/// The first request, by priority and then sequence, that is requested and that every registered
/// pool declined, where a pool is registered and none whose number is too large. It walks the sets
/// of pools that declined a requested request.
fn first_of_sets<R: Rows>(classes: &Classes, rows: &R) -> Option<RequestId>
    requires classes { AreClasses (R.site rows.now) (R.state rows.now) classes.now }
    requires some { 0 < length (R.state rows.now).registrations }
    requires known { list_any is_late (R.state rows.now).registrations ≡ false }
    ensures { result ≡ first_declined_by_all (R.state rows.now) }
{
    let first = declined_group(0);
    let mut best = None;
    let mut next = third_if(first, classes.request_group_from(first));
    while let Some(set) = next {
        best = earlier(best, first_of_set(classes, rows, set));
        next = third_if(first, classes.request_group_after(declined_group(set)));
    }
    best
}

/// The first request, by priority and then sequence, that is requested and that every registered
/// pool declined; `None` if there is none, or no pool is registered.
///
/// However many requests there are, it costs for each different set of pools that declined a few
/// binary searches, one lookup of a request and a scan of its declines for each registered pool.
/// It scans the requests only if a pool is registered whose number is past those of any
/// configuration.
pub fn first_declined_by_all<R: Rows>(classes: &Classes, rows: &R) -> Option<RequestId>
    requires classes { AreClasses (R.site rows.now) (R.state rows.now) classes.now }
    ensures { result ≡ first_declined_by_all (R.state rows.now) }
{
    if rows.registrations() == 0 {
        return None;
    }
    if has_late_pool(rows) {
        return Scan::over(rows).first_declined_by_all();
    }
    first_of_sets(classes, rows)
}
