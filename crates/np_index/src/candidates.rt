//! The requests that a pool's launcher may take up, by their order.

ghost use Rattle.std.specs.Prelude.{◌≡◌};
ghost use Rattle.np_index.specs.Lower.{AreClasses, AreOpen, Fits, first_of, ranks_of};
ghost use Rattle.np_index.specs.Waiting.{AreAwaited};
ghost use Rattle.np_index.specs.Index.{candidate_of, earlier_rank, next_among, open_record, IsIndexOf};

use crate::index::Index;
use crate::{Awaited, blocking};
use np_classes::Classes;
use np_lists::Order;
use np_look::{Rows, asked_of, is_open_to, request_holder};
use np_lookups::{ByRank, Open, Rank};
use np_record::RequestRecord;
use np_text::{PoolId, RequestId};

/// The record of the request, if it is open to the pool. Of a request that is held, only its holder
/// is looked up.
fn open_record<R: Rows>(rows: &R, pool: PoolId, request: RequestId) -> Option<RequestRecord>
    ensures { result ≡ open_record pool request (R.state rows.now) }
{
    if request_holder(rows, request).is_some() {
        return None;
    }
    let kept = rows.request(request)?;
    if is_open_to(pool, &kept, None) {
        Some(kept)
    } else {
        None
    }
}

/// The first rank of the line whose request the pool's launcher may take up, of those after `after`
/// if that is there; but the best so far if that comes first. The walk ends where ranks come after
/// the best so far. Requests that are closed to the pool are passed over a run at a time, and one
/// that is held at the cost of looking its holder up. In the common line the tenants of the others
/// are asked for room until one has it; in any other line only that of the first, since the requests
/// there are alike.
fn earlier_in_line<R: Rows>(
    classes: &Classes,
    awaited: &Awaited,
    requested: &Open,
    rows: &R,
    pool: PoolId,
    line: u64,
    after: Option<Rank>,
    best: Option<Rank>,
) -> Option<Rank>
    requires fits { Fits (R.site rows.now) (R.state rows.now) }
    requires classes { AreClasses (R.site rows.now) (R.state rows.now) classes.now }
    requires awaited { AreAwaited (R.site rows.now) (R.state rows.now) awaited.now }
    requires requested { AreOpen (R.site rows.now) (R.state rows.now) requested.now }
    ensures { result ≡ earlier_rank best (next_among (R.site rows.now) (R.state rows.now) pool after
        (ranks_of line requested.now.members)) }
{
    let are_alike = line != 0;
    let from = match after {
        None => 0,
        Some(rank) => requested.past(line, rank),
    };
    let end = requested.len(line);
    let mut place = requested.open_from(pool, line, from);
    while place < end {
        let rank = requested.at(line, place)?;
        let is_first = match &best {
            None => true,
            Some(first) => ByRank::is_before(rank, *first),
        };
        if !is_first {
            return best;
        }
        if let Some(kept) = open_record(rows, pool, rank.request) {
            if blocking(classes, awaited, rows, pool, &asked_of(&kept)).is_none() {
                return Some(rank);
            }
            if are_alike {
                return best;
            }
        }
        place = requested.open_from(pool, line, place + 1);
    }
    best
}

impl Index {
    /// The request at a place among those that the pool's launcher may take up, in the order in
    /// which launchers take them up. For each request up to that place each line that has a request
    /// is found by a binary search, and walked to the first that may be taken up and comes after the
    /// request before; no further than to the best of the lines before it.
    ///
    /// In a line, requests that are closed to the pool, since it declined them or they are pinned to
    /// others, are passed over a run at a time, which costs the square of the logarithm; of one that
    /// is held, the holder is looked up. What a tenant uses is read for at most one request of each
    /// line but the common one, so that a tenant at its limit costs by the different label lists that
    /// wait, and not by its requests. In the common line a request that is pinned, or has no tenant
    /// with a limit, has room without that; for each other one there, as one whose labels are not
    /// those of its job, what its tenant uses may be read.
    pub fn candidate_at<R: Rows>(&self, rows: &R, pool: PoolId, at: u32) -> Option<RequestId>
        requires fits { Fits (R.site rows.now) (R.state rows.now) }
        requires index { IsIndexOf (R.site rows.now) (R.state rows.now) self.now }
        ensures { result ≡ candidate_of (R.site rows.now) (R.state rows.now) pool at }
    {
        let requested = &self.requested;
        let mut after = None;
        for _place in 0..=at {
            let mut best = None;
            let mut next = requested.first_line();
            while let Some(line) = next {
                best = earlier_in_line(
                    &self.classes,
                    &self.awaited,
                    requested,
                    rows,
                    pool,
                    line,
                    after,
                    best,
                );
                next = requested.line_after(line);
            }
            let found = best?;
            after = Some(found);
        }
        Some(after?.request)
    }

    /// The first request that the pool's launcher may take up. It costs what `candidate_at` does.
    pub fn first_of<R: Rows>(&self, rows: &R, pool: PoolId) -> Option<RequestId>
        requires fits { Fits (R.site rows.now) (R.state rows.now) }
        requires index { IsIndexOf (R.site rows.now) (R.state rows.now) self.now }
        ensures { result ≡ first_of (R.site rows.now) (R.state rows.now) pool }
    {
        self.candidate_at(rows, pool, 0)
    }
}
