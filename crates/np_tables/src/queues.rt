//! The rows in whose queues a session is.

ghost use Rattle.std.specs.Prelude.{◌≡◌, ◌≤◌, filter, length, map, slice_get};
ghost use Rattle.np_tables.specs.Lower.{is_queued};

use np_machine::{Locked, is_in};
use np_text::SessionId;

/// How many of the rows have the session in their queues.
pub(crate) fn count_queued<I, K>(rows: &[Locked<I, K>], session: SessionId) -> usize
    ensures count { result ≡ length (filter (λ e. is_queued session e.queue) rows.now) }
    ensures few { result ≤ length rows.now }
{
    rows.iter()
        .filter(|row| is_in(row.queue.items(), session))
        .count()
}

/// The id of the row at a place among those that have the session in their queues.
pub(crate) fn queued_at<I: Copy, K>(rows: &[Locked<I, K>], session: SessionId, at: u32) -> Option<I>
    ensures { result ≡
        slice_get (map (λ e. e.id) (filter (λ e. is_queued session e.queue) rows.now)) at }
{
    let mut left = at;
    for row in rows {
        if !is_in(row.queue.items(), session) {
            continue;
        }
        if left == 0 {
            return Some(row.id);
        }
        left -= 1;
    }
    None
}
