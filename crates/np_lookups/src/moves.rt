//! Requests moved from the groups that they were in to those that they are in now. A member that
//! stays is left where it is.

ghost use Rattle.std.specs.Prelude.{◌≡◌, ◌<◌, ◌≤◌, ◌+◌, ◌*◌, Bool, length};
ghost use Rattle.np_lookups.specs.Lower.{Group};
ghost use Rattle.np_lookups.specs.declared.ranks.Rank.{Rank};
ghost use Rattle.np_lookups.specs.Open.{line_of};
ghost use Rattle.np_lookups.specs.Moves.{AreAsKept, AreBy, IsEither, is_found_closed, is_found_open, passes_moved, passes_with, same_members, with_moved, with_one, without_one};

use crate::group::{closed_member, open_member, pools_of};
use crate::lines::line_of;
use crate::ranks::{ByRank, Rank};
use np_config::Config;
use np_lists::{Groups, Member, Order};
use np_look::Rows;
use np_record::RequestRecord;
use np_text::{JobId, PoolId, RequestId, RequestState};

/// A request and its record before a change, if it was there.
#[derive(Clone, Copy)]
pub(crate) struct Past {
    pub(crate) request: RequestId,
    pub(crate) kept: Option<RequestRecord>,
}

/// Takes the member out, if there is one.
fn take_one(groups: &mut Groups<ByRank>, one: Option<Member<Rank>>)
    ensures members { groups.new.members ≡ without_one one groups.old.members }
    ensures room { groups.old.room ≤ groups.new.room }
{
    if let Some(member) = one {
        groups.remove(member.group, member.id);
    }
}

/// Puts the member in its group, if there is one.
fn put_one(groups: &mut Groups<ByRank>, one: Option<Member<Rank>>)
    requires { 0 < groups.old.room }
    ensures members { groups.new.members ≡ with_one one groups.old.members }
    ensures room { groups.old.room ≤ groups.new.room + 1 }
{
    if let Some(member) = one {
        groups.put(member.group, member.id);
    }
}

fn are_same(one: Option<Member<Rank>>, other: Option<Member<Rank>>) -> bool
    ensures { result ≡ same_members one other }
{
    match (one, other) {
        (None, None) => true,
        (Some(one), Some(other)) => one.group == other.group && ByRank::is_same(one.id, other.id),
        _ => false,
    }
}

/// Takes the one member out and puts the other in, unless they are the same.
fn move_one(groups: &mut Groups<ByRank>, was: Option<Member<Rank>>, now: Option<Member<Rank>>)
    requires { 0 < groups.old.room }
    ensures members { groups.new.members ≡ with_moved was now groups.old.members }
    ensures room { groups.old.room ≤ groups.new.room + 1 }
{
    if are_same(was, now) {
        return;
    }
    take_one(groups, was);
    put_one(groups, now);
}

/// Whether the record is there and requested, so that the request is in a line.
fn is_open(kept: &Option<RequestRecord>) -> bool
    ensures { result ≡ is_found_open kept.now }
{
    matches!(kept, Some(kept) if kept.state == RequestState::Requested)
}

/// Whether a pool declined it as well, or it is pinned, so that it may be closed to a pool.
fn is_closed(kept: &Option<RequestRecord>) -> bool
    ensures { result ≡ is_found_closed kept.now }
{
    matches!(kept, Some(kept)
        if kept.state == RequestState::Requested
            && (kept.pinned.is_some() || kept.declined.len() != 0))
}

/// Moves a request from the groups that it is in by the one record to those that it is in by the
/// other. If it is in a line by one of them, it finds the line of both; if a pool declined it or it
/// is pinned there, it reads the declines of both for each pool.
pub(crate) fn move_request(
    groups: &mut Groups<ByRank>,
    config: &Config,
    lines: &[JobId],
    pools: u16,
    request: RequestId,
    was: &Option<RequestRecord>,
    now: &Option<RequestRecord>,
)
    requires { pools + 1 ≤ groups.old.room }
    ensures members { (passes : Group → Rank → Bool)
        → IsEither pools (line_of config.now lines.now) request was.now now.now passes
        → AreBy passes groups.old.members
        → AreBy (passes_with pools (line_of config.now lines.now) request now.now passes)
        groups.new.members }
    ensures room { groups.old.room ≤ groups.new.room + (pools + 1) }
{
    if !is_open(was) && !is_open(now) {
        return;
    }
    let left = line_of(config, lines, was);
    let joined = line_of(config, lines, now);
    move_one(
        groups,
        open_member(left, request, was),
        open_member(joined, request, now),
    );
    if !is_closed(was) && !is_closed(now) {
        return;
    }
    for number in 0..pools {
        let pool = PoolId(number);
        move_one(
            groups,
            closed_member(left, pool, request, was),
            closed_member(joined, pool, request, now),
        );
    }
}

/// Moves each of these requests to where the state has it.
pub(crate) fn move_all<R: Rows>(
    groups: &mut Groups<ByRank>,
    rows: &R,
    lines: &[JobId],
    moved: &[Past],
)
    requires { length moved.now * (length (R.site rows.now).pools + 1) ≤ groups.old.room }
    ensures { (passes : Group → Rank → Bool)
        → AreAsKept (R.site rows.now) lines.now moved.now passes
        → AreBy passes groups.old.members
        → AreBy (passes_moved (R.site rows.now) (R.state rows.now) lines.now moved.now passes)
        groups.new.members }
{
    let config = rows.config();
    for past in moved {
        let pools = pools_of(config);
        let now = rows.request(past.request);
        move_request(groups, config, lines, pools, past.request, &past.kept, &now);
    }
}
