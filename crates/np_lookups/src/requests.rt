//! The requested requests in lines and those that are closed to each pool, kept as events change
//! them.

ghost use Rattle.std.specs.Prelude.{◌≡◌, ◌+◌, ◌*◌, Bool, IfOk, IfSome, None, OnOk, Some, length, map, not, slice_get};
ghost use Rattle.np_lookups.specs.Lower.{Changes, Configuration, Group, IsReached, State, changed, count_by};
ghost use Rattle.np_lookups.specs.declared.ranks.Rank.{Rank};
ghost use Rattle.np_lookups.specs.Open.{line_of, AreOpen, IsOpenFrom, first_line, line_after, rank_is_in, ranks_of};
ghost use Rattle.np_lookups.specs.Waits.{AreListed, HasRoom, IsPrepared, past_of};
ghost use Rattle.np_lookups.specs.Moves.{AreBy, IsEither, passes_with};
ghost use Rattle.np_lookups.specs.Ranks.{is_rank_before};

use crate::group::{closed_group, line_if, open_group, pools_of};
use crate::lines::lines_of;
use crate::moves::{Past, move_all, move_request};
use crate::ranks::{ByRank, Rank};
use crate::runs::run_end;
use np_config::Config;
use np_lists::Groups;
use np_look::{RequestView, Rows};
use np_text::{JobId, PoolId, RequestId};
use std::alloc::{AllocError, Global};
use std::marker::Model;

/// The requests that are requested, in lines of those that are alike, each line in the order in
/// which launchers take them up, and for each pool those of a line that are closed to it: it
/// declined them, or they are pinned to another.
#[derive(Drop)]
pub struct Open {
    groups: Groups<ByRank>,
    /// For each job one that has its tenant and its labels.
    lines: Vec<JobId>,
}

impl Model for Open {
    ghost use Rattle.np_lookups.specs.Open.{OpenOf};

    ghost Value = { OpenOf };

    ghost view = { λ kept. record {
      members = kept.groups.members;
      room = kept.groups.room;
      lines = kept.lines.items;
    } };
}

/// The requests that an event's changes touch, with their records before it.
#[derive(Drop)]
pub struct Moved {
    past: Vec<Past>,
}

impl Model for Moved {
    ghost use Rattle.std.specs.Prelude.{List};
    ghost use Rattle.np_lookups.specs.declared.moves.Past.{Past};

    ghost Value = { List Past };

    ghost view = { λ moved. moved.past.items };
}

/// Puts the request in its groups, and takes the memory.
fn add_request(
    groups: &mut Groups<ByRank>,
    config: &Config,
    lines: &[JobId],
    pools: u16,
    view: &RequestView,
) -> Result<(), AllocError>
    ensures { OnOk result ((passes : Group → Rank → Bool)
        → IsEither pools (line_of config.now lines.now) view.now.id None
        (Some view.now.kept) passes
        → AreBy passes groups.old.members
        → AreBy (passes_with pools (line_of config.now lines.now) view.now.id
        (Some view.now.kept) passes) groups.new.members) }
{
    groups.reserve(pools as usize + 1)?;
    move_request(
        groups,
        config,
        lines,
        pools,
        view.id,
        &None,
        &Some(view.kept),
    );
    Ok(())
}

/// The groups of all requests, by one walk over them.
fn all_requests<R: Rows>(
    alloc: Global,
    rows: &R,
    lines: &[JobId],
) -> Result<Groups<ByRank>, AllocError>
    requires { IsReached (R.site rows.now) (R.state rows.now) }
    ensures { IfOk result (λ groups.
        AreBy (rank_is_in (R.site rows.now) (R.state rows.now) lines.now) groups.members) }
{
    let config = rows.config();
    let pools = pools_of(config);
    let mut groups = Groups::new(alloc);
    for at in 0..rows.requests() {
        if let Some(view) = rows.request_view(at) {
            add_request(&mut groups, config, lines, pools, &view)?;
        }
    }
    Ok(groups)
}

/// The requests with their records. One lookup for each.
fn records_of<R: Rows>(
    alloc: Global,
    rows: &R,
    requests: &[RequestId],
) -> Result<Vec<Past>, AllocError>
    ensures { IfOk result (λ moved. moved.items ≡ map (past_of (R.state rows.now)) requests.now) }
{
    let mut moved = Vec::with_capacity(alloc, requests.len())?;
    for request in requests {
        moved.push(Past {
            request: *request,
            kept: rows.request(*request),
        })?;
    }
    Ok(moved)
}

/// The room for so many requests to be in a line and in a group of every pool, if a `usize` can
/// count it. One lookup for each pool, and none for no request.
fn room_for(config: &Config, count: usize) -> Option<usize>
    ensures { IfSome result (λ room. room ≡ count * (length config.now.pools + 1)) }
{
    if count == 0 {
        return Some(0);
    }
    count.checked_mul(pools_of(config) as usize + 1)
}

impl Open {
    /// The requests of the state. For each job it finds the first that has the same tenant and
    /// labels, which costs the number of jobs times that of different lines. Then it reads each
    /// request once, and for each pool the declines of one that is requested.
    pub fn rebuild<R: Rows>(alloc: Global, rows: &R) -> Result<Open, AllocError>
        requires { IsReached (R.site rows.now) (R.state rows.now) }
        ensures { IfOk result (λ x. AreOpen (R.site rows.now) (R.state rows.now) x) }
    {
        let lines = lines_of(alloc, rows.config())?;
        let groups = all_requests(alloc, rows, lines.as_slice())?;
        Ok(Open { groups, lines })
    }

    /// The first line that has a request, or `None` if none is requested. One binary search.
    pub fn first_line(&self) -> Option<u64>
        ensures { result ≡ first_line self.now.members }
    {
        line_if(self.groups.group_from(open_group(0)))
    }

    /// The first line after this one that has a request. One binary search.
    pub fn line_after(&self, line: u64) -> Option<u64>
        ensures { result ≡ line_after line self.now.members }
    {
        line_if(self.groups.group_after(open_group(line)))
    }

    /// How many requests wait in the line. Two binary searches.
    pub fn len(&self, line: u64) -> usize
        ensures { result ≡ length (ranks_of line self.now.members) }
    {
        self.groups.count(open_group(line))
    }

    /// The rank of the request at this place of the line, counted from 0 in the order in which
    /// launchers take requests up. One binary search.
    pub fn at(&self, line: u64, place: usize) -> Option<Rank>
        ensures { result ≡ slice_get (ranks_of line self.now.members) place }
    {
        self.groups.at(open_group(line), place)
    }

    /// How many requests of the line do not come after this rank, which need not be in it. A few
    /// binary searches.
    pub fn past(&self, line: u64, rank: Rank) -> usize
        ensures { (c : Configuration) (s : State) → AreOpen c s self.now
            → result ≡ count_by (λ x. not (is_rank_before rank x))
            (ranks_of line self.now.members) }
    {
        let group = open_group(line);
        let before = self.groups.before(group, rank);
        if before < self.groups.count(group) && self.groups.has(group, rank) {
            before + 1
        } else {
            before
        }
    }

    /// The first place of the line from this one on whose request is not closed to the pool, or the
    /// number of the line's requests (or the place, if that is larger) if there is none. It costs
    /// two binary searches if the request at the place itself is not closed, and else the square of
    /// a logarithm, however many closed ones are skipped.
    pub fn open_from(&self, pool: PoolId, line: u64, place: usize) -> usize
        ensures { (c : Configuration) (s : State) → AreOpen c s self.now
            → IsOpenFrom self.now.members line pool place result }
    {
        let group = closed_group(line, pool);
        let Some(rank) = self.at(line, place) else {
            return place;
        };
        if !self.groups.has(group, rank) {
            return place;
        }
        run_end(&self.groups, line, group, place)
    }

    /// Lists the requests that an event's changes touch, with their records, before the state
    /// changes, and takes the memory for `note`. The members stay as they are, so nothing need be
    /// undone if the change fails. It costs one lookup for each request and, if there is one, one
    /// for each pool, and takes memory for each to be in a group of every pool.
    pub fn prepare<R: Rows>(
        &mut self,
        alloc: Global,
        rows: &R,
        requests: &[RequestId],
    ) -> Result<Moved, AllocError>
        ensures members { self.new.members ≡ self.old.members }
        ensures lines { self.new.lines ≡ self.old.lines }
        ensures prepared { IfOk result (λ moved. (ch : Changes)
            → AreListed ch (R.state rows.now) requests.now
            → IsPrepared (R.state rows.now) ch moved) }
        ensures room { IfOk result (λ moved. HasRoom (R.site rows.now) moved self.new) }
    {
        let past = records_of(alloc, rows, requests)?;
        let Some(room) = room_for(rows.config(), past.len()) else {
            return Err(AllocError);
        };
        self.groups.reserve(room)?;
        Ok(Moved { past })
    }

    /// Moves what was listed to where it is now, after the state has changed. It takes no memory.
    /// For each request it costs one lookup and one for each pool, for one that is requested before
    /// or after the change the line at both, for one that is then pinned or that a pool declined a
    /// reading of its declines for each pool, and a few binary searches for each group that the
    /// request leaves or joins: where it stays, nothing is searched.
    pub fn note<R: Rows>(&mut self, rows: &R, moved: &Moved)
        requires { HasRoom (R.site rows.now) moved.now self.old }
        ensures { (c : Configuration) (s : State) (ch : Changes)
            → IsReached c s → IsPrepared s ch moved.now
            → R.site rows.now ≡ c → R.state rows.now ≡ changed c ch s
            → AreOpen c s self.old → AreOpen c (changed c ch s) self.new }
    {
        move_all(
            &mut self.groups,
            rows,
            self.lines.as_slice(),
            moved.past.as_slice(),
        );
    }
}
