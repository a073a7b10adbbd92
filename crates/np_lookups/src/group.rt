//! Which groups a request is in, by its record and its line.

ghost use Rattle.std.specs.Prelude.{◌≡◌, length};
ghost use Rattle.np_lookups.specs.Open.{closed_group, line_if, open_group};
ghost use Rattle.np_lookups.specs.Moves.{closed_member, open_member};

use crate::ranks::Rank;
use np_config::Config;
use np_lists::{Group, Member};
use np_look::is_open_to;
use np_record::RequestRecord;
use np_text::{POOLS, PoolId, RequestId, RequestState};

/// The requested requests of the line.
pub(crate) fn open_group(line: u64) -> Group
    ensures { result ≡ open_group line }
{
    Group {
        class: 0,
        first: 0,
        second: 0,
        third: line,
    }
}

/// Those of them that are closed to the pool.
pub(crate) fn closed_group(line: u64, pool: PoolId) -> Group
    ensures { result ≡ closed_group line pool }
{
    Group {
        class: 1,
        first: pool.0,
        second: 0,
        third: line,
    }
}

/// The line of the group, if it is one of requested requests.
pub(crate) fn line_if(found: Option<Group>) -> Option<u64>
    ensures { result ≡ line_if found }
{
    let group = found?;
    if group.class != 0 || group.first != 0 || group.second != 0 {
        return None;
    }
    Some(group.third)
}

/// How many pools there are. One lookup for each.
pub(crate) fn pools_of(config: &Config) -> u16
    ensures { result ≡ length config.now.pools }
{
    config.know_soundness();
    for number in 0..POOLS as u16 {
        if config.pool(PoolId(number)).is_none() {
            return number;
        }
    }
    POOLS as u16
}

/// The request in the line's group, if it is there and requested.
pub(crate) fn open_member(
    line: u64,
    request: RequestId,
    kept: &Option<RequestRecord>,
) -> Option<Member<Rank>>
    ensures { result ≡ open_member line request kept.now }
{
    let kept = kept.as_ref()?;
    if kept.state != RequestState::Requested {
        return None;
    }
    Some(Member {
        group: open_group(line),
        id: Rank {
            request,
            relative: kept.relative_priority,
        },
    })
}

/// The request in the group of those that are closed to the pool, if it is one of them.
pub(crate) fn closed_member(
    line: u64,
    pool: PoolId,
    request: RequestId,
    kept: &Option<RequestRecord>,
) -> Option<Member<Rank>>
    ensures { result ≡ closed_member line pool request kept.now }
{
    let kept = kept.as_ref()?;
    if kept.state != RequestState::Requested || is_open_to(pool, kept, None) {
        return None;
    }
    Some(Member {
        group: closed_group(line, pool),
        id: Rank {
            request,
            relative: kept.relative_priority,
        },
    })
}
