//! Where runs of closed requests end, by counts.

ghost use Rattle.std.specs.Prelude.{◌≡◌, ◌==◌, ◌<◌, ◌+◌, ◌-◌, length};
ghost use Rattle.np_lookups.specs.Open.{ranks_of, IsRunEnd, count_before, is_run};

use crate::group::open_group;
use crate::ranks::ByRank;
use np_lists::{Group, Groups};

/// How many ranks of the group come before the one at the line's place, or how many it has if there
/// is none. Three binary searches.
fn count_before(groups: &Groups<ByRank>, line: u64, group: Group, place: usize) -> usize
    ensures { result ≡ count_before line group groups.now.members place }
{
    match groups.at(open_group(line), place) {
        None => groups.count(group),
        Some(rank) => groups.before(group, rank),
    }
}

/// Whether the ranks of the group before the line's place are this count and so many more.
fn is_more_by(
    groups: &Groups<ByRank>,
    line: u64,
    group: Group,
    place: usize,
    count: usize,
    more: usize,
) -> bool
    ensures { result ≡ (count_before line group groups.now.members place == (count + more)) }
{
    let there = count_before(groups, line, group, place);
    there >= count && there - count == more
}

/// Where the run of ranks of the group ends that begins at the line's place. It costs the square of
/// a logarithm: between two places all ranks are of the group if as many of it come between them as
/// there are places.
pub(crate) fn run_end(groups: &Groups<ByRank>, line: u64, group: Group, place: usize) -> usize
    requires { place < length (ranks_of line groups.now.members) }
    ensures { IsRunEnd line group groups.now.members place result }
{
    let count = count_before(groups, line, group, place);
    let mut high = groups.count(open_group(line));
    let mut low = place + 1;
    while low < high {
        let middle = high - (high - low) / 2;
        if is_more_by(groups, line, group, middle, count, middle - place) {
            low = middle;
        } else {
            high = middle - 1;
        }
    }
    low
}
