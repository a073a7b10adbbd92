//! The order in which launchers take requests up.

ghost use Rattle.np_lookups.specs.Ranks.{is_rank_before, rank_equal, rank_one_way, rank_some_way, rank_transitive, same_rank};

use np_lists::Order;
use np_text::RequestId;

/// A requested request, with its relative priority.
#[derive(Clone, Copy, PartialEq)]
pub struct Rank {
    pub request: RequestId,
    pub relative: u32,
}

/// Ranks, by priority, then relative priority, then sequence.
pub struct ByRank;

impl Order for ByRank {
    type Key = Rank;

    type Row = Rank;

    ghost key = { λ rank. rank };

    ghost before = { is_rank_before };

    ghost same = { same_rank };

    fn key(rank: &Rank) -> Rank {
        *rank
    }

    fn is_before(first: Rank, second: Rank) -> bool {
        if first.request.priority != second.request.priority {
            return first.request.priority < second.request.priority;
        }
        if first.relative != second.relative {
            return first.relative < second.relative;
        }
        first.request.seq < second.request.seq
    }

    fn is_same(first: Rank, second: Rank) -> bool {
        first.request.priority == second.request.priority
            && first.request.seq == second.request.seq
            && first.relative == second.relative
    }

    ghost transitive = { rank_transitive };

    ghost one_way = { rank_one_way };

    ghost some_way = { rank_some_way };

    ghost equal = { rank_equal };
}
