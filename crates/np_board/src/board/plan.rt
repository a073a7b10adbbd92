//! Plans, and what may be asked of a board.

use np_event::{Entry, Event};
use np_lists::Items;
use np_path::Path;
use np_planned::{Spot, SpotRow};
use np_text::PoolId;
use np_watch::Watches;
use np_worker::{Ask, Turn};
use std::marker::Model;

/// An event that the pool's launcher chose and has not committed.
#[derive(Clone, Copy)]
pub struct Plan {
    pub pool: PoolId,
    pub event: Event,
    /// The tree's last change when the event was chosen.
    pub at: u64,
    /// What of the tree the judgement of the event reads.
    pub spots: SpotRow,
}

/// What a party asks in a turn.
#[derive(Clone, Copy)]
pub enum PlanAsk {
    /// What is asked without a plan.
    Plain(Ask),
    /// What the pool's launcher would do now, of the kinds that can be planned. Nothing happens yet.
    Peek(PoolId),
    /// What changed at the spots of the pool's plan.
    News(PoolId),
    /// The event of the pool's plan happens, if its spots are as they were.
    Commit(PoolId),
}

/// What a turn answers.
#[derive(Clone, Copy)]
pub enum PlanTurn {
    /// What is answered to that.
    Plain(Turn),
    /// The plan is now the one outstanding plan of its pool.
    Planned(Plan),
    /// Something changed at the spot since the plan was made.
    Fired(Spot),
    /// What was recorded.
    Did(Entry),
    /// The first spot at which something changed, and its last change. The plan is no more.
    Stale { spot: Spot, change: u64 },
    /// There is nothing to do.
    Idle,
    /// There is something to record, and the journal has no room.
    Full,
}

/// A plan with the paths of its spots, and watches on them.
#[derive(Drop)]
pub(crate) struct Watched {
    pub(crate) plan: Plan,
    pub(crate) paths: Items<Path>,
    pub(crate) watches: Watches,
}

impl Model for Watched {
    ghost use Rattle.np_board.specs.Outstanding.{Outstanding};

    ghost Value = { Outstanding };

    ghost view = { λ watched. record {
      plan = watched.plan;
      paths = watched.paths;
      watches = watched.watches;
    } };
}
