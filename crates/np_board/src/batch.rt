//! What a worker asks with one ticket at the desk of a board.

ghost use Rattle.std.specs.Prelude.{◌≡◌};
ghost use Rattle.np_board.specs.Batch.{HearsWithTicket, after, after_commit, after_plain, asks_with_ticket, launcher_ask, turn_ask};

use crate::board::{PlanAsk, PlanTurn};
use np_desk::Series;
use np_text::{PoolId, Role};
use np_worker::{Ask, Turn};

/// How far the launcher is with the ticket.
#[derive(Clone, Copy)]
pub(crate) enum Stage {
    /// Its next event is the one that it planned with an earlier ticket.
    Committing,
    /// That plan was stale, and it hears what changed at its spots.
    Hearing,
    /// There was no plan, or it was stale, and it plans an event.
    Planning,
    /// The plan of this pool was committed, and it plans its next event.
    PlanningNext(PoolId),
    /// It has no event that can be planned, or the journal is full, and asks without a plan.
    Asking,
    /// It has a plan for its next ticket.
    Planned,
}

impl Stage {
    /// What the pool's launcher asks for its next turn, unless its plan is for the next ticket.
    fn launcher_ask(self, pool: PoolId) -> Option<PlanAsk>
        ensures { result ≡ launcher_ask self pool }
    {
        match self {
            Stage::Committing => Some(PlanAsk::Commit(pool)),
            Stage::Hearing => Some(PlanAsk::News(pool)),
            Stage::Planning => Some(PlanAsk::Peek(pool)),
            Stage::Asking => Some(PlanAsk::Plain(Ask::Act(Role::Launcher(pool)))),
            Stage::PlanningNext(_) | Stage::Planned => None,
        }
    }

    /// The stage after an answer that is no turn of the series.
    fn after(self, turn: PlanTurn) -> Stage
        ensures { result ≡ after self turn }
    {
        match self {
            Stage::Committing => match turn {
                PlanTurn::Stale { .. } => Stage::Hearing,
                PlanTurn::Full => Stage::Asking,
                _ => Stage::Planning,
            },
            Stage::Hearing => Stage::Planning,
            Stage::Planning | Stage::PlanningNext(_) => match turn {
                PlanTurn::Idle => Stage::Asking,
                _ => Stage::Planned,
            },
            Stage::Asking | Stage::Planned => Stage::Planned,
        }
    }
}

/// What is asked for a turn, unless it is a launcher's whose plan is for the next ticket.
fn turn_ask(stage: Stage, ask: Ask) -> Option<PlanAsk>
    ensures { result ≡ turn_ask stage ask }
{
    match ask {
        Ask::Act(Role::Launcher(pool)) => stage.launcher_ask(pool),
        ask => Some(PlanAsk::Plain(ask)),
    }
}

/// The stage after a commit, for which the series had asked this.
fn after_commit(asked: Option<Ask>) -> Stage
    ensures { result ≡ after_commit asked }
{
    match asked {
        Some(Ask::Act(Role::Launcher(pool))) => Stage::PlanningNext(pool),
        _ => Stage::Planned,
    }
}

/// The stage after a turn without a plan.
fn after_plain(stage: Stage) -> Stage
    ensures { result ≡ after_plain stage }
{
    match stage {
        Stage::Asking => Stage::Planning,
        stage => stage,
    }
}

/// The asks of a series that come with one ticket: all up to a launcher's turn whose plan was made
/// with this ticket, since a plan is committed with a later one. A launcher commits the plan that it
/// made before and plans its next event; of a plan that is stale it hears what changed, and plans
/// anew.
#[derive(Clone, Copy)]
pub(crate) struct Batch<S> {
    pub(crate) series: S,
    /// How many more turns of the series may be taken.
    pub(crate) left: u32,
    pub(crate) stage: Stage,
}

impl<S: Series<Ask = Ask, Turn = Turn>> Series for Batch<S> {
    type Ask = PlanAsk;

    type Turn = PlanTurn;

    ghost asks = { asks_with_ticket S.asks };

    ghost hears = { HearsWithTicket S.asks S.hears };

    fn ask(&self) -> Option<PlanAsk> {
        if let Stage::PlanningNext(pool) = self.stage {
            return Some(PlanAsk::Peek(pool));
        }
        if self.left == 0 {
            return None;
        }
        match self.series.ask() {
            None => None,
            Some(ask) => turn_ask(self.stage, ask),
        }
    }

    fn hear(&mut self, turn: PlanTurn) {
        match turn {
            PlanTurn::Plain(turn) => {
                self.series.hear(turn);
                self.left = self.left.saturating_sub(1);
                self.stage = after_plain(self.stage);
            }
            PlanTurn::Did(entry) => {
                self.stage = after_commit(self.series.ask());
                self.series.hear(Turn::Did(entry));
                self.left = self.left.saturating_sub(1);
            }
            other => self.stage = self.stage.after(other),
        }
    }
}
