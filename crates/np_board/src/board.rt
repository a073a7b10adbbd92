//! The board, at which launchers may plan: they choose on the tree as it stands, give up their turn, and
//! commit later, where nothing changed at what the judgement of their event reads.
//!
//! `specs/Outstanding` says what an outstanding plan is, and what a board knows of it for as long as
//! it is outstanding: its event was useful after some beginning of the journal, and the tree was then
//! one that is not later than the present one. `specs/PlanTaken` says what a turn leaves.

ghost use Rattle.std.specs.Prelude.{◌≡◌, ◌↔◌, [], true, IfOk, None, OnErr, length, replicate};
ghost use Rattle.np_board.specs.Lower.{Holds, IsFitSite, IsHeld, IsSettled, Runs, decoded, start};
ghost use Rattle.np_rules.specs.Running as running;
ghost use Rattle.np_board.specs.Outstanding.{FreshAreAccepted, IsPlanning, ran_of, with_plan};
ghost use Rattle.np_board.specs.PlanTaken.{IsAsBefore, IsCommitted, IsPlanTaken, TakenCommit, TakenNews, TakenPeek, TakenPlain};
ghost use Rattle.np_board.specs.Batch.{IsMayDo, IsTested};

mod commit;
mod object;
mod peek;
mod plan;
mod plans;

use crate::board::commit::{stale_spot, take_news, told_by};
use crate::board::peek::peeked;
use crate::board::plans::Plans;
use crate::turns::{has_settled, take_turn};
use np_config::Config;
use np_event::{Entry, Event};
use np_keeper::TreeStore;
use np_planned::{Spot, fresh_spots_commit, spots_have_paths};
use np_rules::Machine;
use np_text::{JOURNAL_ENTRIES, NoMemory, PoolId};
use np_tree::Tree;
use np_worker::Ask;
pub use plan::{Plan, PlanAsk, PlanTurn};
use std::alloc::Global;
use std::marker::Model;

/// The machine over a coordination tree, in which its state is after every call, with at most one
/// outstanding plan for each pool. It changes by entries of the journal alone.
#[derive(Drop)]
pub struct Board {
    alloc: Global,
    machine: Machine<TreeStore>,
    plans: Plans,
    commits: u32,
}

impl Model for Board {
    ghost use Rattle.std.specs.Prelude.{◌≡◌};
    ghost use Rattle.np_board.specs.Outstanding.{IsPlanning, Planning, planning_of};

    ghost Value = { Planning };

    ghost view = { λ b. planning_of b.machine b.commits b.plans };

    // It began before the first event.
    ghost invariant = { λ b. (b.machine.earlier ≡ 0)
        × IsPlanning (planning_of b.machine b.commits b.plans) };
}

/// What a commit of a pool's plan would do.
enum Test {
    /// There is no plan.
    Idle,
    /// There is no room.
    Full,
    /// Something changed at the spot.
    Stale { spot: Spot, change: u64 },
    /// The event is accepted.
    MayDo(Event),
}

impl Board {
    /// The board before the first event, with no plan.
    pub fn new(alloc: Global, config: Config) -> Result<Board, NoMemory>
        ensures configuration { IfOk result (λ b. b.configuration ≡ config) }
        ensures journal { IfOk result (λ b. b.journal ≡ []) }
        ensures state { IfOk result (λ b. b.state ≡ start config) }
        ensures plans { IfOk result (λ b. b.plans ≡ replicate (length config.pools) None) }
        ensures commits { IfOk result (λ b. b.commits ≡ 0) }
    {
        let plans = Plans::none(alloc, config.pools().len())?;
        let store = TreeStore::new(alloc, &config)?;
        let machine = Machine::begin(alloc, config, store)?;
        Ok(Board {
            alloc,
            machine,
            plans,
            commits: 0,
        })
    }

    /// The journal leads to the state, and the configuration leaves room for every run. Of each
    /// outstanding plan, a spot isn't fresh, or the event is accepted now. The call does nothing: a
    /// caller's proof takes the facts from it.
    pub fn know_soundness(&self)
        ensures site { IsFitSite self.now.configuration }
        ensures runs { Runs self.now.configuration self.now.journal self.now.state }
        ensures plans { FreshAreAccepted self.now }
        ensures planning { IsPlanning self.now }
    {
        self.machine.know_soundness();
        let _tree = self.machine.store();
        fresh_spots_commit();
    }

    /// What was recorded, the first entry first.
    pub fn journal(&self) -> &[Entry]
        ensures { result.now ≡ self.now.journal }
    {
        self.machine.journal()
    }

    /// The machine, which reads and searches the state.
    pub fn machine(&self) -> &Machine<TreeStore>
        ensures same { running.ran_of result.now ≡ ran_of self.now }
        // It began before the first event.
        ensures first { result.now.earlier ≡ 0 }
    {
        &self.machine
    }

    /// The tree, which lays the state out.
    pub fn tree(&self) -> &Tree
        ensures same { result.now ≡ self.now.tree }
        ensures held { IsHeld self.now.configuration result.now }
        ensures state { decoded self.now.configuration result.now ≡ self.now.state }
    {
        self.machine.store().tree()
    }

    /// How many plans were committed.
    pub fn commits(&self) -> u32
        ensures { result ≡ self.now.commits }
    {
        self.commits
    }

    /// Whether no role has a useful event. It takes no memory, and costs a choice of each role.
    pub fn settled(&self) -> bool
        ensures { (result ≡ true) ↔ IsSettled self.now.configuration self.now.state }
    {
        has_settled(&self.machine)
    }

    /// Gives up the board, with the memory that it has.
    pub fn close(self) {}

    /// Takes the turn that the ask names. If memory runs out, the journal, the state and the plans
    /// stay as they are.
    pub fn take_turn(&mut self, ask: PlanAsk) -> Result<PlanTurn, NoMemory>
        ensures turn { IfOk result (λ t. IsPlanTaken self.old ask t self.new) }
        ensures err { OnErr result (IsAsBefore self.old self.new) }
    {
        match ask {
            PlanAsk::Plain(plain) => self.plain(plain),
            PlanAsk::Peek(pool) => self.peek(pool),
            PlanAsk::News(pool) => Ok(self.news(pool)),
            PlanAsk::Commit(pool) => self.commit(pool),
        }
    }

    /// A turn without a plan: no plan changes.
    fn plain(&mut self, ask: Ask) -> Result<PlanTurn, NoMemory>
        ensures turn { IfOk result (λ t. TakenPlain self.old ask t self.new) }
        ensures err { OnErr result (IsAsBefore self.old self.new) }
    {
        self.know_soundness();
        let turn = take_turn(&mut self.machine, ask)?;
        Ok(PlanTurn::Plain(turn))
    }

    /// Plans a useful event of the pool's launcher.
    fn peek(&mut self, pool: PoolId) -> Result<PlanTurn, NoMemory>
        ensures turn { IfOk result (λ t. TakenPeek self.old pool t self.new) }
        ensures err { OnErr result (self.new ≡ self.old) }
    {
        self.know_soundness();
        let _tree = self.machine.store();
        let found = peeked(self.alloc, &self.machine, pool)?;
        let Some(watched) = found else {
            return Ok(PlanTurn::Idle);
        };
        let plan = watched.plan;
        self.plans.put(pool, Some(watched));
        Ok(PlanTurn::Planned(plan))
    }

    /// Takes out the first watch of the pool's plan that fires.
    fn news(&mut self, pool: PoolId) -> PlanTurn
        ensures { TakenNews self.old pool result self.new }
    {
        self.know_soundness();
        let Some(mut watched) = self.plans.take(pool) else {
            return PlanTurn::Idle;
        };
        let news = take_news(self.machine.store().tree(), &mut watched);
        self.plans.put(pool, Some(watched));
        told_by(news)
    }

    /// Commits the pool's plan, if it has one.
    fn commit(&mut self, pool: PoolId) -> Result<PlanTurn, NoMemory>
        ensures turn { IfOk result (λ t. TakenCommit self.old pool t self.new) }
        ensures err { OnErr result (IsAsBefore self.old self.new) }
    {
        match self.test(pool) {
            Test::Idle => Ok(PlanTurn::Idle),
            Test::Full => Ok(PlanTurn::Full),
            Test::Stale { spot, change } => {
                self.drop_plan(pool);
                Ok(PlanTurn::Stale { spot, change })
            }
            Test::MayDo(event) => {
                let entry = self.record(pool, event)?;
                Ok(PlanTurn::Did(entry))
            }
        }
    }

    /// What a commit of the pool's plan would do.
    fn test(&self, pool: PoolId) -> Test
        ensures { IsTested self.now pool result }
    {
        self.know_soundness();
        spots_have_paths();
        let tree = self.machine.store().tree();
        let Some(watched) = self.plans.find(pool) else {
            return Test::Idle;
        };
        if self.machine.journal().len() >= JOURNAL_ENTRIES {
            return Test::Full;
        }
        match stale_spot(tree, watched) {
            None => Test::MayDo(watched.plan.event),
            Some(stale) => Test::Stale {
                spot: stale.spot,
                change: stale.change,
            },
        }
    }

    /// Forgets the pool's plan.
    fn drop_plan(&mut self, pool: PoolId)
        ensures { self.new ≡ record self.old { plans = with_plan pool None self.old.plans } }
    {
        self.plans.put(pool, None);
    }

    /// Records the event of the pool's plan, which is no longer outstanding.
    fn record(&mut self, pool: PoolId, event: Event) -> Result<Entry, NoMemory>
        requires { IsMayDo self.old pool event }
        ensures did { IfOk result (λ e. IsCommitted self.old pool e self.new) }
        ensures err { OnErr result (IsAsBefore self.old self.new) }
    {
        self.know_soundness();
        let reply = self.machine.apply(event)?;
        self.commits += 1;
        self.plans.put(pool, None);
        Ok(Entry { event, reply })
    }
}
