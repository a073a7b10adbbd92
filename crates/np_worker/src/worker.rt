//! Workers, and their rounds.

ghost use Rattle.std.specs.Prelude.{◌≡◌, ℕ, ◌+◌, length, Bool, IfOk, Some};
ghost use Rattle.np_worker.specs.Lower.{Configuration, Launcher};
ghost use Rattle.np_worker.specs.Prelude.{acting, driving, first_phase, recorded};
ghost use Rattle.np_worker.specs.Board.{AnswersAsBoard, HasRoundAtBoard};
ghost use Rattle.np_worker.specs.Stage.{Counts, Part, SweepsAll, is_full};
ghost use Rattle.np_worker.specs.Moves.{HasMoves};
ghost use Rattle.np_worker.specs.Hosting.{EndsAs, work_of, driving_of};

use crate::act::act_often;
use crate::next::Next;
use crate::roles::play_roles;
use crate::sweep::sweep;
use crate::{Ask, Turn};
use np_cloud::{Driver, Gate};
use np_desk::Turns;
use np_event::Entry;
use np_text::{NoMemory, PoolId, RequesterId, Role};

/// Who plays which roles.
#[derive(Drop)]
pub enum Worker<D> {
    /// The launcher and the janitor of a pool, with the pool's driver.
    Pool { pool: PoolId, driver: D },
    /// A requester.
    Requester(RequesterId),
    /// The reaper.
    Reaper,
}

/// What a round came to.
#[derive(Clone, Copy, Debug, PartialEq, Eq)]
pub struct RoundEnd {
    /// How many entries it made.
    pub entries: u32,
    /// Whether it ended because the journal has no room.
    pub full: bool,
}

fn round_end(entries: u32, next: Next) -> RoundEnd
    ensures { result ≡ record { entries = entries; full = is_full next } }
{
    let full = matches!(next, Next::Full);
    RoundEnd { entries, full }
}

/// Plays the launcher of a pool, then its janitor, and last asks about the servers.
fn play_pool<D: Driver, T: Turns<Ask = Ask, Entry = Entry, Turn = Turn>, G: Gate>(
    driver: &mut D,
    turns: &mut T,
    gate: &G,
    pool: PoolId,
    entries: &mut u32,
) -> Result<Next, NoMemory>
    requires ready { T.ready turns.old }
    requires recorded { T.recorded ≡ recorded }
    ensures ready { T.ready turns.new }
    ensures fixed { T.fixed turns.new ≡ T.fixed turns.old }
    ensures place { T.place turns.new ≡ T.place turns.old }
    ensures part { let d = driving D.facts D.plan D.sound D.room driver.old in
        let e = driving D.facts D.plan D.sound D.room driver.new in
        Part T.answers (T.fixed turns.old) (acting (Launcher pool) 16)
        (T.sight turns.old) (T.sight turns.new) (Some d) (Some e) (SweepsAll pool d e result) }
    ensures count { IfOk result
        (λ _. Counts entries.old (T.sight turns.old) entries.new (T.sight turns.new)) }
{
    match play_roles(driver, turns, gate, pool, entries)? {
        Next::Full => Ok(Next::Full),
        Next::Failed => Ok(Next::Failed),
        _ => sweep(driver, turns, pool, entries),
    }
}

impl<D: Driver> Worker<D> {
    /// Plays one round: at most 16 turns of each role in which it acts, and what they call for. The
    /// round ends when a turn finds the journal full, and when memory runs out. What was done then
    /// remains: an accepted start may have no launch yet, or no report of it. A removal that fails
    /// ends the removals of this round. More than 4,294,967,295 entries or servers are reported as
    /// running out of memory.
    pub fn round<T: Turns<Ask = Ask, Entry = Entry, Turn = Turn>, G: Gate>(
        &mut self,
        turns: &mut T,
        gate: &G,
    ) -> Result<RoundEnd, NoMemory>
        requires ready { T.ready turns.old }
        requires recorded { T.recorded ≡ recorded }
        ensures ready { T.ready turns.new }
        ensures fixed { T.fixed turns.new ≡ T.fixed turns.old }
        ensures place { T.place turns.new ≡ T.place turns.old }
        ensures work { work_of self.new ≡ work_of self.old }
        ensures round { let d = driving_of D.facts D.plan D.sound D.room self.old in
            let e = driving_of D.facts D.plan D.sound D.room self.new in
            Part T.answers (T.fixed turns.old) (first_phase (work_of self.old))
            (T.sight turns.old) (T.sight turns.new) d e (EndsAs (work_of self.old) d e result) }
        ensures entries { IfOk result (λ end. length (T.sight turns.new).mine
            ≡ length (T.sight turns.old).mine + end.entries) }
        ensures moves { HasMoves T.answers (T.fixed turns.old) (work_of self.old)
            (T.sight turns.old) (T.sight turns.new)
            (driving_of D.facts D.plan D.sound D.room self.old)
            (driving_of D.facts D.plan D.sound D.room self.new) }
        ensures board { (plans : Bool) (site : T.Fixed → Configuration) →
            AnswersAsBoard plans site T.answers →
            HasRoundAtBoard plans (site (T.fixed turns.old)) (work_of self.old)
            (T.sight turns.old) (T.sight turns.new)
            (driving_of D.facts D.plan D.sound D.room self.old)
            (driving_of D.facts D.plan D.sound D.room self.new) result }
    {
        self.play(turns, gate)
    }

    /// The turns of each role in their order, with the launches and removals that they call for.
    fn play<T: Turns<Ask = Ask, Entry = Entry, Turn = Turn>, G: Gate>(
        &mut self,
        turns: &mut T,
        gate: &G,
    ) -> Result<RoundEnd, NoMemory>
        requires ready { T.ready turns.old }
        requires recorded { T.recorded ≡ recorded }
        ensures ready { T.ready turns.new }
        ensures fixed { T.fixed turns.new ≡ T.fixed turns.old }
        ensures place { T.place turns.new ≡ T.place turns.old }
        ensures work { work_of self.new ≡ work_of self.old }
        ensures round { let d = driving_of D.facts D.plan D.sound D.room self.old in
            let e = driving_of D.facts D.plan D.sound D.room self.new in
            Part T.answers (T.fixed turns.old) (first_phase (work_of self.old))
            (T.sight turns.old) (T.sight turns.new) d e (EndsAs (work_of self.old) d e result) }
        ensures entries { IfOk result (λ end. length (T.sight turns.new).mine
            ≡ length (T.sight turns.old).mine + end.entries) }
    {
        let mut entries = 0;
        match self {
            Worker::Pool { pool, driver } => {
                let next = play_pool(driver, turns, gate, *pool, &mut entries)?;
                Ok(round_end(entries, next))
            }
            Worker::Requester(id) => {
                let next = act_often(turns, Role::Requester(*id), &mut entries)?;
                Ok(round_end(entries, next))
            }
            Worker::Reaper => {
                let next = act_often(turns, Role::Reaper, &mut entries)?;
                Ok(round_end(entries, next))
            }
        }
    }
}
