//! The launcher and the janitor of a pool.

ghost use Rattle.std.specs.Prelude.{◌≡◌, IfOk, Some};
ghost use Rattle.np_worker.specs.Lower.{Launcher};
ghost use Rattle.np_worker.specs.Prelude.{Work, acting, driving, recorded, sweeps};
ghost use Rattle.np_worker.specs.Stage.{Counts, Part, Comes, IsOfWork, WentOn, phase_of};

use crate::act::{ACTS, take_turns};
use crate::driver::{launch_server, remove_server};
use crate::next::Next;
use crate::stage::{Stage, acting};
use crate::{Ask, Turn};
use np_cloud::{Driver, Gate};
use np_desk::Turns;
use np_event::Entry;
use np_text::{NoMemory, PoolId, Role};

/// How many turns, launches and removals the two roles may come to, and one more: three for each act
/// at most.
const STEPS: u32 = 97;

/// Takes the turns that come one after another, and does what comes then: launches a server for an
/// accepted start, whatever became of the start's session, or removes the server of a due node.
fn play_on<D: Driver, T: Turns<Ask = Ask, Entry = Entry, Turn = Turn>, G: Gate>(
    driver: &mut D,
    turns: &mut T,
    gate: &G,
    stage: &mut Stage,
    entries: &mut u32,
) -> Result<Next, NoMemory>
    requires ready { T.ready turns.old }
    requires recorded { T.recorded ≡ recorded }
    ensures ready { T.ready turns.new }
    ensures fixed { T.fixed turns.new ≡ T.fixed turns.old }
    ensures place { T.place turns.new ≡ T.place turns.old }
    ensures part { let d = Some (driving D.facts D.plan D.sound D.room driver.old) in
        let e = Some (driving D.facts D.plan D.sound D.room driver.new) in
        Part T.answers (T.fixed turns.old) (phase_of stage.old)
        (T.sight turns.old) (T.sight turns.new) d e
        (Comes (phase_of stage.new) (phase_of stage.new) d e result) }
    ensures on { IfOk result (λ n. WentOn n (phase_of stage.old) (phase_of stage.new)) }
    ensures work { (w : Work) → IsOfWork w (phase_of stage.old) →
        IfOk result (λ _. IsOfWork w (phase_of stage.new)) }
    ensures count { IfOk result
        (λ _. Counts entries.old (T.sight turns.old) entries.new (T.sight turns.new)) }
{
    let reached = take_turns(turns, *stage, entries)?;
    *stage = reached;
    match reached {
        Stage::Launches { pool, left, start } => {
            gate.pass(start.tag.pool);
            let outcome = launch_server(driver, start.tag)?;
            *stage = Stage::Reports {
                pool,
                left,
                start,
                outcome,
            };
            Ok(Next::Go)
        }
        Stage::Removes { pool, left, number } => {
            let role = Role::Janitor(pool);
            *stage = Stage::Acts { role, left };
            Ok(remove_server(driver, number))
        }
        Stage::Ended => Ok(Next::Full),
        Stage::Sweeps { .. } => Ok(Next::Idle),
        Stage::Rests => Ok(Next::Idle),
        _ => Ok(Next::Go),
    }
}

/// Plays the pool's launcher, and then its janitor.
pub(crate) fn play_roles<D: Driver, T: Turns<Ask = Ask, Entry = Entry, Turn = Turn>, G: Gate>(
    driver: &mut D,
    turns: &mut T,
    gate: &G,
    pool: PoolId,
    entries: &mut u32,
) -> Result<Next, NoMemory>
    requires ready { T.ready turns.old }
    requires recorded { T.recorded ≡ recorded }
    ensures ready { T.ready turns.new }
    ensures fixed { T.fixed turns.new ≡ T.fixed turns.old }
    ensures place { T.place turns.new ≡ T.place turns.old }
    ensures part { let d = Some (driving D.facts D.plan D.sound D.room driver.old) in
        let e = Some (driving D.facts D.plan D.sound D.room driver.new) in
        Part T.answers (T.fixed turns.old) (acting (Launcher pool) 16)
        (T.sight turns.old) (T.sight turns.new) d e
        (Comes (sweeps pool) (sweeps pool) d e result) }
    ensures count { IfOk result
        (λ _. Counts entries.old (T.sight turns.old) entries.new (T.sight turns.new)) }
{
    let mut stage = acting(Role::Launcher(pool), ACTS);
    for _step in 0..STEPS {
        match play_on(driver, turns, gate, &mut stage, entries)? {
            Next::Go => {}
            next => return Ok(next),
        }
    }
    unreachable!()
}
