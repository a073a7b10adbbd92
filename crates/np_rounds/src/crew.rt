//! Workers with their passes.

ghost use Rattle.std.specs.Prelude.{◌≡◌, true, false, length, map, IfOk};
ghost use Rattle.np_rounds.specs.Lower.{AreNumbered, IsOf, driving, drivings_of};
ghost use Rattle.np_rounds.specs.Crews.{players_of};
ghost use Rattle.np_rounds.specs.Plays.{CrewPlays};

use crate::plain::PlainTurns;
use np_board::{Board, Planner};
use np_cloud::{Driver, Gate};
use np_config::Config;
use np_desk::{Desk, Pass};
use np_text::{NoMemory, PoolId, RequesterId};
use np_worker::{RoundEnd, Worker};
use std::alloc::Global;
use std::sync::Wait;

/// A worker with its pass for a round.
#[derive(Drop)]
pub(crate) struct Crew<D, P> {
    pub(crate) worker: Worker<D>,
    pub(crate) pass: P,
}

/// A crew after a round, with what the round came to.
#[derive(Drop)]
pub(crate) struct CrewEnd<D, P> {
    pub(crate) crew: Crew<D, P>,
    pub(crate) end: Result<RoundEnd, NoMemory>,
}

/// Lets the crew's worker play a round in which launchers plan.
fn play_planned<R: Wait, D: Driver, G: Gate>(
    rt: &R,
    desk: &Desk<Board>,
    gate: &G,
    crew: Crew<D, Pass<Board>>,
) -> CrewEnd<D, Pass<Board>>
    requires own { IsOf crew.pass desk.now }
    ensures { CrewPlays true D.facts D.plan D.sound D.room desk.now crew result }
{
    let Crew { mut worker, pass } = crew;
    let mut turns = Planner { rt, desk, pass };
    let end = worker.round(&mut turns, gate);
    let Planner { pass, .. } = turns;
    CrewEnd {
        crew: Crew { worker, pass },
        end,
    }
}

/// Lets the crew's worker play a round in which nobody plans.
fn play_plainly<R: Wait, D: Driver, G: Gate>(
    rt: &R,
    desk: &Desk<Board>,
    gate: &G,
    crew: Crew<D, Pass<Board>>,
) -> CrewEnd<D, Pass<Board>>
    requires own { IsOf crew.pass desk.now }
    ensures { CrewPlays false D.facts D.plan D.sound D.room desk.now crew result }
{
    let Crew { mut worker, pass } = crew;
    let mut turns = PlainTurns { rt, desk, pass };
    let end = worker.round(&mut turns, gate);
    let PlainTurns { pass, .. } = turns;
    CrewEnd {
        crew: Crew { worker, pass },
        end,
    }
}

/// Lets the crew's worker play a round.
pub(crate) fn play<R: Wait, D: Driver, G: Gate>(
    rt: &R,
    desk: &Desk<Board>,
    plans: bool,
    gate: &G,
    crew: Crew<D, Pass<Board>>,
) -> CrewEnd<D, Pass<Board>>
    requires own { IsOf crew.pass desk.now }
    ensures { CrewPlays plans D.facts D.plan D.sound D.room desk.now crew result }
{
    match plans {
        true => play_planned(rt, desk, gate, crew),
        false => play_plainly(rt, desk, gate, crew),
    }
}

/// The workers of the site, in the reverse of the order in which they are given passes: the
/// reaper's, one for each requester, and one for each pool with its driver, the first pool last.
pub(crate) fn workers_of<D: Driver + Drop>(
    alloc: Global,
    config: &Config,
    mut drivers: Vec<D>,
) -> Result<Vec<Worker<D>>, NoMemory>
    requires drivers { length drivers.items ≡ length config.now.pools }
    ensures numbered { IfOk result (λ v.
        AreNumbered 0 (players_of D.facts D.plan D.sound D.room v.items)) }
    ensures drivings { IfOk result (λ v.
        drivings_of (players_of D.facts D.plan D.sound D.room v.items)
        ≡ map (driving D.facts D.plan D.sound D.room) drivers.items) }
{
    config.know_soundness();
    let mut workers = Vec::new(alloc);
    workers.push(Worker::Reaper)?;
    for id in 0..u16::MAX {
        if config.requester(RequesterId(id)).is_none() {
            break;
        }
        workers.push(Worker::Requester(RequesterId(id)))?;
    }
    while let Some(driver) = drivers.pop() {
        let pool = PoolId(drivers.len() as u16);
        workers.push(Worker::Pool { pool, driver })?;
    }
    Ok(workers)
}

/// The drivers of the pools' workers, in the order of the pools.
pub(crate) fn drivers_of<D: Driver + Drop>(
    alloc: Global,
    mut workers: Vec<Worker<D>>,
) -> Result<Vec<D>, NoMemory>
    ensures { IfOk result (λ v. map (driving D.facts D.plan D.sound D.room) v.items
        ≡ drivings_of (players_of D.facts D.plan D.sound D.room workers.items)) }
{
    let mut drivers = Vec::new(alloc);
    while let Some(worker) = workers.pop() {
        if let Worker::Pool { driver, .. } = worker {
            drivers.push(driver)?;
        }
    }
    Ok(drivers)
}
