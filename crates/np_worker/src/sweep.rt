//! The sweep of a driver's servers.

ghost use Rattle.std.specs.Prelude.{◌≡◌, ◌≤◌, length, Contains, IfOk, IfSome, Some};
ghost use Rattle.np_worker.specs.Prelude.{driving, is_unwanted, recorded, sweeps};
ghost use Rattle.np_worker.specs.Stage.{Counts, Part, SweepsOne, SweepsAll};

use crate::act::take_turn;
use crate::driver::remove_server;
use crate::next::Next;
use crate::{Ask, Turn};
use np_cloud::{Driver, Server};
use np_desk::Turns;
use np_event::{Done, Entry, Reply};
use np_text::{NoMemory, PoolId};

/// Whether the answer to a sweep is that nobody wants the server.
fn is_unwanted(turn: Turn) -> bool
    ensures { result ≡ is_unwanted turn }
{
    match turn {
        Turn::Did(entry) => matches!(entry.reply, Reply::Done(Done::Remove)),
        Turn::Swept => true,
        _ => false,
    }
}

/// How many servers the driver has. More than a `u32` counts are reported as running out of memory.
fn count_servers<D: Driver>(driver: &D) -> Result<u32, NoMemory>
    ensures { IfOk result
        (λ n. IfSome (D.facts driver.now).servers (λ servers. length servers ≤ n)) }
{
    for count in 0..u32::MAX {
        if driver.server(count).is_none() {
            return Ok(count);
        }
    }
    Err(NoMemory)
}

/// Asks about one server, and removes it if nobody wants it.
fn sweep_one<D: Driver, T: Turns<Ask = Ask, Entry = Entry, Turn = Turn>>(
    driver: &mut D,
    turns: &mut T,
    pool: PoolId,
    server: Server,
    entries: &mut u32,
) -> Result<Next, NoMemory>
    requires ready { T.ready turns.old }
    requires recorded { T.recorded ≡ recorded }
    requires server { IfSome (D.facts driver.old).servers (λ servers. Contains servers server) }
    ensures ready { T.ready turns.new }
    ensures fixed { T.fixed turns.new ≡ T.fixed turns.old }
    ensures place { T.place turns.new ≡ T.place turns.old }
    ensures part { let d = driving D.facts D.plan D.sound D.room driver.old in
        let e = driving D.facts D.plan D.sound D.room driver.new in
        Part T.answers (T.fixed turns.old) (sweeps pool)
        (T.sight turns.old) (T.sight turns.new) (Some d) (Some e)
        (SweepsOne pool server d e result) }
    ensures count { IfOk result
        (λ _. Counts entries.old (T.sight turns.old) entries.new (T.sight turns.new)) }
{
    let sweep = Ask::Sweep {
        pool,
        node: server.tag.node,
        server: server.number,
    };
    let turn = take_turn(turns, sweep, entries)?;
    match turn {
        Turn::Full => Ok(Next::Full),
        _ => {
            if is_unwanted(turn) {
                Ok(remove_server(driver, server.number))
            } else {
                Ok(Next::Go)
            }
        }
    }
}

/// Asks about each server, the last first: a removal takes all servers of its number, and those
/// that were not asked about yet stay at their places or move to lower ones.
pub(crate) fn sweep<D: Driver, T: Turns<Ask = Ask, Entry = Entry, Turn = Turn>>(
    driver: &mut D,
    turns: &mut T,
    pool: PoolId,
    entries: &mut u32,
) -> Result<Next, NoMemory>
    requires ready { T.ready turns.old }
    requires recorded { T.recorded ≡ recorded }
    ensures ready { T.ready turns.new }
    ensures fixed { T.fixed turns.new ≡ T.fixed turns.old }
    ensures place { T.place turns.new ≡ T.place turns.old }
    ensures part { let d = driving D.facts D.plan D.sound D.room driver.old in
        let e = driving D.facts D.plan D.sound D.room driver.new in
        Part T.answers (T.fixed turns.old) (sweeps pool)
        (T.sight turns.old) (T.sight turns.new) (Some d) (Some e) (SweepsAll pool d e result) }
    ensures count { IfOk result
        (λ _. Counts entries.old (T.sight turns.old) entries.new (T.sight turns.new)) }
{
    let count = count_servers(driver)?;
    for at in (0..count).rev() {
        if let Some(server) = driver.server(at) {
            match sweep_one(driver, turns, pool, server, entries)? {
                Next::Go => {}
                next => return Ok(next),
            }
        }
    }
    Ok(Next::Idle)
}
