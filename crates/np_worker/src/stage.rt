//! The stages of a round.

ghost use Rattle.std.specs.Prelude.{◌≡◌, Some};
ghost use Rattle.np_worker.specs.declared.ask.Ask.{Ask};
ghost use Rattle.np_worker.specs.Move.{acting, after_act, after_entry, after_look, after_report, after_role, after_turn, start_of};
ghost use Rattle.np_worker.specs.Stage.{phase_of, ask_of};

use crate::{Ask, Start, Turn};
use np_cloud::Tag;
use np_event::{Done, Entry, Event, Outcome, Reply};
use np_text::{PoolId, Role};

/// What a worker does next. Each number is of the turns in which the role may act after that.
#[derive(Clone, Copy)]
pub(crate) enum Stage {
    /// The role takes a turn.
    Acts {
        role: Role,
        left: u32,
    },
    /// A server is launched for an accepted start.
    Launches {
        pool: PoolId,
        left: u32,
        start: Start,
    },
    /// What became of the launch is reported.
    Reports {
        pool: PoolId,
        left: u32,
        start: Start,
        outcome: Outcome,
    },
    /// The janitor looks for a due node, and then takes a turn.
    Looks {
        pool: PoolId,
        left: u32,
    },
    /// The server of a due node is removed.
    Removes {
        pool: PoolId,
        left: u32,
        number: u64,
    },
    /// The servers are asked about.
    Sweeps {
        pool: PoolId,
    },
    /// A requester or the reaper has taken its turns.
    Rests,
    /// A turn found no room in the journal.
    Ended,
}

/// The start that an entry of the pool's launcher accepted, if it is one.
fn start_of(pool: PoolId, entry: Entry) -> Option<Start>
    ensures { result ≡ start_of pool entry }
{
    match (entry.event, entry.reply) {
        (Event::Start { session, node }, Reply::Done(Done::Started { attempt, start })) => {
            let tag = Tag {
                pool,
                node,
                attempt,
                start,
            };
            Some(Start { session, tag })
        }
        _ => None,
    }
}

/// What follows when a role has nothing to do, or has taken its turns. The janitor comes after the
/// launcher.
fn after_role(role: Role) -> Stage
    ensures { phase_of result ≡ after_role role }
{
    match role {
        Role::Launcher(pool) => Stage::Looks { pool, left: 15 },
        Role::Janitor(pool) => Stage::Sweeps { pool },
        Role::Requester(_) => Stage::Rests,
        Role::Reaper => Stage::Rests,
    }
}

/// A role that may take a number of turns.
pub(crate) fn acting(role: Role, turns: u32) -> Stage
    ensures { phase_of result ≡ acting role turns }
{
    if turns == 0 {
        return after_role(role);
    }
    let left = turns - 1;
    match role {
        Role::Janitor(pool) => Stage::Looks { pool, left },
        _ => Stage::Acts { role, left },
    }
}

/// An accepted start is launched. After another entry, and after any of another role, the role goes
/// on.
fn after_entry(role: Role, left: u32, entry: Entry) -> Stage
    ensures { phase_of result ≡ after_entry role left entry }
{
    let Role::Launcher(pool) = role else {
        return acting(role, left);
    };
    match start_of(pool, entry) {
        None => acting(role, left),
        Some(start) => Stage::Launches { pool, left, start },
    }
}

/// An entry was made, or the role has nothing to do.
fn after_act(role: Role, left: u32, turn: Turn) -> Stage
    ensures { phase_of result ≡ after_act role left turn }
{
    match turn {
        Turn::Did(entry) => after_entry(role, left, entry),
        Turn::Full => Stage::Ended,
        _ => after_role(role),
    }
}

/// After its report a launch is done.
fn after_report(pool: PoolId, left: u32, turn: Turn) -> Stage
    ensures { phase_of result ≡ after_report pool left turn }
{
    match turn {
        Turn::Full => Stage::Ended,
        _ => acting(Role::Launcher(pool), left),
    }
}

/// The server of a due node is removed before the janitor's turn.
fn after_look(pool: PoolId, left: u32, turn: Turn) -> Stage
    ensures { phase_of result ≡ after_look pool left turn }
{
    let acts = Stage::Acts {
        role: Role::Janitor(pool),
        left,
    };
    match turn {
        Turn::DueNode { server, .. } => match server {
            Some(number) => Stage::Removes { pool, left, number },
            None => acts,
        },
        Turn::Full => Stage::Ended,
        _ => acts,
    }
}

/// The stage after a turn.
pub(crate) fn after_turn(stage: Stage, turn: Turn) -> Stage
    ensures { (a : Ask) → ask_of stage ≡ Some a →
        phase_of result ≡ after_turn (phase_of stage) a turn }
{
    match stage {
        Stage::Acts { role, left } => after_act(role, left, turn),
        Stage::Reports { pool, left, .. } => after_report(pool, left, turn),
        Stage::Looks { pool, left } => after_look(pool, left, turn),
        _ => stage,
    }
}

/// What is asked in a turn, if a turn comes next.
pub(crate) fn ask_of(stage: Stage) -> Option<Ask>
    ensures { result ≡ ask_of stage }
{
    match stage {
        Stage::Acts { role, .. } => Some(Ask::Act(role)),
        Stage::Reports { start, outcome, .. } => Some(Ask::Do(Event::Done {
            session: start.session,
            node: start.tag.node,
            attempt: start.tag.attempt,
            outcome,
        })),
        Stage::Looks { pool, .. } => Some(Ask::Due(pool)),
        _ => None,
    }
}
