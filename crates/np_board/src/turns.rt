//! The turns, taken at a machine that began before the first event.
#![tactic(auto, using(crate::proofs::BoardTurns::turned))]

ghost use Rattle.std.specs.Prelude.{◌≡◌, ◌↔◌, true, IfOk, OnErr};
ghost use Rattle.np_board.specs.Lower.{IsLater, IsSettled, answers_due, ran_of};
ghost use Rattle.np_worker.specs.declared.ask.Ask.TheVariants as asks;
ghost use Rattle.np_board.specs.PlanTaken.{IsTaken};

use crate::due::{due_node, is_wanted, node, was_swept};
use np_event::{Entry, Event};
use np_jobs::{choose, is_settled};
use np_keeper::TreeStore;
use np_rules::Machine;
use np_text::{JOURNAL_ENTRIES, NoMemory, NodeId, PoolId, Role};
use np_useful::current_session;
use np_worker::{Ask, Turn};

/// Whether no role has a useful event.
pub(crate) fn has_settled(machine: &Machine<TreeStore>) -> bool
    ensures { (result ≡ true) ↔ IsSettled machine.now.configuration machine.now.state }
{
    machine.know_soundness();
    is_settled(machine)
}

/// Records the event with its reply: `Did`, or `Full` if and only if there are 262,144 entries.
fn record(machine: &mut Machine<TreeStore>, event: Event) -> Result<Turn, NoMemory>
    requires { machine.old.earlier ≡ 0 }
    ensures turn { IfOk result
        (λ t. IsTaken (ran_of machine.old) (asks.Do event) t (ran_of machine.new)) }
    ensures err { OnErr result (ran_of machine.new ≡ ran_of machine.old) }
    ensures later { IsLater machine.old.store machine.new.store }
    ensures earlier { machine.new.earlier ≡ machine.old.earlier }
{
    machine.know_soundness();
    if machine.journal().len() >= JOURNAL_ENTRIES {
        return Ok(Turn::Full);
    }
    let reply = machine.apply(event)?;
    Ok(Turn::Did(Entry { event, reply }))
}

/// Records one useful event of the role, if it has one.
fn act(machine: &mut Machine<TreeStore>, role: Role) -> Result<Turn, NoMemory>
    requires { machine.old.earlier ≡ 0 }
    ensures turn { IfOk result
        (λ t. IsTaken (ran_of machine.old) (asks.Act role) t (ran_of machine.new)) }
    ensures err { OnErr result (ran_of machine.new ≡ ran_of machine.old) }
    ensures later { IsLater machine.old.store machine.new.store }
    ensures earlier { machine.new.earlier ≡ machine.old.earlier }
{
    machine.know_soundness();
    match choose(machine, role) {
        None => Ok(Turn::Idle),
        Some(event) => record(machine, event),
    }
}

/// A node of the pool that is being deleted and held by the pool's janitor, or `Idle` if and only if
/// there is none. It looks up the janitor's session, and then the nodes in whose queues that session
/// is, up to the due one.
fn due(machine: &Machine<TreeStore>, pool: PoolId) -> Turn
    requires { machine.now.earlier ≡ 0 }
    ensures { answers_due machine.now.configuration machine.now.journal pool result }
{
    machine.know_soundness();
    let Some(session) = current_session(machine, Role::Janitor(pool)) else {
        return Turn::Idle;
    };
    let Some(found) = due_node(machine, pool, session) else {
        return Turn::Idle;
    };
    match node(machine, found) {
        None => Turn::Idle,
        Some(kept) => Turn::DueNode {
            node: found,
            server: kept.server,
        },
    }
}

/// Records that the pool's janitor sweeps the server, unless the server is kept or was swept before.
/// It looks up the janitor's session, and finds the node and the pair by binary search.
fn sweep(
    machine: &mut Machine<TreeStore>,
    pool: PoolId,
    node: NodeId,
    server: u64,
) -> Result<Turn, NoMemory>
    requires { machine.old.earlier ≡ 0 }
    ensures turn { IfOk result (λ t.
        IsTaken (ran_of machine.old) (asks.Sweep pool node server) t (ran_of machine.new)) }
    ensures err { OnErr result (ran_of machine.new ≡ ran_of machine.old) }
    ensures later { IsLater machine.old.store machine.new.store }
    ensures earlier { machine.new.earlier ≡ machine.old.earlier }
{
    machine.know_soundness();
    let Some(session) = current_session(machine, Role::Janitor(pool)) else {
        return Ok(Turn::Idle);
    };
    if is_wanted(machine, node, server) {
        return Ok(Turn::Idle);
    }
    if was_swept(machine, node, server) {
        return Ok(Turn::Swept);
    }
    record(
        machine,
        Event::Sweep {
            session,
            node,
            server,
        },
    )
}

/// Takes the turn that the ask names.
pub(crate) fn take_turn(machine: &mut Machine<TreeStore>, ask: Ask) -> Result<Turn, NoMemory>
    requires { machine.old.earlier ≡ 0 }
    ensures turn { IfOk result (λ t. IsTaken (ran_of machine.old) ask t (ran_of machine.new)) }
    ensures err { OnErr result (ran_of machine.new ≡ ran_of machine.old) }
    ensures later { IsLater machine.old.store machine.new.store }
    ensures earlier { machine.new.earlier ≡ machine.old.earlier }
{
    match ask {
        Ask::Act(role) => act(machine, role),
        Ask::Do(event) => record(machine, event),
        Ask::Due(pool) => Ok(due(machine, pool)),
        Ask::Sweep { pool, node, server } => sweep(machine, pool, node, server),
    }
}
