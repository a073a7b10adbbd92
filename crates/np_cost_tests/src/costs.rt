//! What calls cost in a scene, each in looks.

ghost use Rattle.std.specs.Prelude.{◌≡◌, IfSome, OnSome};
ghost use Rattle.np_changes.specs.Prelude.{Fits, IsPlanned, IsReached};
ghost use Rattle.np_index.specs.Index.{IsIndexOf, HasRoomFor};

use crate::counted::{CountedLook, CountedRows};
use crate::scenes::{REQUESTER, SCENES, Scene, choice_of, know_soundness, scene_with};
use np_changes::Changes;
use np_decision::decide;
use np_event::{Event, Outcome};
use np_index::{Index, Prepared};
use np_jobs::choose;
use np_look::{Look, Rows};
use np_rules::Plain;
use np_text::{
    EndAs, JobId, LabelId, NodeId, PoolId, Reason, RequestId, RequesterId, Role, SessionId,
    TenantId,
};
use std::alloc::Global;
use std::cell::Cell;

/// How many kinds of events `event_of` has.
const KINDS: u32 = 31;

/// The number of the first decision: the choices of up to seven roles come before.
const DECISIONS: usize = 7;

/// The number of the first answer of an index.
const ANSWERS: usize = 38;

/// The number of the first call that keeps an index.
const CHANGES: usize = 46;

/// How many calls there are.
const CALLS: usize = 60;

/// The sessions of a scene have these numbers at most.
const SESSIONS: u32 = 5;

/// How many looks more a call may take in the large scene than in the small one.
const MORE: u32 = 4;

/// An index that is prepared for changes, and what was prepared.
#[derive(Drop)]
struct Readied {
    index: Index,
    prepared: Prepared,
}

/// What an event may name.
#[derive(Clone, Copy)]
struct Named {
    session: SessionId,
    request: RequestId,
    node: NodeId,
    job: JobId,
}

/// The event of the kind on requests or sessions, for a number below 13; for any other a tick.
fn request_event(kind: u32, named: Named) -> Event {
    let Named {
        session,
        request,
        job,
        ..
    } = named;
    match kind {
        0 => Event::Crash { session },
        1 => Event::Expire { session },
        2 => Event::Register { session },
        3 => Event::Submit { session, job },
        4 => Event::Revise {
            session,
            job,
            relative: 7,
        },
        5 => Event::MinReady {
            session,
            label: LabelId(0),
        },
        6 => Event::LockRequest { session, request },
        7 => Event::UnlockRequest { session, request },
        8 => Event::Accept { session, request },
        9 => Event::Decline {
            session,
            request,
            reason: Reason::NeverFits,
        },
        10 => Event::Fulfil { session, request },
        11 => Event::Reset { session, request },
        12 => Event::FailDeclined { session, request },
        _ => Event::Tick,
    }
}

/// The event of the kind on nodes, for a number from 13 to 23; for any other a tick.
fn node_event(kind: u32, named: Named) -> Event {
    let Named {
        session,
        request,
        node,
        ..
    } = named;
    match kind {
        13 => Event::TakeReady {
            session,
            request,
            node,
        },
        14 => Event::Create { session, request },
        15 => Event::Start { session, node },
        16 => Event::Done {
            session,
            node,
            attempt: 1,
            outcome: Outcome::Failed,
        },
        17 => Event::LockNode { session, node },
        18 => Event::UnlockNode { session, node },
        19 => Event::EndNode {
            session,
            node,
            end: EndAs::Used,
        },
        20 => Event::MarkDeleting { session, node },
        21 => Event::Gone { session, node },
        22 => Event::FreeNode { session, node },
        23 => Event::Sweep {
            session,
            node,
            server: 1,
        },
        _ => Event::Tick,
    }
}

/// The event of the kind on semaphores and jobs, for a number from 24 to 28; the opening of a
/// session for 29; and for any other a tick.
fn job_event(kind: u32, named: Named) -> Event {
    let Named { session, job, .. } = named;
    match kind {
        24 => Event::Acquire { session, job },
        25 => Event::Take { session, job },
        26 => Event::Finish { session, job },
        27 => Event::Withdraw { session, job },
        28 => Event::Release { session, job },
        29 => Event::OpenSession { role: REQUESTER },
        _ => Event::Tick,
    }
}

/// The event of the kind, for a number below 31.
fn event_of(kind: u32, named: Named) -> Event {
    if kind < 13 {
        request_event(kind, named)
    } else if kind < 24 {
        node_event(kind, named)
    } else {
        job_event(kind, named)
    }
}

/// Ends the call with this number: notes its looks, if none like it took as many.
fn put_looks(costs: &mut [u32], call: usize, looks: &Cell<u32>) {
    if call < costs.len() {
        costs[call] = costs[call].max(looks.get());
    }
    looks.set(0);
}

/// What these searches see is reached by a run, and its numbers leave room. The call does nothing.
fn know_look_soundness<L: Look>(machine: &Plain, look: &L)
    requires site { L.site look.now ≡ machine.now.configuration }
    requires state { L.state look.now ≡ machine.now.state }
    ensures reached { IsReached (L.site look.now) (L.state look.now) }
    ensures fits { Fits (L.site look.now) (L.state look.now) }
{
    let _look = look;
    know_soundness(machine);
}

/// The same of rows.
fn know_rows_soundness<R: Rows>(machine: &Plain, rows: &R)
    requires site { R.site rows.now ≡ machine.now.configuration }
    requires state { R.state rows.now ≡ machine.now.state }
    ensures reached { IsReached (R.site rows.now) (R.state rows.now) }
    ensures fits { Fits (R.site rows.now) (R.state rows.now) }
{
    let _rows = rows;
    know_soundness(machine);
}

/// Notes the looks of the choice of each of these roles.
fn put_choices(costs: &mut [u32], machine: &Plain, roles: &[Role]) {
    let looks = Cell::new(0);
    let look = CountedLook::over(machine, &looks);
    know_look_soundness(machine, &look);
    for at in 0..roles.len() {
        choose(&look, roles[at]);
        put_looks(costs, at, &looks);
    }
}

/// The first or the last row of each table, for the session.
fn names_of(machine: &Plain, session: u32, is_last: bool) -> Named {
    let rows = machine.rows();
    let job = if is_last {
        rows.jobs().saturating_sub(2)
    } else {
        0
    };
    let request = if is_last {
        rows.requests().saturating_sub(1)
    } else {
        0
    };
    let node = if is_last {
        rows.nodes().saturating_sub(1)
    } else {
        0
    };
    Named {
        session: SessionId(session),
        request: match rows.request_at(request) {
            Some(request) => request,
            None => RequestId {
                priority: 200,
                seq: 0,
            },
        },
        node: match rows.node_at(node) {
            Some(node) => node,
            None => NodeId(0),
        },
        job: JobId(job),
    }
}

/// Notes the looks of the decision on each event of the session that names these.
fn put_decisions(costs: &mut [u32], machine: &Plain, named: Named) {
    let looks = Cell::new(0);
    let look = CountedLook::over(machine, &looks);
    know_look_soundness(machine, &look);
    for kind in 0..KINDS {
        let _decided = decide(&look, event_of(kind, named));
        put_looks(costs, DECISIONS + kind as usize, &looks);
    }
}

/// Notes the looks of the decision on each event of each session.
fn put_all_decisions(costs: &mut [u32], machine: &Plain) {
    for session in 1..=SESSIONS {
        put_decisions(costs, machine, names_of(machine, session, false));
        put_decisions(costs, machine, names_of(machine, session, true));
    }
}

/// Notes how often an index reads rows to answer.
fn put_answers_of<R: Rows>(costs: &mut [u32], looks: &Cell<u32>, index: &Index, rows: &R)
    requires fits { Fits (R.site rows.now) (R.state rows.now) }
    requires index { IsIndexOf (R.site rows.now) (R.state rows.now) index.now }
{
    for at in 0..2 {
        index.job_to_acquire(rows, RequesterId(at));
        put_looks(costs, ANSWERS, looks);
        index.job_to_begin(rows, RequesterId(at));
        put_looks(costs, ANSWERS + 1, looks);
        index.first_of(rows, PoolId(at));
        put_looks(costs, ANSWERS + 2, looks);
        index.used(rows, PoolId(at));
        put_looks(costs, ANSWERS + 3, looks);
        index.is_paused(rows, PoolId(at));
        put_looks(costs, ANSWERS + 4, looks);
    }
    index.used_by(rows, TenantId(0));
    put_looks(costs, ANSWERS + 5, looks);
    index.ready_count(rows, LabelId(0));
    put_looks(costs, ANSWERS + 6, looks);
    index.first_declined_by_all(rows);
    put_looks(costs, ANSWERS + 7, looks);
}

/// Makes an index of the machine's state, and notes how often it reads rows to answer. None if memory
/// runs out.
fn put_answers(alloc: Global, costs: &mut [u32], machine: &Plain) -> Option<()> {
    let looks = Cell::new(0);
    let rows = CountedRows::over(machine.rows(), &looks);
    know_rows_soundness(machine, &rows);
    let Ok(index) = Index::rebuild(alloc, &rows) else {
        return None;
    };
    looks.set(0);
    put_answers_of(costs, &looks, &index, &rows);
    Some(())
}

/// What the event changes, or none if it is refused.
fn changes_of(machine: &Plain, event: Event) -> Option<Changes>
    ensures { IfSome result (λ changes.
        IsPlanned machine.now.configuration machine.now.state changes) }
{
    know_soundness(machine);
    match decide(machine, event) {
        Ok(verdict) => Some(verdict.changes),
        Err(_) => None,
    }
}

/// An index of the rows that is prepared for these changes, whose looks are those that this took.
fn prepare<R: Rows>(
    alloc: Global,
    looks: &Cell<u32>,
    rows: &R,
    changes: &Changes,
) -> Option<Readied>
    requires reached { IsReached (R.site rows.now) (R.state rows.now) }
    requires fits { Fits (R.site rows.now) (R.state rows.now) }
    requires planned { IsPlanned (R.site rows.now) (R.state rows.now) changes.now }
    ensures { IfSome result (λ readied.
        HasRoomFor (R.site rows.now) readied.prepared readied.index) }
{
    let Ok(mut index) = Index::rebuild(alloc, rows) else {
        return None;
    };
    looks.set(0);
    let Ok(prepared) = index.prepare(alloc, rows, changes) else {
        return None;
    };
    Some(Readied { index, prepared })
}

/// The changes are made, and the index follows.
fn note<R: Rows>(rows: &R, changes: &Changes, readied: Readied)
    requires { HasRoomFor (R.site rows.now) readied.prepared readied.index }
{
    let Readied {
        mut index,
        prepared,
    } = readied;
    index.note(rows, changes, &prepared);
}

/// What is prepared for changes of the machine that come.
fn readied_for(
    alloc: Global,
    looks: &Cell<u32>,
    machine: &Plain,
    changes: &Changes,
) -> Option<Readied>
    requires { IsPlanned machine.now.configuration machine.now.state changes.now }
    ensures { IfSome result (λ readied.
        HasRoomFor machine.now.configuration readied.prepared readied.index) }
{
    let rows = CountedRows::over(machine.rows(), looks);
    know_rows_soundness(machine, &rows);
    prepare(alloc, looks, &rows, changes)
}

/// The event happens: the configuration stays. None if memory runs out.
fn applied(machine: &mut Plain, event: Event) -> Option<()>
    ensures { OnSome result (machine.new.configuration ≡ machine.old.configuration) }
{
    match machine.apply(event) {
        Ok(_) => Some(()),
        Err(_) => None,
    }
}

/// The machine's changes are made, and the index follows.
fn note_changed(looks: &Cell<u32>, machine: &Plain, changes: &Changes, readied: Readied)
    requires { HasRoomFor machine.now.configuration readied.prepared readied.index }
{
    let rows = CountedRows::over(machine.rows(), looks);
    note(&rows, changes, readied);
}

/// The event happens. Notes how often an index reads rows before and after, under this number and the
/// next; nothing if the event is refused.
fn put_change(
    alloc: Global,
    costs: &mut [u32],
    call: usize,
    machine: &mut Plain,
    event: Event,
) -> Option<()> {
    let looks = Cell::new(0);
    let Some(changes) = changes_of(machine, event) else {
        return Some(());
    };
    let readied = readied_for(alloc, &looks, machine, &changes)?;
    put_looks(costs, call, &looks);
    applied(machine, event)?;
    note_changed(&looks, machine, &changes, readied);
    put_looks(costs, call.saturating_add(1), &looks);
    Some(())
}

/// Each of these roles makes the event that it chooses. Notes how often an index reads rows for it.
fn put_changes(
    alloc: Global,
    costs: &mut [u32],
    machine: &mut Plain,
    roles: &[Role],
) -> Option<()> {
    for at in 0..roles.len() {
        if let Some(event) = choice_of(machine, roles[at]) {
            let call = at.saturating_mul(2).saturating_add(CHANGES);
            put_change(alloc, costs, call, machine, event)?;
        }
    }
    Some(())
}

/// What the calls cost in the scene with so many jobs: the most looks that each took.
fn costs_of(alloc: Global, scene: &Scene, jobs: u32) -> Option<[u32; CALLS]> {
    let mut machine = scene_with(alloc, scene, jobs)?;
    let mut costs = [0; CALLS];
    put_choices(&mut costs, &machine, scene.counted);
    put_all_decisions(&mut costs, &machine);
    put_answers(alloc, &mut costs, &machine)?;
    put_changes(alloc, &mut costs, &mut machine, scene.counted)?;
    Some(costs)
}

/// Whether each call takes about as many looks in the second.
fn are_near(small: &[u32], large: &[u32]) -> bool {
    if small.len() != large.len() {
        return false;
    }
    for at in 0..small.len() {
        if large[at] > small[at].saturating_add(MORE) {
            return false;
        }
    }
    true
}

/// Whether the calls cost no more with 256 jobs than with 16.
fn costs_as_little(alloc: Global, scene: &Scene) -> bool {
    matches!((costs_of(alloc, scene, 16), costs_of(alloc, scene, 256)), (Some(small), Some(large))
        if are_near(&small, &large))
}

#[test]
fn a_call_costs_no_more_where_more_waits(rt: HostRuntime) {
    for scene in &SCENES {
        assert!(rt; costs_as_little(rt.alloc(), scene), "{}", scene.name);
    }
}
