//! The parts for what happens to jobs, handles, the records of roles, sessions and the tick.

ghost use Rattle.std.specs.Prelude.{◌≡◌, ◌<◌, ◌≤◌, ◌+◌, ◌^◌, ◌++◌, ◌∷◌, [], true, length, map, slice_get, IfSome, OnOk};
ghost use Rattle.std.specs.Fmt.{decimal};
ghost use Rattle.np_steps.specs.Lower.{AllByRecursion, HasSpellings, IsGood, IsJob, IsRole, IsSessionRole, change_at, deed_parts, handles_parts, has_handle, job_text, jobs_changed, jobs_parts, marked, one_more_act, one_more_start, place_of_role, put_job, role_in, role_parts, role_text, session_parts, session_text, set, struck_unless, tick_parts, where_there, with_deeds, with_mark};
ghost use Rattle.np_layout.specs.declared.place.Place.TheVariants as place;
ghost use Rattle.np_text.specs.declared.id.Role.TheVariants as role;
ghost use Rattle.np_steps.specs.NodeEdits.{each_released, released};

use crate::ops::{push_delete, push_set};
use np_changes::{Deed, HandlesChange, JobsChange, Maker, SessionsChange};
use np_layout::{Place, to_path};
use np_look::Rows;
use np_record::{JobRecord, MarkRow, Marked, RoleRecord, SessionRecord};
use np_spelling::Record;
use np_text::{Ample, JobId, NodeId, Role, SemId, SessionId, put_number};
use np_tree_nodes::{Bytes, Expect, Op};
use std::alloc::Global;

/// Puts the parts for a change of the jobs behind others: a job's record is set, if it is there. If
/// memory runs out nothing is promised of them.
pub(crate) fn push_jobs<R: Rows>(
    alloc: Global,
    ops: &mut Vec<Op>,
    rows: &R,
    change: &JobsChange,
) -> Ample
    requires { AllByRecursion IsJob
        (jobs_changed change.now (R.state rows.now).jobs) }
    ensures { OnOk result (ops.new.items ≡ ops.old.items
        ++ jobs_parts change.now (R.state rows.now).jobs) }
{
    match change {
        JobsChange::Same => Ok(()),
        JobsChange::Put { job, kept } => push_job(alloc, ops, rows, *job, kept),
        JobsChange::EndNode { job, node } => push_mark(alloc, ops, rows, *job, *node),
    }
}

/// Another record of the job, if it is there.
fn push_job<R: Rows>(
    alloc: Global,
    ops: &mut Vec<Op>,
    rows: &R,
    id: JobId,
    kept: &JobRecord,
) -> Ample
    requires { AllByRecursion IsJob
        (put_job id kept.now (R.state rows.now).jobs) }
    ensures { OnOk result (ops.new.items ≡ ops.old.items
        ++ where_there (slice_get (R.state rows.now).jobs id.0)
        (λ old. set (job_text kept.now) (place.Job id) ∷ [])) }
{
    match rows.job(id) {
        Some(_) => push_set(alloc, ops, Place::Job(id), kept),
        None => Ok(()),
    }
}

/// The node is marked ended in the job, if the job is there.
fn push_mark<R: Rows>(alloc: Global, ops: &mut Vec<Op>, rows: &R, id: JobId, node: NodeId) -> Ample
    requires { AllByRecursion IsJob
        (change_at id.0 (with_mark node) (R.state rows.now).jobs) }
    ensures { OnOk result (ops.new.items ≡ ops.old.items
        ++ where_there (slice_get (R.state rows.now).jobs id.0)
        (λ old. set (job_text (with_mark node old)) (place.Job id) ∷ [])) }
{
    match rows.job(id) {
        Some(old) => push_set(alloc, ops, Place::Job(id), &with_mark(node, old)),
        None => Ok(()),
    }
}

/// The job with this node marked ended.
fn with_mark(node: NodeId, job: JobRecord) -> JobRecord
    ensures { result ≡ with_mark node job }
{
    let _most = job.nodes.len();
    JobRecord {
        nodes: marks_with(node, job.nodes.items()),
        ..job
    }
}

/// The marks of a job with this node marked ended.
fn marks_with(node: NodeId, marks: &[Marked]) -> MarkRow
    requires { length marks.now ≤ 32 }
    ensures { result ≡ map (marked node) marks.now }
{
    let mut row = MarkRow::new();
    for mark in marks {
        let _room = row.push(Marked {
            node: mark.node,
            ended: mark.ended || mark.node.0 == node.0,
        });
    }
    row
}

/// Puts the parts for a change of the handles behind others: a job gives its handles back. If
/// memory runs out nothing is promised of them.
pub(crate) fn push_handles<R: Rows>(
    alloc: Global,
    ops: &mut Vec<Op>,
    rows: &R,
    change: &HandlesChange,
) -> Ample
    ensures { OnOk result (ops.new.items ≡ ops.old.items
        ++ handles_parts (R.site rows.now) change.now (R.state rows.now).handles) }
{
    let HandlesChange::Release { job } = change else {
        return Ok(());
    };
    let config = rows.config();
    // No job of a configuration names a semaphore twice.
    config.know_soundness();
    match config.job(*job) {
        Some(row) => push_releases(alloc, ops, rows, *job, row.semaphores.items()),
        None => Ok(()),
    }
}

/// The job's handle of each of the semaphores goes, if it has one.
fn push_releases<R: Rows>(
    alloc: Global,
    ops: &mut Vec<Op>,
    rows: &R,
    job: JobId,
    semaphores: &[SemId],
) -> Ample
    ensures { OnOk result (ops.new.items ≡ ops.old.items
        ++ each_released job semaphores.now (R.state rows.now).handles) }
{
    let [semaphore, rest @ ..] = semaphores else {
        return Ok(());
    };
    push_release(alloc, ops, rows, job, *semaphore)?;
    push_releases(alloc, ops, rows, job, rest)
}

/// The job's handle of the semaphore goes, if it has one.
fn push_release<R: Rows>(
    alloc: Global,
    ops: &mut Vec<Op>,
    rows: &R,
    job: JobId,
    semaphore: SemId,
) -> Ample
    ensures { OnOk result (ops.new.items ≡ ops.old.items
        ++ released job semaphore (R.state rows.now).handles) }
{
    if rows.has_handle(semaphore, job) {
        push_delete(alloc, ops, Place::Handle(semaphore, job))
    } else {
        Ok(())
    }
}

/// Puts the parts for what is counted in one role's record behind others. If memory runs out nothing
/// is promised of them.
pub(crate) fn push_deed<R: Rows>(
    alloc: Global,
    ops: &mut Vec<Op>,
    rows: &R,
    maker: Option<Maker>,
    deed: Option<Deed>,
) -> Ample
    requires { HasSpellings (with_deeds maker deed (R.state rows.now)) }
    ensures { OnOk result (ops.new.items ≡ ops.old.items
        ++ deed_parts maker deed (R.state rows.now)) }
{
    let Some(deed) = deed else {
        return Ok(());
    };
    match deed {
        Deed::Acts => match maker {
            Some(maker) => push_act(alloc, ops, rows, maker.role),
            None => Ok(()),
        },
        Deed::StartsAndActs { pool } => { push_start(alloc, ops, rows, Role::Launcher(pool)) }
        Deed::Strikes { role, counted } => { push_strike(alloc, ops, rows, role, counted) }
    }
}

/// One more act of the role.
fn push_act<R: Rows>(alloc: Global, ops: &mut Vec<Op>, rows: &R, who: Role) -> Ample
    requires { IfSome (role_in who (R.state rows.now))
        (λ old. IsRole (one_more_act old)) }
    ensures { OnOk result (ops.new.items ≡ ops.old.items
        ++ role_parts one_more_act who (R.state rows.now)) }
{
    let Some(old) = rows.role(who) else {
        return Ok(());
    };
    let acts = old.acts + 1;
    push_role(alloc, ops, who, &RoleRecord { acts, ..old })
}

/// One more start and one more act of the role.
fn push_start<R: Rows>(alloc: Global, ops: &mut Vec<Op>, rows: &R, who: Role) -> Ample
    requires { IfSome (role_in who (R.state rows.now))
        (λ old. IsRole (one_more_act (one_more_start old))) }
    ensures { OnOk result (ops.new.items ≡ ops.old.items
        ++ role_parts (λ old. one_more_act (one_more_start old)) who
        (R.state rows.now)) }
{
    let Some(old) = rows.role(who) else {
        return Ok(());
    };
    let (acts, starts) = (old.acts + 1, old.starts + 1);
    push_role(
        alloc,
        ops,
        who,
        &RoleRecord {
            acts,
            starts,
            ..old
        },
    )
}

/// One more strike against the role, unless it was counted.
fn push_strike<R: Rows>(
    alloc: Global,
    ops: &mut Vec<Op>,
    rows: &R,
    who: Role,
    counted: bool,
) -> Ample
    requires { IfSome (role_in who (R.state rows.now))
        (λ old. IsRole (struck_unless counted old)) }
    ensures { OnOk result (ops.new.items ≡ ops.old.items
        ++ role_parts (struck_unless counted) who (R.state rows.now)) }
{
    let Some(old) = rows.role(who) else {
        return Ok(());
    };
    push_role(alloc, ops, who, &struck(old, counted))
}

/// One more strike, unless it was counted.
fn struck(role: RoleRecord, counted: bool) -> RoleRecord
    requires { IsRole (struck_unless counted role) }
    ensures { result ≡ struck_unless counted role }
{
    let strikes = if counted {
        role.strikes
    } else {
        role.strikes + 1
    };
    RoleRecord { strikes, ..role }
}

/// The role's record, if it has one.
fn push_role(alloc: Global, ops: &mut Vec<Op>, who: Role, kept: &RoleRecord) -> Ample
    requires { IsRole kept.now }
    ensures { OnOk result (ops.new.items ≡ ops.old.items
        ++ where_there (place_of_role who) (λ place. set (role_text kept.now) place ∷ [])) }
{
    match Place::of_role(who) {
        Some(place) => push_set(alloc, ops, place, kept),
        None => Ok(()),
    }
}

/// Puts the parts for a change of a session behind others: one that is muted has another record. If
/// memory runs out nothing is promised of them.
pub(crate) fn push_session<R: Rows>(
    alloc: Global,
    ops: &mut Vec<Op>,
    rows: &R,
    change: &SessionsChange,
) -> Ample
    requires { AllByRecursion (λ f. IsSessionRole f.role)
        (R.state rows.now).sessions }
    ensures { OnOk result (ops.new.items ≡ ops.old.items
        ++ session_parts change.now (R.state rows.now)) }
{
    let SessionsChange::Mute { session } = change else {
        return Ok(());
    };
    match rows.session(*session) {
        Some(facts) => push_muted(alloc, ops, *session, facts.role),
        None => Ok(()),
    }
}

/// The session of the role is mute.
fn push_muted(alloc: Global, ops: &mut Vec<Op>, session: SessionId, role: Role) -> Ample
    requires { IsSessionRole role }
    ensures { OnOk result (ops.new.items ≡ ops.old.items
        ++ set (session_text (record { mute = true; role = role })) (place.Session session) ∷ []) }
{
    let mute = true;
    push_set(
        alloc,
        ops,
        Place::Session(session),
        &SessionRecord { mute, role },
    )
}

/// Puts the part for a tick behind others, if one passes. If memory runs out nothing is promised of
/// them.
pub(crate) fn push_tick<R: Rows>(alloc: Global, ops: &mut Vec<Op>, rows: &R, ticks: bool) -> Ample
    requires { (R.state rows.now).tick + 1 < 2 ^ 32 }
    ensures { OnOk result (ops.new.items ≡ ops.old.items
        ++ tick_parts ticks (R.state rows.now).tick) }
{
    if !ticks {
        return Ok(());
    }
    push_number(alloc, ops, Place::Tick, rows.tick() + 1)
}

/// Sets the bytes of a place to the decimal of a number, whatever the version there.
fn push_number(alloc: Global, ops: &mut Vec<Op>, place: Place, n: u32) -> Ample
    requires { IsGood place }
    ensures { OnOk result (ops.new.items ≡ ops.old.items ++ set (decimal n) place ∷ []) }
{
    let path = to_path(alloc, place)?;
    let mut text = Vec::new(alloc);
    put_number(&mut text, u64::from(n))?;
    let bytes = Bytes::new(text);
    let expect = Expect::Any;
    ops.push(Op::Set {
        path,
        bytes,
        expect,
    })?;
    Ok(())
}
