//! The tree before the first event.

ghost use Rattle.std.specs.Prelude.{◌≡◌, ◌++◌, ◌∷◌, ◌≤◌, [], length, map, IfOk, OnOk};
ghost use Rattle.np_keeper.specs.Lower.{IsGood, IsSound, after_begin, decoded, first_directories, first_parts, job_text, make, make_each, new_job, new_tree, no_deeds, role_text, start, with_spare};
ghost use Rattle.np_keeper.specs.Keeper.{IsHeld};

use crate::change::call;
use np_config::Config;
use np_layout::{Place, to_path};
use np_record::{JobRecord, MarkRow, RoleRecord};
use np_spelling::Record;
use np_text::{Ample, JobId, NoMemory, Phase, PoolId, RequesterId, SemId};
use np_tree::Tree;
use np_tree_nodes::{Bytes, Mode, Op};
use std::alloc::Global;

/// A create of a place's node, which no session owns.
fn push_make(alloc: Global, ops: &mut Vec<Op>, place: Place, bytes: &[u8]) -> Ample
    requires { IsGood place }
    ensures { OnOk result (ops.new.items ≡ ops.old.items ++ make bytes.now place ∷ []) }
{
    let path = to_path(alloc, place)?;
    let bytes = Bytes::new(Vec::from_slice(alloc, bytes)?);
    ops.push(Op::Create {
        path,
        bytes,
        mode: Mode::Persistent,
    })?;
    Ok(())
}

/// The directories, each after the one that it is in.
fn push_directories(alloc: Global, ops: &mut Vec<Op>) -> Ample
    ensures { OnOk result (ops.new.items ≡ ops.old.items ++ map (make []) first_directories) }
{
    push_make(alloc, ops, Place::Nodepool, b"")?;
    push_make(alloc, ops, Place::Launchers, b"")?;
    push_make(alloc, ops, Place::Nodes, b"")?;
    push_make(alloc, ops, Place::Requests, b"")?;
    push_make(alloc, ops, Place::RequestLocks, b"")?;
    push_make(alloc, ops, Place::Poolsim, b"")?;
    push_make(alloc, ops, Place::Jobs, b"")?;
    push_make(alloc, ops, Place::Roles, b"")?;
    push_make(alloc, ops, Place::Sessions, b"")?;
    push_make(alloc, ops, Place::SweptPairs, b"")?;
    push_make(alloc, ops, Place::Zuul, b"")?;
    push_make(alloc, ops, Place::Semaphores, b"")?;
    Ok(())
}

/// A semaphore for each that the configuration has.
fn push_semaphores(alloc: Global, ops: &mut Vec<Op>, config: &Config) -> Ample
    requires { length config.now.semaphores ≤ 64 }
    ensures { OnOk result (ops.new.items ≡ ops.old.items
        ++ make_each [] (λ at. Place.Semaphore (record { 0 = at })) config.now.semaphores) }
{
    let mut at = 0;
    while let Some(_) = config.semaphore(SemId(at)) {
        push_make(alloc, ops, Place::Semaphore(SemId(at)), b"")?;
        at += 1;
    }
    Ok(())
}

/// A record for each job.
fn push_jobs(alloc: Global, ops: &mut Vec<Op>, config: &Config, text: &[u8]) -> Ample
    requires { length config.now.jobs ≤ 4096 }
    ensures { OnOk result (ops.new.items ≡ ops.old.items
        ++ make_each text.now (λ at. Place.Job (record { 0 = at })) config.now.jobs) }
{
    let mut at = 0;
    while let Some(_) = config.job(JobId(at)) {
        push_make(alloc, ops, Place::Job(JobId(at)), text)?;
        at += 1;
    }
    Ok(())
}

/// A record for each launcher, one for each pool.
fn push_launchers(alloc: Global, ops: &mut Vec<Op>, config: &Config, text: &[u8]) -> Ample
    requires { length config.now.pools ≤ 64 }
    ensures { OnOk result (ops.new.items ≡ ops.old.items
        ++ make_each text.now (λ at. Place.LauncherRole (record { 0 = at })) config.now.pools) }
{
    let mut at = 0;
    while let Some(_) = config.pool(PoolId(at)) {
        push_make(alloc, ops, Place::LauncherRole(PoolId(at)), text)?;
        at += 1;
    }
    Ok(())
}

/// A record for each cleanup worker, one for each pool.
fn push_janitors(alloc: Global, ops: &mut Vec<Op>, config: &Config, text: &[u8]) -> Ample
    requires { length config.now.pools ≤ 64 }
    ensures { OnOk result (ops.new.items ≡ ops.old.items
        ++ make_each text.now (λ at. Place.JanitorRole (record { 0 = at })) config.now.pools) }
{
    let mut at = 0;
    while let Some(_) = config.pool(PoolId(at)) {
        push_make(alloc, ops, Place::JanitorRole(PoolId(at)), text)?;
        at += 1;
    }
    Ok(())
}

/// A record for each requester.
fn push_requesters(alloc: Global, ops: &mut Vec<Op>, config: &Config, text: &[u8]) -> Ample
    requires { length config.now.requesters ≤ 16 }
    ensures { OnOk result (ops.new.items ≡ ops.old.items
        ++ make_each text.now (λ at. Place.RequesterRole (record { 0 = at }))
        config.now.requesters) }
{
    let mut at = 0;
    while let Some(_) = config.requester(RequesterId(at)) {
        push_make(alloc, ops, Place::RequesterRole(RequesterId(at)), text)?;
        at += 1;
    }
    Ok(())
}

/// The text of a job's record before anybody has begun it.
fn new_job_text(alloc: Global) -> Result<Vec<u8>, NoMemory>
    ensures { IfOk result (λ text. text.items ≡ job_text new_job) }
{
    let record = JobRecord {
        ending: None,
        nodes: MarkRow::new(),
        phase: Phase::New,
        pool: None,
        request: None,
    };
    record.text(alloc)
}

/// The text of the record of a role that has done nothing.
fn idle_role_text(alloc: Global) -> Result<Vec<u8>, NoMemory>
    ensures { IfOk result (λ text. text.items ≡ role_text no_deeds) }
{
    let record = RoleRecord {
        acts: 0,
        starts: 0,
        strikes: 0,
    };
    record.text(alloc)
}

/// The parts of the call that makes the first tree.
fn make_first_parts(alloc: Global, config: &Config) -> Result<Vec<Op>, NoMemory>
    requires { IsSound config.now }
    ensures { IfOk result (λ ops. ops.items ≡ first_parts config.now) }
{
    let mut ops = Vec::new(alloc);
    push_directories(alloc, &mut ops)?;
    push_semaphores(alloc, &mut ops, config)?;
    let job = new_job_text(alloc)?;
    push_jobs(alloc, &mut ops, config, job.as_slice())?;
    let role = idle_role_text(alloc)?;
    push_launchers(alloc, &mut ops, config, role.as_slice())?;
    push_janitors(alloc, &mut ops, config, role.as_slice())?;
    push_requesters(alloc, &mut ops, config, role.as_slice())?;
    push_make(alloc, &mut ops, Place::Tick, b"0")?;
    Ok(ops)
}

/// A tree with the first session alone.
fn begun_tree(alloc: Global) -> Result<Tree, NoMemory>
    ensures { IfOk result (λ tree. tree ≡ with_spare (after_begin new_tree) tree.spare) }
{
    let mut tree = Tree::new(alloc)?;
    tree.reserve_session()?;
    match tree.begin_session() {
        Ok(_) => {}
        Err(_) => unreachable!(),
    }
    Ok(tree)
}

/// The tree of the configuration before the first event. One call makes it, with a part for each
/// directory, semaphore, job, pool and requester.
pub fn first_tree(alloc: Global, config: &Config) -> Result<Tree, NoMemory>
    requires { IsSound config.now }
    ensures held { IfOk result (λ tree. IsHeld config.now tree) }
    ensures state { IfOk result (λ tree. decoded config.now tree ≡ start config.now) }
{
    let ops = make_first_parts(alloc, config)?;
    let mut tree = begun_tree(alloc)?;
    call(&mut tree, 1, ops.as_slice())?;
    // The contract of `changes` also says what is always true of a tree.
    let _ = tree.changes();
    Ok(tree)
}
