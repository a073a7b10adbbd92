//! Jobs, drawn one after another.

ghost use Rattle.std.specs.Prelude.{◌≡◌, [], ◌∷◌, ◌++◌, IfOk, OnOk};
ghost use Rattle.np_gen.specs.Site.{is_large, label_count, drawn_labels, job_labels, drawn_priority, job_priority, drawn_semaphores, job_semaphores, job_name, drill_job, after_job, drawn_jobs, jobs_of};

use crate::draw::{after_draws, draw, next_state};
use np_config::{Job, LabelList, Name, SemList};
use np_text::{Ample, EndAs, LabelId, NoMemory, RequesterId, SemId, TenantId, put_number};
use std::alloc::Global;

/// The semaphore `deploy`.
const DEPLOY: SemId = SemId(0);
/// The semaphore `stage`.
const STAGE: SemId = SemId(1);

/// Whether the job asks for more nodes than a pool may have.
fn is_large(number: u32) -> bool
    ensures { result ≡ is_large number }
{
    number % 10 == 9
}

/// How many labels a job asks for if it is not large.
fn label_count(state: u64) -> u64
    ensures { result ≡ label_count state }
{
    draw(state) % 3 + 1
}

#[tactic(auto, using(crate::proofs::DrillSite::draws))]
fn drawn_labels(alloc: Global, count: u64, state: u64) -> Result<LabelList, NoMemory>
    ensures { IfOk result (λ labels. labels ≡ drawn_labels count state) }
{
    let mut labels = LabelList::none(alloc);
    let mut current = state;
    for _ in 0..count {
        labels.push(LabelId((draw(current) % 4) as u16))?;
        current = next_state(current);
    }
    Ok(labels)
}

fn job_labels(alloc: Global, number: u32, state: u64) -> Result<LabelList, NoMemory>
    ensures { IfOk result (λ labels. labels ≡ job_labels number state) }
{
    if is_large(number) {
        let labels = vec![in alloc; LabelId(0); 9]?;
        return Ok(LabelList::new(labels));
    }
    drawn_labels(alloc, label_count(state), next_state(state))
}

fn drawn_priority(value: u64) -> u16
    ensures { result ≡ drawn_priority value }
{
    match value % 3 {
        0 => 100,
        1 => 200,
        _ => 300,
    }
}

fn job_priority(number: u32, state: u64) -> u16
    ensures { result ≡ job_priority number state }
{
    if is_large(number) {
        return 200;
    }
    drawn_priority(draw(after_draws(label_count(state) + 1, state)))
}

fn drawn_semaphores(alloc: Global, value: u64) -> Result<SemList, NoMemory>
    ensures { IfOk result (λ semaphores. semaphores ≡ drawn_semaphores value) }
{
    let mut semaphores = SemList::none(alloc);
    match value % 8 {
        0 => semaphores.push(DEPLOY)?,
        1 => semaphores.push(STAGE)?,
        _ => {}
    }
    Ok(semaphores)
}

fn job_semaphores(alloc: Global, number: u32, state: u64) -> Result<SemList, NoMemory>
    ensures { IfOk result (λ semaphores. semaphores ≡ job_semaphores number state) }
{
    if is_large(number) {
        return Ok(SemList::none(alloc));
    }
    drawn_semaphores(alloc, draw(after_draws(label_count(state) + 2, state)))
}

fn job_name(alloc: Global, number: u32) -> Result<Name, NoMemory>
    ensures { IfOk result (λ name. name ≡ job_name number) }
{
    let mut name = Vec::from_slice(alloc, b"j")?;
    put_number(&mut name, u64::from(number))?;
    Ok(Name::new(name))
}

/// The job with a number, drawn at a state.
fn drill_job(alloc: Global, number: u32, state: u64) -> Result<Job, NoMemory>
    ensures { IfOk result (λ job. job ≡ drill_job number state) }
{
    Ok(Job {
        requester: RequesterId((number % 4) as u16),
        name: job_name(alloc, number)?,
        labels: job_labels(alloc, number, state)?,
        priority: job_priority(number, state),
        relative_priority: 0,
        semaphores: job_semaphores(alloc, number, state)?,
        resources_first: false,
        end: EndAs::Used,
        tenant: TenantId(0),
    })
}

/// The state after a job was drawn.
fn after_job(number: u32, state: u64) -> u64
    ensures { result ≡ after_job number state }
{
    if is_large(number) {
        return state;
    }
    after_draws(label_count(state) + 3, state)
}

/// Adds the job at the end if it belongs to this requester.
fn put_job_of(alloc: Global, requester: u32, number: u32, state: u64, rows: &mut Vec<Job>) -> Ample
    ensures { OnOk result (rows.new.items ≡
        rows.old.items ++ jobs_of requester (drill_job number state ∷ [])) }
{
    if number % 4 != requester {
        return Ok(());
    }
    rows.push(drill_job(alloc, number, state)?)?;
    Ok(())
}

/// Adds the jobs of one requester at the end. All jobs are drawn, and only these are made.
#[tactic(auto, using(crate::proofs::DrillSite::jobs))]
pub(crate) fn put_jobs_of(alloc: Global, requester: u32, jobs: u32, rows: &mut Vec<Job>) -> Ample
    ensures { OnOk result
        (rows.new.items ≡ rows.old.items ++ jobs_of requester (drawn_jobs jobs)) }
{
    let mut state = u64::from(jobs);
    for number in 0..jobs {
        put_job_of(alloc, requester, number, state, rows)?;
        state = after_job(number, state);
    }
    Ok(())
}
