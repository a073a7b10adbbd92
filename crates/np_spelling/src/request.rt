//! The records of requests.
ghost use Rattle.std.specs.Prelude.{◌≡◌, ◌++◌, ◌∷◌, [], OnOk, codes, length};
ghost use Rattle.std.specs.Fmt.{decimal};
ghost use Rattle.np_spelling.specs.Lower.{request_state_word};
ghost use Rattle.np_spelling.specs.Reading.{answer, request_job_in, request_pinned_in, request_pool_in, other_state_in, request_record_in, request_state_in, served_state_in};
ghost use Rattle.np_spelling.specs.Spelling.{IsRequest, SpellsRequest, declined_text, joined, label_text, list_text, request_job, request_pinned, request_pool, request_record_text};

use crate::cursor::Cursor;
use crate::fault::BadRecord;
use crate::kind::Record;
use crate::list::{put_list, row};
use crate::text::{put, put_number_between, put_u32_behind};
use np_record::{DeclineRow, LabelRow, NodeRow, RequestRecord};
use np_text::{Ample, JobId, NoMemory, PoolId, RequestState};
use std::alloc::Global;

#[tactic(auto, unfolding(crate::specs::Reading::request_job_in))]
fn job(cursor: &mut Cursor) -> Option<Option<JobId>>
    ensures { request_job_in cursor.old ≡ (result, cursor.new) }
{
    cursor.lead(b",\"")?;
    if cursor.begins(b'j') {
        let job = cursor.u32_behind(b"job\":")?;
        cursor.spelled(b",\"labels\":", Some(JobId(job)))
    } else {
        cursor.spelled(b"labels\":", None)
    }
}

/// The pool of a request that no job made.
#[tactic(auto, unfolding(crate::specs::Reading::request_pinned_in))]
fn pinned(cursor: &mut Cursor, job: Option<JobId>) -> Option<Option<PoolId>>
    ensures { request_pinned_in job cursor.old ≡ (result, cursor.new) }
{
    match job {
        Some(_) => Some(None),
        None => Some(Some(PoolId(cursor.u16_behind(b",\"pinned\":")?))),
    }
}

#[tactic(auto, unfolding(crate::specs::Reading::request_pool_in))]
fn pool(cursor: &mut Cursor) -> Option<Option<PoolId>>
    ensures { request_pool_in cursor.old ≡ (result, cursor.new) }
{
    cursor.lead(b",\"")?;
    if cursor.begins(b'p') {
        let pool = cursor.u16_behind(b"pool\":")?;
        cursor.spelled(b",\"relative-priority\":", Some(PoolId(pool)))
    } else {
        cursor.spelled(b"relative-priority\":", None)
    }
}

/// The state: pending or fulfilled if and only if a pool serves the request.
fn state(cursor: &mut Cursor, pool: Option<PoolId>) -> Option<RequestState>
    ensures { request_state_in pool cursor.old ≡ (result, cursor.new) }
{
    match pool {
        Some(_) => served_state(cursor),
        None => other_state(cursor),
    }
}

#[inline(always)]
#[tactic(auto, unfolding(crate::specs::Reading::served_state_in))]
fn served_state(cursor: &mut Cursor) -> Option<RequestState>
    ensures { served_state_in cursor.old ≡ (result, cursor.new) }
{
    if cursor.begins(b'p') {
        cursor.spelled(b"pending\"}", RequestState::Pending)
    } else {
        cursor.spelled(b"fulfilled\"}", RequestState::Fulfilled)
    }
}

#[inline(always)]
#[tactic(auto, unfolding(crate::specs::Reading::other_state_in))]
fn other_state(cursor: &mut Cursor) -> Option<RequestState>
    ensures { other_state_in cursor.old ≡ (result, cursor.new) }
{
    if cursor.begins(b'r') {
        cursor.spelled(b"requested\"}", RequestState::Requested)
    } else {
        cursor.spelled(b"failed\"}", RequestState::Failed)
    }
}

#[tactic(auto, unfolding(crate::specs::Reading::request_record_in))]
fn request(cursor: &mut Cursor) -> Option<RequestRecord>
    ensures { request_record_in cursor.old ≡ (result, cursor.new) }
{
    cursor.lead(b"{\"declined\":")?;
    let declined: DeclineRow = row(cursor)?;
    let job = job(cursor)?;
    let labels: LabelRow = row(cursor)?;
    cursor.lead(b",\"nodes\":")?;
    let nodes: NodeRow = row(cursor)?;
    let pinned = pinned(cursor, job)?;
    let pool = pool(cursor)?;
    let relative_priority = cursor.u32()?;
    cursor.lead(b",\"state\":\"")?;
    let state = state(cursor, pool)?;
    Some(RequestRecord {
        declined,
        job,
        labels,
        nodes,
        pinned,
        pool,
        relative_priority,
        state,
    })
}

fn read_request_record(bytes: &[u8]) -> Result<RequestRecord, BadRecord>
    ensures { result ≡ answer (length bytes.now) (request_record_in bytes.now).0 (request_record_in bytes.now).1 }
{
    let mut cursor = Cursor::new(bytes);
    let found = request(&mut cursor);
    cursor.answer(bytes.len(), found)
}

fn put_job(out: &mut Vec<u8>, job: Option<JobId>) -> Ample
    ensures { OnOk result (out.new.items ≡ out.old.items ++ request_job job) }
{
    match job {
        Some(job) => put_number_between(out, b",\"job\":", u64::from(job.0), b",\"labels\":"),
        None => put(out, b",\"labels\":"),
    }
}

fn put_pinned(out: &mut Vec<u8>, pinned: Option<PoolId>) -> Ample
    ensures { OnOk result (out.new.items ≡ out.old.items ++ request_pinned pinned) }
{
    match pinned {
        Some(pool) => put_number_between(out, b",\"pinned\":", u64::from(pool.0), b""),
        None => Ok(()),
    }
}

fn put_pool(out: &mut Vec<u8>, pool: Option<PoolId>) -> Ample
    ensures { OnOk result (out.new.items ≡ out.old.items ++ request_pool pool) }
{
    match pool {
        Some(pool) => put_number_between(
            out,
            b",\"pool\":",
            u64::from(pool.0),
            b",\"relative-priority\":",
        ),
        None => put(out, b",\"relative-priority\":"),
    }
}

fn put_front(out: &mut Vec<u8>, request: &RequestRecord) -> Ample
    ensures { OnOk result (out.new.items ≡ out.old.items ++ joined (codes "{\"declined\":" ∷ list_text declined_text request.now.declined ∷ request_job request.now.job ∷ list_text label_text request.now.labels ∷ codes ",\"nodes\":" ∷ [])) }
{
    put(out, b"{\"declined\":")?;
    put_list(out, request.declined.items())?;
    put_job(out, request.job)?;
    put_list(out, request.labels.items())?;
    put(out, b",\"nodes\":")
}

fn put_end(out: &mut Vec<u8>, request: &RequestRecord) -> Ample
    ensures { OnOk result (out.new.items ≡ out.old.items ++ joined (request_pool request.now.pool ∷ decimal request.now.relative_priority ∷ codes ",\"state\":\"" ∷ request_state_word request.now.state ∷ codes "\"}" ∷ [])) }
{
    put_pool(out, request.pool)?;
    put_u32_behind(out, b"", request.relative_priority)?;
    put(out, b",\"state\":\"")?;
    put(out, request.state.word().as_bytes())?;
    put(out, b"\"}")
}

fn put_request_record(out: &mut Vec<u8>, request: &RequestRecord) -> Ample
    ensures { OnOk result (out.new.items ≡ out.old.items ++ request_record_text request.now) }
{
    put_front(out, request)?;
    put_list(out, request.nodes.items())?;
    put_pinned(out, request.pinned)?;
    put_end(out, request)
}

impl Record for RequestRecord {
    ghost is_sound = { IsRequest };

    ghost spells = { SpellsRequest };

    ghost written = { request_record_text };

    #[tactic(auto, using(crate::proofs::RequestForm::request_law))]
    fn read(bytes: &[u8]) -> Result<RequestRecord, BadRecord> {
        read_request_record(bytes)
    }

    fn text(&self, alloc: Global) -> Result<Vec<u8>, NoMemory> {
        let mut out = Vec::new(alloc);
        put_request_record(&mut out, self)?;
        Ok(out)
    }
}
