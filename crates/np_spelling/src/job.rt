//! The records of jobs.
ghost use Rattle.std.specs.Prelude.{◌≡◌, ◌++◌, ◌∷◌, [], OnOk, IfSome, codes, length};
ghost use Rattle.np_spelling.specs.Lower.{HasText, ending_word, phase_word};
ghost use Rattle.np_spelling.specs.Reading.{answer, asked_end_in, chosen, ending_by, job_end_in, job_front_in, job_in, no_end_in, open_phase_in, over_end_in, phase_in, using_end_in};
ghost use Rattle.np_spelling.specs.Spelling.{IsJob, SpellsJob, job_end, job_front, job_text, joined};

use crate::cursor::Cursor;
use crate::fault::BadRecord;
use crate::id::request;
use crate::kind::Record;
use crate::list::{put_list, row};
use crate::text::{put, put_number_between, put_request_between, put_u16_behind};
use np_record::{JobRecord, MarkRow};
use np_text::{Ample, Ending, NoMemory, Phase, PoolId, RequestId};
use std::alloc::Global;

fn ending_by(first: u8) -> Ending
    ensures { result ≡ ending_by first }
{
    match first {
        b's' => Ending::Served,
        b'l' => Ending::Lost,
        b'f' => Ending::Failed,
        _ => Ending::Withdrawn,
    }
}

#[tactic(auto, unfolding(crate::specs::Reading::chosen))]
fn ending_word(cursor: &mut Cursor) -> Option<Ending>
    ensures { chosen ending_by ending_word cursor.old ≡ (result, cursor.new) }
{
    let ending = ending_by(cursor.first());
    cursor.lead(ending.word().as_bytes())?;
    Some(ending)
}

#[tactic(auto, unfolding(crate::specs::Reading::job_front_in))]
fn front(cursor: &mut Cursor) -> Option<Option<Ending>>
    ensures { job_front_in cursor.old ≡ (result, cursor.new) }
{
    cursor.lead(b"{\"")?;
    if cursor.begins(b'e') {
        cursor.lead(b"ending\":\"")?;
        let ending = ending_word(cursor)?;
        cursor.spelled(b"\",\"nodes\":", Some(ending))
    } else {
        cursor.spelled(b"nodes\":", None)
    }
}

#[tactic(auto, unfolding(crate::specs::Reading::open_phase_in))]
fn open_phase(cursor: &mut Cursor) -> Option<Phase>
    ensures { open_phase_in cursor.old ≡ (result, cursor.new) }
{
    if cursor.begins(b'n') {
        cursor.spelled(b"new\"", Phase::New)
    } else if cursor.begins(b'a') {
        cursor.spelled(b"asked\"", Phase::Asked)
    } else {
        cursor.spelled(b"using\"", Phase::Using)
    }
}

/// The phase: over if and only if there is an ending.
#[tactic(auto, unfolding(crate::specs::Reading::phase_in))]
fn phase(cursor: &mut Cursor, ending: Option<Ending>) -> Option<Phase>
    ensures { phase_in ending cursor.old ≡ (result, cursor.new) }
{
    match ending {
        Some(_) => cursor.spelled(b",\"phase\":\"over\"", Phase::Over),
        None => {
            cursor.lead(b",\"phase\":\"")?;
            open_phase(cursor)
        }
    }
}

type End = (Option<PoolId>, Option<RequestId>);

#[tactic(auto, unfolding(crate::specs::Reading::no_end_in))]
fn no_end(cursor: &mut Cursor) -> Option<End>
    ensures { no_end_in cursor.old ≡ (result, cursor.new) }
{
    cursor.spelled(b"}", (None, None))
}

#[tactic(auto, unfolding(crate::specs::Reading::asked_end_in))]
fn asked_end(cursor: &mut Cursor, text: &[u8], pool: Option<PoolId>) -> Option<End>
    ensures { asked_end_in text.now pool cursor.old ≡ (result, cursor.new) }
{
    cursor.lead(text)?;
    let id = request(cursor)?;
    cursor.spelled(b"\"}", (pool, Some(id)))
}

#[tactic(auto, unfolding(crate::specs::Reading::using_end_in))]
fn using_end(cursor: &mut Cursor, text: &[u8]) -> Option<End>
    ensures { using_end_in text.now cursor.old ≡ (result, cursor.new) }
{
    let pool = cursor.u16_behind(text)?;
    asked_end(cursor, b",\"request\":\"", Some(PoolId(pool)))
}

#[tactic(auto, unfolding(crate::specs::Reading::over_end_in))]
fn over_end(cursor: &mut Cursor) -> Option<End>
    ensures { over_end_in cursor.old ≡ (result, cursor.new) }
{
    if cursor.begins(b'}') {
        return no_end(cursor);
    }
    cursor.lead(b",\"")?;
    if cursor.begins(b'p') {
        using_end(cursor, b"pool\":")
    } else {
        asked_end(cursor, b"request\":\"", None)
    }
}

/// The pool and the request, as many as the phase requires.
fn end(cursor: &mut Cursor, phase: Phase) -> Option<End>
    ensures { job_end_in phase cursor.old ≡ (result, cursor.new) }
{
    match phase {
        Phase::New => no_end(cursor),
        Phase::Asked => asked_end(cursor, b",\"request\":\"", None),
        Phase::Using => using_end(cursor, b",\"pool\":"),
        Phase::Over => over_end(cursor),
    }
}

#[tactic(auto, unfolding(crate::specs::Reading::job_in))]
fn job(cursor: &mut Cursor) -> Option<JobRecord>
    ensures { job_in cursor.old ≡ (result, cursor.new) }
{
    let ending = front(cursor)?;
    let nodes: MarkRow = row(cursor)?;
    let phase = phase(cursor, ending)?;
    let (pool, request) = end(cursor, phase)?;
    Some(JobRecord {
        ending,
        nodes,
        phase,
        pool,
        request,
    })
}

fn read_job(bytes: &[u8]) -> Result<JobRecord, BadRecord>
    ensures { result ≡ answer (length bytes.now) (job_in bytes.now).0 (job_in bytes.now).1 }
{
    let mut cursor = Cursor::new(bytes);
    let found = job(&mut cursor);
    cursor.answer(bytes.len(), found)
}

fn put_front(out: &mut Vec<u8>, ending: Option<Ending>) -> Ample
    ensures { OnOk result (out.new.items ≡ out.old.items ++ job_front ending) }
{
    match ending {
        Some(ending) => put_ending(out, ending),
        None => put(out, b"{\"nodes\":"),
    }
}

fn put_ending(out: &mut Vec<u8>, ending: Ending) -> Ample
    ensures { OnOk result (out.new.items ≡ out.old.items ++ joined (codes "{\"ending\":\"" ∷ ending_word ending ∷ codes "\",\"nodes\":" ∷ [])) }
{
    put(out, b"{\"ending\":\"")?;
    put(out, ending.word().as_bytes())?;
    put(out, b"\",\"nodes\":")
}

fn put_phase(out: &mut Vec<u8>, phase: Phase) -> Ample
    ensures { OnOk result (out.new.items ≡ out.old.items ++ joined (codes ",\"phase\":\"" ∷ phase_word phase ∷ codes "\"" ∷ [])) }
{
    put(out, b",\"phase\":\"")?;
    put(out, phase.word().as_bytes())?;
    put(out, b"\"")
}

fn put_pool_and_request(out: &mut Vec<u8>, pool: PoolId, id: RequestId) -> Ample
    requires { HasText id }
    ensures { OnOk result (out.new.items ≡ out.old.items ++ job_end (Some pool) (Some id)) }
{
    put_u16_behind(out, b",\"pool\":", pool.0)?;
    put_request_between(out, b",\"request\":\"", id, b"\"}")?;
    Ok(())
}

fn put_end(out: &mut Vec<u8>, pool: Option<PoolId>, request: Option<RequestId>) -> Ample
    requires { IfSome request HasText }
    ensures { OnOk result (out.new.items ≡ out.old.items ++ job_end pool request) }
{
    match (pool, request) {
        (None, None) => put(out, b"}"),
        (None, Some(id)) => put_request_between(out, b",\"request\":\"", id, b"\"}"),
        (Some(pool), None) => put_number_between(out, b",\"pool\":", u64::from(pool.0), b"}"),
        (Some(pool), Some(id)) => put_pool_and_request(out, pool, id),
    }
}

fn put_job(out: &mut Vec<u8>, job: &JobRecord) -> Ample
    requires { IsJob job.now }
    ensures { OnOk result (out.new.items ≡ out.old.items ++ job_text job.now) }
{
    put_front(out, job.ending)?;
    put_list(out, job.nodes.items())?;
    put_phase(out, job.phase)?;
    put_end(out, job.pool, job.request)
}

impl Record for JobRecord {
    ghost is_sound = { IsJob };

    ghost spells = { SpellsJob };

    ghost written = { job_text };

    #[tactic(auto, using(crate::proofs::Records::job_law))]
    fn read(bytes: &[u8]) -> Result<JobRecord, BadRecord> {
        read_job(bytes)
    }

    fn text(&self, alloc: Global) -> Result<Vec<u8>, NoMemory> {
        let mut out = Vec::new(alloc);
        put_job(&mut out, self)?;
        Ok(out)
    }
}
