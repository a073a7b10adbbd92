//! What became of the jobs, as it is printed.

ghost use Rattle.std.specs.Prelude.{◌≡◌, ◌++◌, map, OnOk};
ghost use Rattle.std.specs.List.{flat_map};
ghost use Rattle.np_report.specs.Lower.{declines_of, fate_of};
ghost use Rattle.np_report.specs.Told.{decline_text, fate_text, node_text, pool_text};

use np_look::Rows;
use np_record::{Declined, JobRecord, Marked};
use np_text::{Ample, Ending, PoolId, put_number, put_reason};

fn put_decline(out: &mut Vec<u8>, declined: Declined) -> Ample
    ensures { OnOk result (out.new.items ≡ out.old.items ++ decline_text declined) }
{
    out.extend_from_slice(b" p")?;
    put_number(out, u64::from(declined.pool.0))?;
    out.push(b':')?;
    put_reason(out, declined.reason)
}

fn put_declines(out: &mut Vec<u8>, declines: &[Declined]) -> Ample
    ensures { OnOk result (out.new.items ≡ out.old.items ++ flat_map decline_text declines.now) }
{
    for declined in declines {
        put_decline(out, *declined)?;
    }
    Ok(())
}

fn put_pool(out: &mut Vec<u8>, pool: Option<PoolId>) -> Ample
    ensures { OnOk result (out.new.items ≡ out.old.items ++ pool_text pool) }
{
    if let Some(pool) = pool {
        out.extend_from_slice(b" p")?;
        put_number(out, u64::from(pool.0))?;
    }
    Ok(())
}

fn put_nodes(out: &mut Vec<u8>, nodes: &[Marked]) -> Ample
    ensures { OnOk result (out.new.items ≡ out.old.items ++ flat_map node_text (map (λ m. m.node) nodes.now)) }
{
    for marked in nodes {
        out.extend_from_slice(b" n")?;
        put_number(out, u64::from(marked.node.0))?;
    }
    Ok(())
}

/// The declines of the job's request, if it has one that still exists.
fn put_failed<R: Rows>(out: &mut Vec<u8>, rows: &R, job: &JobRecord) -> Ample
    ensures { OnOk result (out.new.items ≡ out.old.items ++ flat_map decline_text (declines_of (R.state rows.now) job.now)) }
{
    let Some(request) = job.request else {
        return Ok(());
    };
    match rows.request(request) {
        None => Ok(()),
        Some(kept) => put_declines(out, kept.declined.items()),
    }
}

/// A job's end, or how far it has come.
pub(crate) fn put_fate<R: Rows>(out: &mut Vec<u8>, rows: &R, job: &JobRecord) -> Ample
    ensures { OnOk result (out.new.items ≡ out.old.items ++ fate_text (fate_of (R.state rows.now) job.now)) }
{
    match job.ending {
        Some(Ending::Served) => {
            out.extend_from_slice(b"served")?;
            put_pool(out, job.pool)?;
            put_nodes(out, job.nodes.items())
        }
        Some(Ending::Failed) => {
            out.extend_from_slice(b"failed")?;
            put_failed(out, rows, job)
        }
        Some(Ending::Lost) => {
            out.extend_from_slice(b"lost")?;
            Ok(())
        }
        Some(Ending::Withdrawn) => {
            out.extend_from_slice(b"withdrawn")?;
            Ok(())
        }
        None => {
            out.extend_from_slice(b"waiting ")?;
            out.extend_from_slice(job.phase.word().as_bytes())?;
            Ok(())
        }
    }
}
