//! What became of the jobs.

ghost use Rattle.std.specs.Prelude.{◌≡◌, ◌≤◌, ◌++◌, codes, length, if◌then◌else◌, OnOk};
ghost use Rattle.np_listing.specs.Summary.{count_words, fate_count, fates_line, has_fate};

use np_explain_lines::put;
use np_look::Rows;
use np_text::{Ample, Ending, JobId, put_number};

/// What can become of a job.
#[derive(Clone, Copy)]
enum Fate {
    Served,
    Failed,
    Lost,
    Withdrawn,
    /// It is not over.
    Open,
}

/// Whether a job that ended so has this fate.
fn has_fate(fate: Fate, ending: Option<Ending>) -> bool
    ensures { result ≡ has_fate fate ending }
{
    match fate {
        Fate::Served => matches!(ending, Some(Ending::Served)),
        Fate::Failed => matches!(ending, Some(Ending::Failed)),
        Fate::Lost => matches!(ending, Some(Ending::Lost)),
        Fate::Withdrawn => matches!(ending, Some(Ending::Withdrawn)),
        Fate::Open => ending.is_none(),
    }
}

fn one_if(counted: bool) -> u32
    ensures answer { result ≡ (if counted then 1 else 0) }
    ensures small { result ≤ 1 }
{
    if counted { 1 } else { 0 }
}

/// How many jobs have this fate.
fn fate_count<R: Rows>(rows: &R, fate: Fate) -> u32
    ensures { result ≡ fate_count (R.state rows.now) fate }
{
    let mut count = 0;
    for at in 0..rows.jobs() {
        let Some(kept) = rows.job(JobId(at)) else {
            return count;
        };
        count += one_if(has_fate(fate, kept.ending));
    }
    count
}

/// Appends a number, and what there are so many of.
pub(crate) fn put_count(out: &mut Vec<u8>, count: u32, words: &[u8]) -> Ample
    ensures { OnOk result (out.new.items ≡ out.old.items ++ count_words count words.now) }
{
    put_number(out, u64::from(count))?;
    put(out, b" ")?;
    put(out, words)
}

/// Appends how many jobs have this fate.
fn put_fate<R: Rows>(out: &mut Vec<u8>, rows: &R, fate: Fate, words: &[u8]) -> Ample
    ensures { OnOk result (out.new.items
        ≡ out.old.items ++ count_words (fate_count (R.state rows.now) fate) words.now) }
{
    put_count(out, fate_count(rows, fate), words)
}

/// Appends how many jobs there are.
fn put_all<R: Rows>(out: &mut Vec<u8>, rows: &R) -> Ample
    ensures { OnOk result (out.new.items
        ≡ out.old.items ++ (codes "jobs: "
        ++ count_words (length (R.state rows.now).jobs) (codes "in all, "))) }
{
    put(out, b"jobs: ")?;
    put_count(out, rows.jobs(), b"in all, ")
}

/// Appends what became of the jobs.
pub(crate) fn put_fates<R: Rows>(out: &mut Vec<u8>, rows: &R) -> Ample
    ensures { OnOk result (out.new.items ≡ out.old.items ++ fates_line (R.state rows.now)) }
{
    put_all(out, rows)?;
    put_fate(out, rows, Fate::Served, b"served, ")?;
    put_fate(out, rows, Fate::Failed, b"failed, ")?;
    put_fate(out, rows, Fate::Lost, b"lost, ")?;
    put_fate(out, rows, Fate::Withdrawn, b"withdrawn, ")?;
    put_fate(out, rows, Fate::Open, b"not over\n")?;
    Ok(())
}
