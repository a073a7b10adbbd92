//! Printing the Text and the summary.

ghost use Rattle.std.specs.Prelude.{◌≡◌, ◌+◌, ◌≤◌, ◌++◌, ◌∷◌, [], drop, length, OnOk, IfOk};
ghost use Rattle.np_report.specs.Lower.{AllByRecursion, HasEventLine, IsSound, Runs, entry_line, fates, line};
ghost use Rattle.np_report.specs.Told.{IsToldEntry, IsPrinted, text_of, job_text, entry_lines, fate_lines};

use crate::fate::put_fate;
use np_config::{Config, Job};
use np_config_text::config_text;
use np_event::{Entry, put_entry};
use np_look::Rows;
use np_text::{Ample, JobId, NoMemory, put_number};
use std::alloc::Global;

#[tactic(auto, unfolding(crate::specs::Told::job_text))]
fn put_job(out: &mut Vec<u8>, config: &Config, at: u32, job: &Job) -> Ample
    ensures { OnOk result (out.new.items ≡ out.old.items ++ job_text config.now at job.now) }
{
    out.push(b'j')?;
    put_number(out, u64::from(at))?;
    out.push(b' ')?;
    if let Some(requester) = config.requester(job.requester) {
        out.extend_from_slice(requester.name.items())?;
    }
    out.push(b'/')?;
    out.extend_from_slice(job.name.items())?;
    out.push(b' ')?;
    Ok(())
}

fn put_line(out: &mut Vec<u8>, entry: Entry) -> Ample
    requires { IsToldEntry entry }
    ensures { OnOk result (out.new.items ≡ out.old.items ++ line (entry_line entry)) }
{
    put_entry(out, entry)?;
    out.push(b'\n')?;
    Ok(())
}

fn put_entries(out: &mut Vec<u8>, journal: &[Entry]) -> Ample
    requires { AllByRecursion IsToldEntry journal.now }
    ensures { OnOk result (out.new.items ≡ out.old.items ++ entry_lines journal.now) }
{
    for entry in journal {
        put_line(out, *entry)?;
    }
    Ok(())
}

fn put_fates<R: Rows>(out: &mut Vec<u8>, rows: &R) -> Ample
    ensures { OnOk result (out.new.items ≡ out.old.items ++ fate_lines (R.site rows.now) 0 (R.site rows.now).jobs (fates (R.state rows.now))) }
{
    let config = rows.config();
    config.know_soundness();
    let mut at = 0;
    while let Some(job) = config.job(JobId(at)) {
        let Some(kept) = rows.job(JobId(at)) else {
            return Ok(());
        };
        put_job(out, config, at, job)?;
        put_fate(out, rows, &kept)?;
        out.push(b'\n')?;
        at += 1;
    }
    Ok(())
}

/// It does nothing: a configuration that can be looked at is sound.
fn is_sound<R: Rows>(rows: &R)
    ensures { IsSound (R.site rows.now) }
{
    rows.config().know_soundness();
}

#[tactic(auto, unfolding(crate::specs::Told::text_of))]
fn parts<R: Rows>(alloc: Global, rows: &R, journal: &[Entry]) -> Result<Vec<u8>, NoMemory>
    requires runs { Runs (R.site rows.now) journal.now (R.state rows.now) }
    requires lines { AllByRecursion (λ e. HasEventLine e.event) journal.now }
    ensures { IfOk result (λ text. text.items ≡ text_of (R.site rows.now) journal.now) }
{
    let config = rows.config();
    config.know_soundness();
    let mut out = config_text(alloc, config)?;
    out.extend_from_slice(b"\n%%\n")?;
    put_entries(&mut out, journal)?;
    out.extend_from_slice(b"%%\n")?;
    put_fates(&mut out, rows)?;
    Ok(out)
}

/// The whole Text of a run: the canonical configuration, a line `%%`, a line for each entry, refused
/// ones too, a line `%%`, and a line for what became of each job, in job order. The time grows with
/// the length of the Text.
pub fn text<R: Rows>(alloc: Global, rows: &R, journal: &[Entry]) -> Result<Vec<u8>, NoMemory>
    requires runs { Runs (R.site rows.now) journal.now (R.state rows.now) }
    requires lines { AllByRecursion (λ e. HasEventLine e.event) journal.now }
    ensures { IfOk result (λ text. IsPrinted (R.site rows.now) journal.now text.items) }
{
    is_sound(rows);
    match parts(alloc, rows, journal) {
        Ok(text) => Ok(text),
        Err(want) => Err(want),
    }
}
