//! The explanation of a run.

ghost use Rattle.std.specs.Prelude.{◌≡◌, ◌++◌, IfOk, OnOk};
ghost use Rattle.np_explain.specs.Lower.{summary_of};
ghost use Rattle.np_explain.specs.Explained.{AreChains, IsExplanation, part, IsPlayed};

use crate::fails::failures;
use crate::run::Run;
use crate::waits::put_links;
use np_explain_lines::{chains, put};
use np_look::{Look, Rows};
use np_rules::Plain;
use np_text::{Ample, NoMemory};
use std::alloc::Global;

/// The lines of the chains.
fn waits(alloc: Global, machine: &Plain) -> Result<Vec<u8>, NoMemory>
    ensures { IfOk result (λ lines. AreChains machine.now.configuration machine.now.state
        lines.items) }
{
    machine.know_soundness();
    let links = chains(alloc, machine)?;
    let mut out = Vec::new(alloc);
    put_links(&mut out, machine.rows().config(), links.as_slice())?;
    Ok(out)
}

/// Appends lines and an empty line after them, or nothing if there are none.
fn put_part(out: &mut Vec<u8>, lines: &[u8]) -> Ample
    ensures { OnOk result (out.new.items ≡ out.old.items ++ part lines.now) }
{
    if lines.is_empty() {
        return Ok(());
    }
    put(out, lines)?;
    put(out, b"\n")
}

/// What the run took.
fn summary_of(alloc: Global, run: &Run) -> Result<Vec<u8>, NoMemory>
    requires { IsPlayed run.now.machine run.now.tally }
    ensures { IfOk result (λ text. text.items
        ≡ summary_of run.now.machine.configuration run.now.machine.journal) }
{
    run.machine.know_soundness();
    let text = run.tally.summary(alloc, run.machine.rows())?;
    Ok(text)
}

/// The parts, joined.
fn joined(alloc: Global, waits: &[u8], failed: &[u8], summary: &[u8]) -> Result<Vec<u8>, NoMemory>
    ensures { IfOk result (λ text. text.items
        ≡ part waits.now ++ part failed.now ++ summary.now) }
{
    let mut out = Vec::new(alloc);
    put_part(&mut out, waits)?;
    put_part(&mut out, failed)?;
    put(&mut out, summary)?;
    Ok(out)
}

/// Why the jobs of the run wait or failed, and what the run took.
pub(crate) fn explanation(alloc: Global, run: &Run) -> Result<Vec<u8>, NoMemory>
    requires { IsPlayed run.now.machine run.now.tally }
    ensures { IfOk result (λ text. IsExplanation run.now.machine.configuration
        run.now.machine.journal run.now.machine.state text.items) }
{
    let rows = run.machine.rows();
    let waits = waits(alloc, &run.machine)?;
    let failed = failures(alloc, rows)?;
    let summary = summary_of(alloc, run)?;
    joined(
        alloc,
        waits.as_slice(),
        failed.as_slice(),
        summary.as_slice(),
    )
}
