//! The table of handles.

ghost use Rattle.std.specs.Prelude.{◌≡◌, ◌++◌, ◌∷◌, [], length, IfOk, OnOk};
ghost use Rattle.np_listing.specs.Lower.{semaphore_words};
ghost use Rattle.np_listing.specs.Listing.{handle_head, handle_row, handle_rows, handle_rows_of, most_of};

use crate::row::{Row, head, push};
use crate::rows::semaphores;
use np_config::Config;
use np_lists::Items;
use np_look::Rows;
use np_text::{Ample, JobId, NoMemory, SemId};
use std::alloc::Global;

/// How many handles the semaphore has.
fn most_of(config: &Config, semaphore: SemId) -> u32
    ensures { result ≡ most_of config.now semaphore }
{
    config.semaphore(semaphore).map_or(0, |row| row.max)
}

/// The row of a job that has a handle.
fn handle_row(alloc: Global, config: &Config, semaphore: SemId, job: JobId) -> Result<Row, NoMemory>
    ensures { IfOk result (λ row. row ≡ handle_row config.now semaphore job) }
{
    let mut row = Items::none(alloc);
    push(alloc, &mut row, config, &semaphore)?;
    push(
        alloc,
        &mut row,
        config,
        &u64::from(most_of(config, semaphore)),
    )?;
    push(alloc, &mut row, config, &job)?;
    Ok(row)
}

/// Adds a row for each job that has a handle of the semaphore.
fn push_handles<R: Rows>(alloc: Global, table: &mut Vec<Row>, rows: &R, number: u16) -> Ample
    ensures { OnOk result (table.new.items ≡ table.old.items
        ++ handle_rows_of (R.site rows.now) (R.state rows.now) number) }
{
    let semaphore = SemId(number);
    for at in 0..rows.handles(semaphore) {
        let Some(job) = rows.handle_at(semaphore, at) else {
            return Ok(());
        };
        table.push(handle_row(alloc, rows.config(), semaphore, job)?)?;
    }
    Ok(())
}

/// The head, and a row for each handle that a job has.
pub(crate) fn handle_rows<R: Rows>(alloc: Global, rows: &R) -> Result<Vec<Row>, NoMemory>
    ensures { IfOk result (λ table.
        table.items ≡ handle_rows (R.site rows.now) (R.state rows.now)) }
{
    let mut table = Vec::new(alloc);
    table.push(head(alloc, &["semaphore", "max", "handle of"])?)?;
    for number in 0..semaphores(rows.config()) {
        push_handles(alloc, &mut table, rows, number)?;
    }
    Ok(table)
}
