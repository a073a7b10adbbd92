//! The handles of the semaphores.

ghost use Rattle.std.specs.Prelude.{◌≡◌, IfOk};
ghost use Rattle.np_keeper.specs.Lower.{IsCarried, handles_of, rows_of};

use crate::append::push;
use np_look::Rows;
use np_tables::HandleTable;
use np_text::SemId;
use std::alloc::{AllocError, Global};

/// The jobs that have a handle of the semaphore, by number.
fn handles_of<R: Rows>(alloc: Global, rows: &R, semaphore: SemId) -> Result<HandleTable, AllocError>
    requires { IsCarried (R.site rows.now) (R.state rows.now) }
    ensures { IfOk result
        (λ table. table.rows ≡ handles_of semaphore (R.state rows.now).handles) }
{
    let mut table = HandleTable::new(alloc);
    for at in 0..rows.handles(semaphore) {
        if let Some(job) = rows.handle_at(semaphore, at) {
            push(&mut table, job)?;
        }
    }
    Ok(table)
}

/// The handles of each semaphore. It costs one call of the rows for each handle; rows that scan walk
/// all jobs for each.
pub(crate) fn all_handles<R: Rows>(alloc: Global, rows: &R) -> Result<Vec<HandleTable>, AllocError>
    requires { IsCarried (R.site rows.now) (R.state rows.now) }
    ensures { IfOk result (λ tables. rows_of tables.items ≡ (R.state rows.now).handles) }
{
    let config = rows.config();
    config.know_soundness();
    let mut tables = Vec::new(alloc);
    for number in 0..config.semaphores().len() {
        tables.push(handles_of(alloc, rows, SemId(number as u16))?)?;
    }
    Ok(tables)
}
