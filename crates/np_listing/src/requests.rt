//! The table of requests, as Nodepool's `request-list` shows them.

ghost use Rattle.std.specs.Prelude.{◌≡◌, ◌++◌, ◌∷◌, [], IfOk, OnOk};
ghost use Rattle.np_listing.specs.Listing.{asker_words, request_row, request_rows};

use crate::row::{Row, head, push, push_each, push_or_dash, push_text};
use np_config::Config;
use np_lists::Items;
use np_look::{RequestView, Rows};
use np_text::{Ample, JobId, NoMemory};
use std::alloc::Global;

fn push_asker(alloc: Global, row: &mut Row, config: &Config, job: Option<JobId>) -> Ample
    ensures { OnOk result (row.new ≡ row.old ++ asker_words config.now job ∷ []) }
{
    match job {
        None => push_text(alloc, row, b"min-ready"),
        Some(job) => push(alloc, row, config, &job),
    }
}

/// The row of a request.
fn request_row(alloc: Global, config: &Config, view: &RequestView) -> Result<Row, NoMemory>
    ensures { IfOk result (λ row. row ≡ request_row config.now view.now) }
{
    let mut row = Items::none(alloc);
    let kept = &view.kept;
    push(alloc, &mut row, config, &view.id)?;
    push_text(alloc, &mut row, kept.state.word().as_bytes())?;
    push_asker(alloc, &mut row, config, kept.job)?;
    push_or_dash(alloc, &mut row, config, &kept.pool)?;
    push_each(alloc, &mut row, config, kept.labels.items())?;
    push_each(alloc, &mut row, config, kept.nodes.items())?;
    push_or_dash(alloc, &mut row, config, &view.holder)?;
    push_each(alloc, &mut row, config, kept.declined.items())?;
    Ok(row)
}

/// The head, and a row for each request.
pub(crate) fn request_rows<R: Rows>(alloc: Global, rows: &R) -> Result<Vec<Row>, NoMemory>
    ensures { IfOk result (λ table.
        table.items ≡ request_rows (R.site rows.now) (R.state rows.now)) }
{
    let mut table = Vec::new(alloc);
    let words = [
        "request",
        "state",
        "job",
        "pool",
        "labels",
        "nodes",
        "locked by",
        "declined by",
    ];
    table.push(head(alloc, &words)?)?;
    for at in 0..rows.requests() {
        let Some(view) = rows.request_view(at) else {
            return Ok(table);
        };
        table.push(request_row(alloc, rows.config(), &view)?)?;
    }
    Ok(table)
}
