//! The table of nodes, as Nodepool's `list` shows them.

ghost use Rattle.std.specs.Prelude.{◌≡◌, IfOk};
ghost use Rattle.np_listing.specs.Listing.{node_row, node_rows};

use crate::row::{Row, head, push, push_or_dash, push_text};
use np_config::Config;
use np_lists::Items;
use np_look::{NodeView, Rows};
use np_text::NoMemory;
use std::alloc::Global;

/// The row of a node at this tick.
fn node_row(alloc: Global, config: &Config, tick: u32, view: &NodeView) -> Result<Row, NoMemory>
    ensures { IfOk result (λ row. row ≡ node_row config.now tick view.now) }
{
    let mut row = Items::none(alloc);
    let kept = &view.kept;
    let age = u64::from(tick.saturating_sub(kept.since));
    push(alloc, &mut row, config, &view.id)?;
    push(alloc, &mut row, config, &kept.pool)?;
    push(alloc, &mut row, config, &kept.label)?;
    push_or_dash(alloc, &mut row, config, &kept.server)?;
    push(alloc, &mut row, config, &u64::from(kept.attempts))?;
    push_text(alloc, &mut row, kept.state.word().as_bytes())?;
    push(alloc, &mut row, config, &age)?;
    push_or_dash(alloc, &mut row, config, &view.holder)?;
    push_or_dash(alloc, &mut row, config, &kept.allocated_to)?;
    push_or_dash(alloc, &mut row, config, &kept.tenant)?;
    Ok(row)
}

/// The head, and a row for each node.
pub(crate) fn node_rows<R: Rows>(alloc: Global, rows: &R) -> Result<Vec<Row>, NoMemory>
    ensures { IfOk result (λ table. table.items ≡ node_rows (R.site rows.now) (R.state rows.now)) }
{
    let mut table = Vec::new(alloc);
    let words = [
        "node",
        "pool",
        "label",
        "server",
        "launches",
        "state",
        "age",
        "locked by",
        "allocated to",
        "tenant",
    ];
    table.push(head(alloc, &words)?)?;
    for at in 0..rows.nodes() {
        let Some(view) = rows.node_view(at) else {
            return Ok(table);
        };
        table.push(node_row(alloc, rows.config(), rows.tick(), &view)?)?;
    }
    Ok(table)
}
