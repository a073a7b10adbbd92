//! All tables of a state.

ghost use Rattle.std.specs.Prelude.{◌≡◌, ◌++◌, codes, decimal, IfOk, OnOk};
ghost use Rattle.np_listing.specs.Listing.{table_text, handle_rows, listing_of, node_rows, request_rows, session_rows};

use crate::columns::put_table;
use crate::handles::handle_rows;
use crate::nodes::node_rows;
use crate::requests::request_rows;
use crate::sessions::session_rows;
use np_explain_lines::put;
use np_look::Rows;
use np_text::{Ample, NoMemory, put_number};
use std::alloc::Global;

fn put_tick(out: &mut Vec<u8>, tick: u32) -> Ample
    ensures { OnOk result (out.new.items
        ≡ out.old.items ++ (codes "tick " ++ decimal tick ++ codes "\n\n")) }
{
    put(out, b"tick ")?;
    put_number(out, u64::from(tick))?;
    put(out, b"\n\n")
}

/// The tick, and the tables of nodes, requests, handles and sessions, each with a line of heads.
/// The time grows with the number of rows; `queued_requests` and `queued_nodes` of the rows are
/// called once for each session. It fails only if memory runs out.
#[tactic(auto, unfolding(crate::specs::Listing::listing_of))]
pub fn listing<R: Rows>(alloc: Global, rows: &R) -> Result<Vec<u8>, NoMemory>
    ensures { IfOk result (λ text. text.items ≡ listing_of (R.site rows.now) (R.state rows.now)) }
{
    let mut out = Vec::new(alloc);
    put_tick(&mut out, rows.tick())?;
    put_table(alloc, &mut out, node_rows(alloc, rows)?.as_slice())?;
    put(&mut out, b"\n")?;
    put_table(alloc, &mut out, request_rows(alloc, rows)?.as_slice())?;
    put(&mut out, b"\n")?;
    put_table(alloc, &mut out, handle_rows(alloc, rows)?.as_slice())?;
    put(&mut out, b"\n")?;
    put_table(alloc, &mut out, session_rows(alloc, rows)?.as_slice())?;
    Ok(out)
}
