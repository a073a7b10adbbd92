//! Rows of cells, printed in columns.

ghost use Rattle.std.specs.Prelude.{◌≡◌, ◌++◌, [], length, replicate, slice_get, unwrap_or, IfOk, OnOk};
ghost use Rattle.np_listing.specs.Listing.{cell_len, cell_text, cells_text, gap, row_line, table_text, width, width_at, widths};

use crate::row::{Cell, Row};
use np_text::{Ample, NoMemory};
use std::alloc::Global;

/// How long the row's cell in the column is.
fn cell_len(row: &Row, column: usize) -> usize
    ensures { result ≡ cell_len column row.now }
{
    row.items().get(column).map_or(0, |cell| cell.items().len())
}

/// How wide the column is.
fn width(rows: &[Row], column: usize) -> usize
    ensures { result ≡ width rows.now column }
{
    let mut most = 0;
    for row in rows {
        most = cell_len(row, column).max(most);
    }
    most
}

/// How wide each column is.
fn widths(alloc: Global, columns: usize, rows: &[Row]) -> Result<Vec<usize>, NoMemory>
    ensures { IfOk result (λ ws. ws.items ≡ widths columns rows.now) }
{
    let mut widths = Vec::new(alloc);
    for column in 0..columns {
        widths.push(width(rows, column))?;
    }
    Ok(widths)
}

/// Appends spaces.
fn put_spaces(out: &mut Vec<u8>, count: usize) -> Ample
    ensures { OnOk result (out.new.items ≡ out.old.items ++ replicate count 32) }
{
    for _at in 0..count {
        out.push(b' ')?;
    }
    Ok(())
}

/// Appends what stands between a cell and the next ones.
fn put_gap(out: &mut Vec<u8>, missing: usize, next: &[Cell]) -> Ample
    ensures { OnOk result (out.new.items ≡ out.old.items ++ gap missing next.now) }
{
    if next.is_empty() {
        return Ok(());
    }
    out.extend_from_slice(b"  ")?;
    put_spaces(out, missing)
}

/// Appends a cell in a column of this width.
fn put_cell(out: &mut Vec<u8>, width: usize, cell: &Cell, next: &[Cell]) -> Ample
    ensures { OnOk result (out.new.items ≡ out.old.items ++ cell_text width cell.now next.now) }
{
    let text = cell.items();
    out.extend_from_slice(text)?;
    put_gap(out, width.saturating_sub(text.len()), next)
}

/// How wide the column is, if the columns are this wide.
fn width_at(widths: &[usize], column: usize) -> usize
    ensures { result ≡ width_at widths.now column }
{
    widths.get(column).copied().unwrap_or(0)
}

/// Appends a row's cells, each in its column.
fn put_cells(out: &mut Vec<u8>, widths: &[usize], row: &Row) -> Ample
    ensures { OnOk result (out.new.items ≡ out.old.items ++ cells_text widths.now 0 row.now) }
{
    let cells = row.items();
    for (column, cell) in cells.iter().enumerate() {
        let next = cells.split_at(column + 1).1;
        put_cell(out, width_at(widths, column), cell, next)?;
    }
    Ok(())
}

fn put_row(out: &mut Vec<u8>, widths: &[usize], row: &Row) -> Ample
    ensures { OnOk result (out.new.items ≡ out.old.items ++ row_line widths.now row.now) }
{
    put_cells(out, widths, row)?;
    out.push(b'\n')?;
    Ok(())
}

/// How many cells the first row has.
fn columns(rows: &[Row]) -> usize
    ensures { result ≡ length (unwrap_or (slice_get rows.now 0) []) }
{
    rows.first().map_or(0, |head| head.items().len())
}

/// Appends a table, each row on a line.
#[tactic(auto, unfolding(crate::specs::Listing::table_text))]
pub(crate) fn put_table(alloc: Global, out: &mut Vec<u8>, rows: &[Row]) -> Ample
    ensures { OnOk result (out.new.items ≡ out.old.items ++ table_text rows.now) }
{
    let widths = widths(alloc, columns(rows), rows)?;
    for row in rows {
        put_row(out, widths.as_slice(), row)?;
    }
    Ok(())
}
