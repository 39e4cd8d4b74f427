// The marks of the rows that have none of their own: friction and base rows are written unmarked, and a total is marked where a part row that is there is.
ghost use Rattle.std.specs.Prelude.{◌≡◌, ◌+◌, ◌≤◌, length, get_or, replicate};
ghost use Rattle.sheet_data.specs.Layout.{all_rows, needed};
ghost use Rattle.sheet_data.specs.Contents.{contents_of, Fits};
ghost use Rattle.sheet_data.specs.Tables.{tab};
ghost use Rattle.sheet_data.specs.Rows.{from, rows_written};
ghost use Rattle.drag_sheet.specs.Planes.{mark_plane};
ghost use Rattle.drag_sheet.specs.Build.{row_of};
ghost use Rattle.drag_sheet.specs.Writing.{marks_there, totalled};
ghost use Rattle.drag_sheet.specs.Body.{any_more};
ghost use Rattle.drag_sheet.specs.Calls.{nozzle_rows, body_rows};

use crate::cells::each_cell;
use crate::rows::{layout_of, offset, write_row};
use sheet_data::Sheet;
use sheet_data::layout::{COLUMNS, FRICTION_ROW, Layout, PARTS};
use sheet_data::rows::Rows;

// Marks the columns at which a row is marked, by whatever byte that isn't 0.
fn take_row(any: &mut [u8], row: &[u8])
    requires { length row.now ≡ length any.old }
    ensures { any.new ≡ tab (length any.old) (λ k. any_more (get_or any.old k 0) (get_or row.now k 0)) }
{
    each_cell(any, row, |any, mark| if mark == 0 { any } else { 1 });
}

// Marks the columns at which any part row is marked in `any`, which holds 0.
fn take_parts(rows: Rows<u8>, any: &mut [u8])
    requires { any.old ≡ replicate rows.layout.columns 0 }
    ensures { any.new ≡ marks_there rows.entry.layout.columns rows.entry.cells.now }
{
    for place in 0usize..PARTS {
        take_row(any, rows.row(place));
    }
}

// Writes the same marks into so many rows from a row on.
fn write_alike(layout: Layout, first: usize, count: usize, row: &[u8], marks: &mut [u8])
    requires { (first + count ≤ all_rows layout.finishes) × (needed layout.finishes layout.columns ≤ length marks.old) × (length row.now ≡ layout.columns) }
    ensures { marks.new ≡ rows_written layout.columns (λ r. row.now) (from first count) marks.old }
{
    for number in 0usize..count {
        write_row(offset(layout, first + number), row, marks);
    }
}

// Writes the totals' marks: of the marks that are there.
#[tactic(auto, using(crate::proofs::Taken::zero_row))]
fn mark_totals(layout: Layout, marks: &mut [u8])
    requires { needed layout.finishes layout.columns ≤ length marks.old }
    ensures { marks.new ≡ totalled mark_plane layout.finishes layout.columns marks.old }
{
    let mut any = [0u8; COLUMNS];
    let rows = Rows {
        layout,
        cells: &*marks,
    };
    take_parts(rows, &mut any[..layout.columns]);
    write_alike(
        layout,
        layout.total_row(),
        layout.finishes,
        &any[..layout.columns],
        marks,
    );
}

// Writes so many rows from a row on without a mark, and then the totals.
fn clear(layout: Layout, first: usize, count: usize, marks: &mut [u8])
    requires { (first + count ≤ all_rows layout.finishes) × (needed layout.finishes layout.columns ≤ length marks.old) }
    ensures { marks.new ≡ totalled mark_plane layout.finishes layout.columns (rows_written layout.columns (λ r. replicate layout.columns 0) (from first count) marks.old) }
{
    let none = [0u8; COLUMNS];
    write_alike(layout, first, count, &none[..layout.columns], marks);
    mark_totals(layout, marks);
}

// Writes the marks of the base and total rows anew.
pub(crate) fn mark_nozzle_rows(sheet: &Sheet, marks: &mut [u8])
    requires { Fits sheet.now (length marks.old) }
    ensures { marks.new ≡ totalled mark_plane sheet.now.settings.finishes sheet.now.settings.count (rows_written sheet.now.settings.count (row_of mark_plane (contents_of sheet.now)) (nozzle_rows sheet.now.settings.finishes) marks.old) }
{
    let layout = layout_of(sheet.settings);
    clear(layout, layout.base_row(), 1, marks);
}

// Writes the marks of the friction, base and total rows anew. The base row stands after the friction rows.
pub(crate) fn mark_body(sheet: &Sheet, marks: &mut [u8])
    requires { Fits sheet.now (length marks.old) }
    ensures { marks.new ≡ totalled mark_plane sheet.now.settings.finishes sheet.now.settings.count (rows_written sheet.now.settings.count (row_of mark_plane (contents_of sheet.now)) (body_rows sheet.now.settings.finishes) marks.old) }
{
    let layout = layout_of(sheet.settings);
    clear(layout, FRICTION_ROW, layout.finishes + 1, marks);
}
