// The rows of a sheet over lent cells and marks: where one begins, one written, the last rows written anew, all of them built from nothing, and a column.
// The functions that write keep the sheet, or its layout, and the lent cells as parameters of their own, with `Fits` in each contract: a
// struct of both would say it once, and each of its methods would have to ensure in exchange that the lent cells stay the same ones (`ghost_name`).
// A finish is a plain number below the layout's `finishes`, as a row is below `rows()`.
ghost use Rattle.std.specs.Prelude.{◌≡◌, ◌+◌, ◌*◌, ◌≤◌, ◌<◌, length, get_or, take, replicate};
ghost use Rattle.std.specs.Float.{nan};
ghost use Rattle.elementary.specs.Arithmetic.{◌⊕◌};
ghost use Rattle.elementary.specs.Constants.{0·0};
ghost use Rattle.sheet_data.specs.Layout.{most_columns, most_finishes, friction_row, base_row, total_row, all_rows, needed, RowPlace};
ghost use Rattle.sheet_data.specs.Contents.{contents_of, Fits};
ghost use Rattle.sheet_data.specs.Tables.{tab};
ghost use Rattle.sheet_data.specs.Rows.{from, written, rows_written};
ghost use Rattle.drag_sheet.specs.Body.{KeptFlows};
ghost use Rattle.drag_sheet.specs.Planes.{cell_plane, mark_plane};
ghost use Rattle.drag_sheet.specs.Build.{row_of, trial, build};
ghost use Rattle.drag_sheet.specs.Writing.{parts_there, total_there, totalled, column_put, Filled, AllWritten};
ghost use Rattle.drag_sheet.specs.Calls.{nozzle_rows, body_rows, set_column as column_call, after, column_trial};
ghost use Rattle.drag_sheet.specs.Edits.{ColumnAsked, cell_of_column};

use crate::cells::each_cell;
use crate::marks::mark_body;
use crate::{body, edits, friction, part};
use aero_error::AeroError;
use drag::Flow;
use sheet_data::layout::{CELLS, COLUMNS, FRICTION_ROW, Layout, PARTS};
use sheet_data::rows::Rows;
use sheet_data::{Settings, Sheet};

// Where the cells of a sheet with these settings lie. That finishes and columns are few stands in the contract: the counts are C's.
pub(crate) fn layout_of(settings: Settings) -> Layout
    requires { (settings.finishes ≤ most_finishes) × (settings.count ≤ most_columns) }
    ensures { (result.finishes ≡ settings.finishes) × (result.columns ≡ settings.count) }
{
    Layout {
        finishes: settings.finishes,
        columns: settings.count,
    }
}

// Where a row begins.
pub(crate) fn offset(layout: Layout, row: usize) -> usize
    requires { row < all_rows layout.finishes }
    ensures { RowPlace layout.finishes layout.columns row result }
{
    row * layout.columns
}

// Writes cells, or marks, from `at` on.
pub(crate) fn write_row<T: Copy>(at: usize, row: &[T], cells: &mut [T])
    requires { at + length row.now ≤ length cells.old }
    ensures { cells.new ≡ written at row.now cells.old }
{
    cells[at..at + row.len()].copy_from_slice(row);
}

// Adds a row to a sum, column by column.
fn add_row(sum: &mut [f64], row: &[f64])
    requires { length row.now ≡ length sum.old }
    ensures { sum.new ≡ tab (length sum.old) (λ k. get_or sum.old k nan ⊕ get_or row.now k nan) }
{
    each_cell(sum, row, |sum, x| sum + x);
}

// Adds up the part rows, column by column, into `sum`, which holds +0.
fn add_parts(rows: Rows<f64>, sum: &mut [f64])
    requires { sum.old ≡ replicate rows.layout.columns 0·0 }
    ensures { sum.new ≡ parts_there rows.entry.layout.columns rows.entry.cells.now }
{
    for place in 0usize..PARTS {
        add_row(sum, rows.row(place));
    }
}

// The total row of a finish: its friction row and the base row as they stand, added to `sum`, which holds the part rows added up.
fn sum_rows(finish: usize, rows: Rows<f64>, sum: &mut [f64])
    requires { (finish < rows.layout.finishes) × (sum.old ≡ parts_there rows.layout.columns rows.cells.now) }
    ensures { sum.new ≡ total_there cell_plane rows.entry.layout.finishes rows.entry.layout.columns rows.entry.cells.now finish }
{
    add_row(sum, rows.row(FRICTION_ROW + finish));
    add_row(sum, rows.row(rows.layout.base_row()));
}

// Writes the total row of a finish; `parts` begins with the part rows added up.
fn write_total(finish: usize, layout: Layout, parts: &[f64; COLUMNS], cells: &mut [f64])
    requires { (finish < layout.finishes) × (needed layout.finishes layout.columns ≤ length cells.old) × (take layout.columns parts.now ≡ parts_there layout.columns cells.old) }
    ensures { cells.new ≡ written (total_row layout.finishes finish * layout.columns) (total_there cell_plane layout.finishes layout.columns cells.old finish) cells.old }
{
    let mut sum = *parts;
    let count = layout.columns;
    let rows = Rows {
        layout,
        cells: &*cells,
    };
    sum_rows(finish, rows, &mut sum[..count]);
    let at = offset(layout, layout.total_row() + finish);
    write_row(at, &sum[..count], cells);
}

// Writes the total rows. They add the cells that are there; the part rows, which all of them begin with, are added up once.
#[tactic(auto, using(crate::proofs::Taken::zero_row))]
fn write_totals(layout: Layout, cells: &mut [f64])
    requires { needed layout.finishes layout.columns ≤ length cells.old }
    ensures { cells.new ≡ totalled cell_plane layout.finishes layout.columns cells.old }
{
    let mut parts = [0.0; COLUMNS];
    let rows = Rows {
        layout,
        cells: &*cells,
    };
    add_parts(rows, &mut parts[..layout.columns]);
    for finish in 0usize..layout.finishes {
        write_total(finish, layout, &parts, cells);
    }
}

// Writes the friction row of a finish; `flows` are what `kept_flows` kept.
#[tactic(auto, using(crate::proofs::Taken::zero_row))]
fn write_friction(
    sheet: &Sheet,
    finish: usize,
    flows: &Option<[Result<Flow, AeroError>; COLUMNS]>,
    cells: &mut [f64],
)
    requires { Fits sheet.now (length cells.old) × (finish < sheet.now.settings.finishes) × KeptFlows sheet.now flows.now }
    ensures { cells.new ≡ written (friction_row finish * sheet.now.settings.count) (row_of cell_plane (contents_of sheet.now) (friction_row finish)) cells.old }
{
    let mut row = [0.0; COLUMNS];
    let count = sheet.settings.count;
    let at = offset(layout_of(sheet.settings), FRICTION_ROW + finish);
    friction::sum_parts(sheet, finish, flows, &mut row[..count]);
    write_row(at, &row[..count], cells);
}

// Writes the friction rows.
fn write_frictions(sheet: &Sheet, cells: &mut [f64])
    requires { Fits sheet.now (length cells.old) }
    ensures { cells.new ≡ rows_written sheet.now.settings.count (row_of cell_plane (contents_of sheet.now)) (from (friction_row 0) sheet.now.settings.finishes) cells.old }
{
    let flows = friction::kept_flows(sheet);
    for finish in 0usize..sheet.settings.finishes {
        write_friction(sheet, finish, &flows, cells);
    }
}

// Writes the base row.
fn write_base(sheet: &Sheet, cells: &mut [f64])
    requires { Fits sheet.now (length cells.old) }
    ensures { cells.new ≡ written (base_row sheet.now.settings.finishes * sheet.now.settings.count) (row_of cell_plane (contents_of sheet.now) (base_row sheet.now.settings.finishes)) cells.old }
{
    let settings = &sheet.settings;
    let count = settings.count;
    let area = body::base_area(*sheet);
    let layout = layout_of(*settings);
    let at = offset(layout, layout.base_row());
    let end = at + count;
    body::fill_base(area, &settings.machs[..count], &mut cells[at..end]);
}

// Writes the base and total rows anew.
pub(crate) fn write_nozzle_rows(sheet: &Sheet, cells: &mut [f64])
    requires { Fits sheet.now (length cells.old) }
    ensures { cells.new ≡ totalled cell_plane sheet.now.settings.finishes sheet.now.settings.count (rows_written sheet.now.settings.count (row_of cell_plane (contents_of sheet.now)) (nozzle_rows sheet.now.settings.finishes) cells.old) }
{
    write_base(sheet, cells);
    write_totals(layout_of(sheet.settings), cells);
}

// Writes the friction, base and total rows anew.
pub(crate) fn write_body(sheet: &Sheet, cells: &mut [f64])
    requires { Fits sheet.now (length cells.old) }
    ensures { cells.new ≡ totalled cell_plane sheet.now.settings.finishes sheet.now.settings.count (rows_written sheet.now.settings.count (row_of cell_plane (contents_of sheet.now)) (body_rows sheet.now.settings.finishes) cells.old) }
{
    write_frictions(sheet, cells);
    write_nozzle_rows(sheet, cells);
}

// The rows of a design's parts, with their marks; the other cells stay. It stops at the lowest place that cannot be built.
fn part_rows(sheet: Sheet, cells: &mut [f64], marks: &mut [u8]) -> Result<(), AeroError>
    requires { Fits sheet (length cells.old) × Fits sheet (length marks.old) }
    ensures cells { Filled (trial (contents_of sheet)) (rows_written sheet.settings.count (row_of cell_plane (contents_of sheet)) (from 0 sheet.design.count) cells.old) result cells.new }
    ensures marks { Filled (trial (contents_of sheet)) (rows_written sheet.settings.count (row_of mark_plane (contents_of sheet)) (from 0 sheet.design.count) marks.old) result marks.new }
{
    let settings = sheet.settings;
    let design = sheet.design;
    let count = settings.count;
    let layout = layout_of(settings);
    let mut fore = 0.0;
    // The rows by place: a sheet may have no columns, so they are no chunks.
    for (place, part) in design.parts[..design.count].iter().enumerate() {
        let at = offset(layout, place);
        let end = at + count;
        part::part_row(
            &settings,
            fore,
            *part,
            &mut cells[at..end],
            &mut marks[at..end],
        )?;
        fore = part.aft_diameter;
    }
    Ok(())
}

// All rows of a sheet, built from nothing into cells that hold +0 and marks that hold 0.
pub(crate) fn build_rows(sheet: Sheet, cells: &mut [f64], marks: &mut [u8]) -> Result<(), AeroError>
    requires { Fits sheet (length cells.old) × (cells.old ≡ replicate (needed sheet.settings.finishes sheet.settings.count) 0·0) × (marks.old ≡ replicate (needed sheet.settings.finishes sheet.settings.count) 0) }
    ensures cells { Filled (trial (contents_of sheet)) (build cell_plane (contents_of sheet)) result cells.new }
    ensures marks { Filled (trial (contents_of sheet)) (build mark_plane (contents_of sheet)) result marks.new }
{
    part_rows(sheet, cells, marks)?;
    write_body(&sheet, cells);
    mark_body(&sheet, marks);
    Ok(())
}

// One column, as a sheet that has that column alone.
pub(crate) fn build_column(
    sheet: Sheet,
    column: usize,
    mach: f64,
    reynolds: f64,
    cells: &mut [f64],
    marks: &mut [u8],
) -> Result<(), AeroError>
    requires { ColumnAsked sheet column 0·0 cells.old × ColumnAsked sheet column 0 marks.old }
    ensures cells { Filled (column_trial column (after (column_call column mach reynolds) sheet)) (tab (all_rows sheet.settings.finishes) (cell_of_column cell_plane (after (column_call column mach reynolds) sheet) column)) result cells.new }
    ensures marks { Filled (column_trial column (after (column_call column mach reynolds) sheet)) (tab (all_rows sheet.settings.finishes) (cell_of_column mark_plane (after (column_call column mach reynolds) sheet) column)) result marks.new }
{
    let mut one = sheet;
    one.settings = edits::one_column(sheet.settings, mach, reynolds);
    build_rows(one, cells, marks)
}

// Builds a sheet from nothing and writes all its rows, or leaves cells and marks as they are.
pub(crate) fn write_all(sheet: Sheet, cells: &mut [f64], marks: &mut [u8]) -> Result<(), AeroError>
    requires { Fits sheet (length cells.old) × Fits sheet (length marks.old) }
    ensures cells { AllWritten cell_plane (contents_of sheet) cells.old result cells.new }
    ensures marks { AllWritten mark_plane (contents_of sheet) marks.old result marks.new }
{
    let mut scratch = [0.0; CELLS];
    let mut scratch_marks = [0u8; CELLS];
    let all = layout_of(sheet.settings).cells();
    build_rows(sheet, &mut scratch[..all], &mut scratch_marks[..all])?;
    write_row(0, &scratch[..all], cells);
    write_row(0, &scratch_marks[..all], marks);
    Ok(())
}

// Writes a cell, or a mark, for each row into a column.
pub(crate) fn write_column<T: Copy>(column: usize, layout: Layout, values: &[T], cells: &mut [T])
    requires { (column < layout.columns) × (needed layout.finishes layout.columns ≤ length cells.old) × (length values.now ≡ all_rows layout.finishes) }
    ensures { (d : T) → cells.new ≡ column_put d column layout.finishes layout.columns values.now cells.old }
{
    // By place: of what is written through a zip nothing is known.
    for (row, value) in values.iter().enumerate() {
        let at = offset(layout, row);
        cells[at + column] = *value;
    }
}
