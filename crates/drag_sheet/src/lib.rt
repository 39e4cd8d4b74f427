// The drag sheet (docs/REFERENCE.md, Sheet, Rows and Calls): open, replace, insert, remove, set column, ignite and burnout. The sheet, its cells and
// their marks are lent. A call first tests and builds all that it needs in memory of its own, and only then writes what is lent, so a refused call
// leaves all three as they were.
#![tactic(auto)]

ghost use Rattle.std.specs.Prelude.{◌≡◌, ◌+◌, ◌<◌, length};
ghost use Rattle.sheet_data.specs.Contents.{blank, contents_of, Fits};
ghost use Rattle.drag_sheet.specs.Planes.{cell_plane, mark_plane, lent, cells_lent};
ghost use Rattle.drag_sheet.specs.Build.{row_test, row_of};
ghost use Rattle.drag_sheet.specs.Writing.{Filled};
ghost use Rattle.drag_sheet.specs.Calls.{insert as insert_call, remove as remove_call, replace as replace_call, set_column, ignite as ignite_call, burnout as burnout_call, call_test, Called, Opened};
ghost use Rattle.drag_sheet.specs.Edits.{RowAsked, NextWritten, Changed, NozzlePut};

mod body;
mod cells;
mod edits;
mod friction;
mod marks;
mod part;
mod rows;

use aero_error::{AeroError, Rule, unless};
use marks::{mark_body, mark_nozzle_rows};
use rows::{layout_of, offset, write_row};
use sheet_data::checks::{check_nozzle, check_part, check_settings, check_sheet};
use sheet_data::layout::{COLUMNS, PARTS, ROWS};
use sheet_data::{Part, Settings, Sheet};

// How many cells are lent with a mark each.
fn marked(cells: &[f64], marks: &[u8]) -> usize
    ensures { result ≡ cells_lent (lent cells.now marks.now) }
{
    cells.len().min(marks.len())
}

// The rows of a sheet with these settings and no parts, once the settings have passed.
fn write_blank(settings: Settings, cells: &mut [f64], marks: &mut [u8]) -> Result<(), AeroError>
    ensures { Opened settings (lent cells.old marks.old) (record { outcome = result; sheet = blank settings }) (lent cells.new marks.new) }
{
    check_settings(settings, marked(cells, marks))?;
    rows::write_all(Sheet::blank(settings), cells, marks)
}

// Opens a sheet with these settings and no parts, and writes all its rows. Refused, it is that sheet too, and cells and marks stay: what is promised of the sheet
// holds either way, so it is a pair and no `Result`.
pub fn open(
    settings: Settings,
    cells: &mut [f64],
    marks: &mut [u8],
) -> (Sheet, Result<(), AeroError>)
    ensures { Opened settings (lent cells.old marks.old) (record { outcome = result.1; sheet = result.0 }) (lent cells.new marks.new) }
{
    let outcome = write_blank(settings, cells, marks);
    (Sheet::blank(settings), outcome)
}

fn check_insert(sheet: Sheet, place: usize, part: Part, cells: usize) -> Result<(), AeroError>
    ensures { result ≡ call_test (insert_call place part) sheet cells }
{
    let count = sheet.design.count;
    check_sheet(sheet, cells)?;
    unless(count < place, Rule::NoSuchPlace)?;
    unless(PARTS <= count, Rule::DesignFull)?;
    check_part(part)
}

// Inserts a part at a place; the parts from there on move up one. All rows are written.
pub fn insert(
    sheet: &mut Sheet,
    place: usize,
    part: Part,
    cells: &mut [f64],
    marks: &mut [u8],
) -> Result<(), AeroError>
    ensures { Called (insert_call place part) sheet.old (lent cells.old marks.old) (record { outcome = result; sheet = sheet.new }) (lent cells.new marks.new) }
{
    check_insert(*sheet, place, part, marked(cells, marks))?;
    let left = edits::inserted(*sheet, place, part);
    rows::write_all(left, cells, marks)?;
    *sheet = left;
    Ok(())
}

fn check_remove(sheet: Sheet, place: usize, cells: usize) -> Result<(), AeroError>
    ensures { result ≡ call_test (remove_call place) sheet cells }
{
    check_sheet(sheet, cells)?;
    unless(sheet.design.count <= place, Rule::NoSuchPlace)
}

// Removes the part at a place; the parts after it move down one. All rows are written. As `insert` but for its test and its edit: a function over both
// would be no shorter.
pub fn remove(
    sheet: &mut Sheet,
    place: usize,
    cells: &mut [f64],
    marks: &mut [u8],
) -> Result<(), AeroError>
    ensures { Called (remove_call place) sheet.old (lent cells.old marks.old) (record { outcome = result; sheet = sheet.new }) (lent cells.new marks.new) }
{
    check_remove(*sheet, place, marked(cells, marks))?;
    let left = edits::removed(*sheet, place);
    rows::write_all(left, cells, marks)?;
    *sheet = left;
    Ok(())
}

fn check_set_column(
    sheet: Sheet,
    column: usize,
    mach: f64,
    reynolds: f64,
    cells: usize,
) -> Result<(), AeroError>
    ensures { result ≡ call_test (set_column column mach reynolds) sheet cells }
{
    check_sheet(sheet, cells)?;
    unless(sheet.settings.count <= column, Rule::NoSuchPlace)?;
    drag::check_flow(mach, reynolds)
}

// Puts a Mach and a Reynolds number at a column, and writes that column.
pub fn set_column(
    sheet: &mut Sheet,
    column: usize,
    mach: f64,
    reynolds: f64,
    cells: &mut [f64],
    marks: &mut [u8],
) -> Result<(), AeroError>
    ensures { Called (set_column column mach reynolds) sheet.old (lent cells.old marks.old) (record { outcome = result; sheet = sheet.new }) (lent cells.new marks.new) }
{
    check_set_column(*sheet, column, mach, reynolds, marked(cells, marks))?;
    let mut values = [0.0; ROWS];
    let mut value_marks = [0u8; ROWS];
    let layout = layout_of(sheet.settings);
    let all = layout.rows();
    rows::build_column(
        *sheet,
        column,
        mach,
        reynolds,
        &mut values[..all],
        &mut value_marks[..all],
    )?;
    rows::write_column(column, layout, &values[..all], cells);
    rows::write_column(column, layout, &value_marks[..all], marks);
    edits::put_column(sheet, column, mach, reynolds);
    Ok(())
}

fn check_replace(sheet: Sheet, place: usize, part: Part, cells: usize) -> Result<(), AeroError>
    ensures { result ≡ call_test (replace_call place part) sheet cells }
{
    check_sheet(sheet, cells)?;
    unless(sheet.design.count <= place, Rule::NoSuchPlace)?;
    check_part(part)
}

// The row at a place of a design, with its marks.
fn row_at(sheet: Sheet, place: usize, out: &mut [f64], marks: &mut [u8]) -> Result<(), AeroError>
    requires { RowAsked sheet place (length out.old) × RowAsked sheet place (length marks.old) }
    ensures cells { Filled (row_test (contents_of sheet) place) (row_of cell_plane (contents_of sheet) place) result out.new }
    ensures marks { Filled (row_test (contents_of sheet) place) (row_of mark_plane (contents_of sheet) place) result marks.new }
{
    let fore = body::fore_diameter(sheet.design, place);
    part::part_row(&sheet.settings, fore, sheet.design.parts[place], out, marks)
}

// Writes a part's own row, which is built, and the next part's, and the friction, base and total rows; or nothing, where the next
// part's row cannot be built. Here and below the call has tested the place; the count is C's, so no type says it.
fn write_two(
    sheet: Sheet,
    place: usize,
    own: &[f64],
    own_marks: &[u8],
    cells: &mut [f64],
    marks: &mut [u8],
) -> Result<(), AeroError>
    requires { Fits sheet (length cells.old) × Fits sheet (length marks.old) × (place + 1 < sheet.design.count) × (length own.now ≡ sheet.settings.count) × (length own_marks.now ≡ sheet.settings.count) }
    ensures cells { NextWritten cell_plane sheet place own.now cells.old result cells.new }
    ensures marks { NextWritten mark_plane sheet place own_marks.now marks.old result marks.new }
{
    let count = sheet.settings.count;
    let after = place + 1;
    let mut next = [0.0; COLUMNS];
    let mut next_marks = [0u8; COLUMNS];
    row_at(sheet, after, &mut next[..count], &mut next_marks[..count])?;
    let layout = layout_of(sheet.settings);
    let at = offset(layout, place);
    let next_at = offset(layout, after);
    write_row(at, own, cells);
    write_row(next_at, &next[..count], cells);
    rows::write_body(&sheet, cells);
    write_row(at, own_marks, marks);
    write_row(next_at, &next_marks[..count], marks);
    mark_body(&sheet, marks);
    Ok(())
}

// Writes the rows that change with the part at a place; or nothing, where its own row or the next part's cannot be built.
fn write_changed(
    sheet: Sheet,
    place: usize,
    cells: &mut [f64],
    marks: &mut [u8],
) -> Result<(), AeroError>
    requires { Fits sheet (length cells.old) × Fits sheet (length marks.old) × (place < sheet.design.count) }
    ensures cells { Changed cell_plane sheet place cells.old result cells.new }
    ensures marks { Changed mark_plane sheet place marks.old result marks.new }
{
    let count = sheet.settings.count;
    let mut own = [0.0; COLUMNS];
    let mut own_marks = [0u8; COLUMNS];
    row_at(sheet, place, &mut own[..count], &mut own_marks[..count])?;
    if place + 1 < sheet.design.count {
        return write_two(
            sheet,
            place,
            &own[..count],
            &own_marks[..count],
            cells,
            marks,
        );
    }
    let at = offset(layout_of(sheet.settings), place);
    write_row(at, &own[..count], cells);
    rows::write_body(&sheet, cells);
    write_row(at, &own_marks[..count], marks);
    mark_body(&sheet, marks);
    Ok(())
}

// Replaces the part at a place, and writes its row, the next part's, and the friction, base and
// total rows.
pub fn replace(
    sheet: &mut Sheet,
    place: usize,
    part: Part,
    cells: &mut [f64],
    marks: &mut [u8],
) -> Result<(), AeroError>
    ensures { Called (replace_call place part) sheet.old (lent cells.old marks.old) (record { outcome = result; sheet = sheet.new }) (lent cells.new marks.new) }
{
    check_replace(*sheet, place, part, marked(cells, marks))?;
    let left = edits::replaced(*sheet, place, part);
    write_changed(left, place, cells, marks)?;
    *sheet = left;
    Ok(())
}

// The sheet with another nozzle diameter; its base and total rows are written.
fn put_nozzle(sheet: Sheet, nozzle_diameter: f64, cells: &mut [f64], marks: &mut [u8]) -> Sheet
    requires { Fits sheet (length cells.old) × Fits sheet (length marks.old) }
    ensures { NozzlePut nozzle_diameter sheet (lent cells.old marks.old) result (lent cells.new marks.new) }
{
    let mut left = sheet;
    left.nozzle_diameter = nozzle_diameter;
    rows::write_nozzle_rows(&left, cells);
    mark_nozzle_rows(&left, marks);
    left
}

fn check_ignite(sheet: Sheet, nozzle_diameter: f64, cells: usize) -> Result<(), AeroError>
    ensures { result ≡ call_test (ignite_call nozzle_diameter) sheet cells }
{
    check_sheet(sheet, cells)?;
    check_nozzle(nozzle_diameter)
}

// Gives the nozzle's diameter, which fills part of the base, and writes the base and total rows.
pub fn ignite(
    sheet: &mut Sheet,
    nozzle_diameter: f64,
    cells: &mut [f64],
    marks: &mut [u8],
) -> Result<(), AeroError>
    ensures { Called (ignite_call nozzle_diameter) sheet.old (lent cells.old marks.old) (record { outcome = result; sheet = sheet.new }) (lent cells.new marks.new) }
{
    check_ignite(*sheet, nozzle_diameter, marked(cells, marks))?;
    *sheet = put_nozzle(*sheet, nozzle_diameter, cells, marks);
    Ok(())
}

// Puts the nozzle's diameter back to 0, and writes the base and total rows.
pub fn burnout(sheet: &mut Sheet, cells: &mut [f64], marks: &mut [u8]) -> Result<(), AeroError>
    ensures { Called burnout_call sheet.old (lent cells.old marks.old) (record { outcome = result; sheet = sheet.new }) (lent cells.new marks.new) }
{
    check_sheet(*sheet, marked(cells, marks))?;
    *sheet = put_nozzle(*sheet, 0.0, cells, marks);
    Ok(())
}
