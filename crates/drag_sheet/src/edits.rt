// The sheet as each call leaves it. Each says of places and counts what its call has tested: the counts are C's (sheet_data), so no type says it.
ghost use Rattle.std.specs.Prelude.{◌≡◌, ◌+◌, ◌-◌, ◌≤◌, ◌<◌};
ghost use Rattle.sheet_data.specs.Layout.{most_parts, most_columns};
ghost use Rattle.drag_sheet.specs.Calls.{insert as insert_call, remove as remove_call, replace as replace_call, set_column as column_call, left_by};
ghost use Rattle.drag_sheet.specs.Edits.{one_column};

use sheet_data::layout::COLUMNS;
use sheet_data::{Part, Settings, Sheet};

// The part goes to a place, and the parts from there on move up one; the slots after them stay.
pub(crate) fn inserted(sheet: Sheet, place: usize, part: Part) -> Sheet
    requires { (place ≤ sheet.design.count) × (sheet.design.count < most_parts) }
    ensures left { result ≡ left_by (insert_call place part) sheet }
    ensures count { result.design.count ≡ sheet.design.count + 1 }
{
    let count = sheet.design.count;
    let mut left = sheet;
    left.design.parts[place] = part;
    left.design.parts[place + 1..count + 1].copy_from_slice(&sheet.design.parts[place..count]);
    left.design.count = count + 1;
    left
}

// The parts after a place move down one; the slot of the last and those after it stay.
pub(crate) fn removed(sheet: Sheet, place: usize) -> Sheet
    requires { (place < sheet.design.count) × (sheet.design.count ≤ most_parts) }
    ensures left { result ≡ left_by (remove_call place) sheet }
    ensures count { result.design.count ≡ sheet.design.count - 1 }
{
    let count = sheet.design.count;
    let mut left = sheet;
    left.design.parts[place..count - 1].copy_from_slice(&sheet.design.parts[place + 1..count]);
    left.design.count = count - 1;
    left
}

// The part at a place put anew.
pub(crate) fn replaced(sheet: Sheet, place: usize, part: Part) -> Sheet
    requires { (place < sheet.design.count) × (sheet.design.count ≤ most_parts) }
    ensures left { result ≡ left_by (replace_call place part) sheet }
    ensures count { result.design.count ≡ sheet.design.count }
{
    let mut left = sheet;
    left.design.parts[place] = part;
    left
}

// A column put anew, where it stands.
pub(crate) fn put_column(sheet: &mut Sheet, column: usize, mach: f64, reynolds: f64)
    requires { (column < most_columns) × (sheet.old.design.count ≤ most_parts) }
    ensures { sheet.new ≡ left_by (column_call column mach reynolds) sheet.old }
{
    sheet.settings.machs[column] = mach;
    sheet.settings.reynolds[column] = reynolds;
}

// The settings with one column alone.
pub(crate) fn one_column(settings: Settings, mach: f64, reynolds: f64) -> Settings
    ensures { result ≡ one_column settings mach reynolds }
{
    Settings {
        count: 1,
        machs: [mach; COLUMNS],
        reynolds: [reynolds; COLUMNS],
        ..settings
    }
}
