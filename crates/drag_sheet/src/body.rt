// What the rows of the whole body are made from, and the base row.
ghost use Rattle.std.specs.Prelude.{◌≡◌, ◌≤◌, length, get_or};
ghost use Rattle.std.specs.Float.{nan};
ghost use Rattle.sheet_data.specs.Layout.{most_parts};
ghost use Rattle.sheet_data.specs.Contents.{contents_of, fore_at};
ghost use Rattle.sheet_data.specs.Tables.{tab};
ghost use Rattle.drag_sheet.specs.Formulas.{base_ratio, base_area};
ghost use Rattle.drag_sheet.specs.Body.{base_over};

use crate::cells::each_cell;
use crate::part::area_ratio;
use sheet_data::{Design, Sheet};

// The aft diameter of the part before a place; 0 for place 0.
pub(crate) fn fore_diameter(design: Design, place: usize) -> f64
    requires { place ≤ most_parts }
    ensures { result ≡ fore_at design.parts place }
{
    if place == 0 {
        return 0.0;
    }
    design.parts[place - 1].aft_diameter
}

// The share of the reference area that a base of the diameter d has around a nozzle of the diameter n.
#[tactic(auto, unfolding(crate::specs::Formulas::base_ratio))]
fn base_ratio(d: f64, n: f64, reference_diameter: f64) -> f64
    ensures { result ≡ base_ratio d n reference_diameter }
{
    if d < n {
        0.0
    } else {
        area_ratio(d, n, reference_diameter)
    }
}

// The base's share of the reference area. That the parts are few stands in the contract, as in edits.rt: the count is C's.
pub(crate) fn base_area(sheet: Sheet) -> f64
    requires { sheet.design.count ≤ most_parts }
    ensures { result ≡ base_area (contents_of sheet) }
{
    let last = fore_diameter(sheet.design, sheet.design.count);
    base_ratio(
        last,
        sheet.nozzle_diameter,
        sheet.settings.reference_diameter,
    )
}

// Fills `out` with the base row.
pub(crate) fn fill_base(area: f64, machs: &[f64], out: &mut [f64])
    requires { length machs.now ≡ length out.old }
    ensures { out.new ≡ tab (length out.old) (λ k. base_over area (get_or machs.now k nan)) }
{
    each_cell(out, machs, |_, mach| {
        drag::base_drag_coefficient(mach).unwrap_or(0.0) * area
    });
}
