// The friction rows: what a finish's roughness or a part's own decides is worked out once for the row, what a Mach and a Reynolds number
// decide once for the column, and the parts' frictions are added by place.
ghost use Rattle.std.specs.Prelude.{◌≡◌, false, ◌≤◌, length, get_or, replicate};
ghost use Rattle.std.specs.Float.{nan};
ghost use Rattle.elementary.specs.Arithmetic.{◌⊕◌, ◌⊗◌};
ghost use Rattle.elementary.specs.Constants.{0·0};
ghost use Rattle.drag.specs.Friction.{wall_of, friction_on};
ghost use Rattle.sheet_data.specs.Layout.{most_parts, most_columns};
ghost use Rattle.sheet_data.specs.Contents.{contents_of, parts_of, part_at};
ghost use Rattle.sheet_data.specs.Tables.{tab};
ghost use Rattle.drag_sheet.specs.Formulas.{value_of, sum_to};
ghost use Rattle.drag_sheet.specs.Body.{friction_row_cells, SumAsked, any_own, flow_at, Flows, KeptFlows, formed, formed_for, four_more};

use crate::cells::each_cell;
use aero_error::AeroError;
use drag::{Flow, Wall};
use sheet_data::layout::COLUMNS;
use sheet_data::{Part, Settings, Sheet};

// Whether any part has a roughness of its own.
fn any_own(parts: &[Part]) -> bool
    ensures { result ≡ any_own parts.now }
{
    parts.iter().any(|part| part.roughness.is_some())
}

// The flow of each column.
fn flows_of(settings: Settings) -> [Result<Flow, AeroError>; COLUMNS]
    requires { settings.count ≤ most_columns }
    ensures { Flows settings result }
{
    let still = Ok(Flow::Subsonic {
        reynolds: 0.0,
        turbulent: 0.0,
        factor: 0.0,
    });
    let mut flows = [still; COLUMNS];
    // Tried over a zip: the proof didn't close. Of what is written through one nothing is known, and std has no lemma on a loop over one enumerated.
    for i in 0..settings.count {
        flows[i] = drag::flow_of(true, settings.reynolds[i], settings.machs[i]);
    }
    flows
}

// The flows where a column is asked more than once: by several finishes, or by a part's own roughness too.
pub(crate) fn kept_flows(sheet: &Sheet) -> Option<[Result<Flow, AeroError>; COLUMNS]>
    requires { (sheet.now.settings.count ≤ most_columns) × (sheet.now.design.count ≤ most_parts) }
    ensures { KeptFlows sheet.now result }
{
    if 1 < sheet.settings.finishes || any_own(&sheet.design.parts[..sheet.design.count]) {
        return Some(flows_of(sheet.settings));
    }
    None
}

// Friction times form factor on a wall where each column is asked once, in place of its Mach number.
fn fill_once(wall: Wall, form: f64, reynolds: &[f64], cells: &mut [f64])
    requires { length reynolds.now ≡ length cells.old }
    ensures { cells.new ≡ tab (length cells.old) (λ k. value_of (friction_on wall (get_or reynolds.now k nan) (get_or cells.old k nan)) ⊗ form) }
{
    each_cell(cells, reynolds, |mach, reynolds| {
        drag::friction_on(wall, reynolds, mach).unwrap_or(0.0) * form
    });
}

// Friction times form factor on a wall in a flow.
fn formed(wall: Wall, form: f64, flow: Result<Flow, AeroError>) -> f64
    ensures { result ≡ formed wall form flow }
{
    drag::friction_in(wall, flow).unwrap_or(0.0) * form
}

// The same in the flow of each column.
fn fill_on(wall: Wall, form: f64, flows: &[Result<Flow, AeroError>], out: &mut [f64])
    requires { length flows.now ≡ length out.old }
    ensures { out.new ≡ tab (length out.old) (λ k. formed wall form (flow_at flows.now k)) }
{
    each_cell(out, flows, |_, flow| formed(wall, form, flow));
}

// Adds a part's friction, column by column: `formed` is friction times form factor.
fn add_part(formed: &[f64], wetted_ratio: f64, sum: &mut [f64])
    requires { length formed.now ≡ length sum.old }
    ensures { sum.new ≡ tab (length sum.old) (λ k. get_or sum.old k nan ⊕ get_or formed.now k nan ⊗ wetted_ratio) }
{
    each_cell(sum, formed, |sum, x| sum + x * wetted_ratio);
}

// The same of four parts, one after the other, so that the sum is read and written once for all four.
fn add_four(formed: &[f64], a: f64, b: f64, c: f64, d: f64, sum: &mut [f64])
    requires { length formed.now ≡ length sum.old }
    ensures { sum.new ≡ tab (length sum.old) (λ k. four_more (get_or sum.old k nan) (get_or formed.now k nan) a b c d) }
{
    each_cell(sum, formed, |sum, x| sum + x * a + x * b + x * c + x * d);
}

// Adds the friction of a part with a roughness of its own.
fn add_own(
    roughness: f64,
    form: f64,
    flows: &[Result<Flow, AeroError>],
    wetted_ratio: f64,
    sum: &mut [f64],
)
    requires { length flows.now ≡ length sum.old }
    ensures { sum.new ≡ tab (length sum.old) (λ k. get_or sum.old k nan ⊕ formed (wall_of roughness) form (flow_at flows.now k) ⊗ wetted_ratio) }
{
    let wall = drag::wall_of(roughness);
    each_cell(sum, flows, |sum, flow| {
        sum + formed(wall, form, flow) * wetted_ratio
    });
}

// Adds the parts' frictions by place to `sum`, which holds +0; `common` is friction times form factor at the settings' roughness in the finish.
fn add_by_place(
    parts: &[Part],
    common: &[f64],
    form: f64,
    flows: &[Result<Flow, AeroError>],
    sum: &mut [f64],
)
    requires { (length flows.now ≡ length common.now) × (sum.old ≡ replicate (length common.now) 0·0) }
    ensures { sum.new ≡ tab (length common.now) (λ k. sum_to (length parts.now) (λ i. formed_for (part_at parts.now i).roughness (get_or common.now k nan) form (flow_at flows.now k) ⊗ (part_at parts.now i).wetted_ratio)) }
{
    for part in parts {
        match part.roughness {
            None => add_part(common, part.wetted_ratio, sum),
            Some(k) => add_own(k, form, flows, part.wetted_ratio, sum),
        }
    }
}

// The same of parts none of which has a roughness of its own.
fn add_common(parts: &[Part], common: &[f64], sum: &mut [f64])
    requires { sum.old ≡ replicate (length common.now) 0·0 }
    ensures { sum.new ≡ tab (length common.now) (λ k. sum_to (length parts.now) (λ i. get_or common.now k nan ⊗ (part_at parts.now i).wetted_ratio)) }
{
    let (fours, rest) = parts.as_chunks::<4>();
    for four in fours {
        let [a, b, c, d] = four;
        add_four(
            common,
            a.wetted_ratio,
            b.wetted_ratio,
            c.wetted_ratio,
            d.wetted_ratio,
            sum,
        );
    }
    for part in rest {
        add_part(common, part.wetted_ratio, sum);
    }
}

// The friction row of a finish by the flow of each column, added up in `sum`, which holds +0.
fn sum_kept(sheet: &Sheet, finish: usize, flows: &[Result<Flow, AeroError>], sum: &mut [f64])
    requires { SumAsked sheet.now finish sum.old × Flows sheet.now.settings flows.now × (length flows.now ≡ sheet.now.settings.count) }
    ensures { sum.new ≡ friction_row_cells (contents_of sheet.now) finish }
{
    let settings = &sheet.settings;
    let count = settings.count;
    let form = drag::body_friction_form_factor(settings.body_fineness).unwrap_or(0.0);
    let mut common = [0.0; COLUMNS];
    fill_on(
        drag::wall_of(settings.roughnesses[finish]),
        form,
        flows,
        &mut common[..count],
    );
    let parts = &sheet.design.parts[..sheet.design.count];
    add_by_place(parts, &common[..count], form, flows, sum);
}

// The same where no part has a roughness of its own. For speed each column is asked once, and no flow is kept. The sheet by value, as in
// `base_area`: behind a reference the lengths of its arrays are not at hand.
fn sum_common(sheet: Sheet, finish: usize, sum: &mut [f64])
    requires { SumAsked sheet finish sum.old × (any_own (parts_of sheet.design) ≡ false) }
    ensures { sum.new ≡ friction_row_cells (contents_of sheet) finish }
{
    let settings = sheet.settings;
    let count = settings.count;
    let form = drag::body_friction_form_factor(settings.body_fineness).unwrap_or(0.0);
    let wall = drag::wall_of(settings.roughnesses[finish]);
    let mut common = settings.machs;
    fill_once(
        wall,
        form,
        &settings.reynolds[..count],
        &mut common[..count],
    );
    add_common(
        &sheet.design.parts[..sheet.design.count],
        &common[..count],
        sum,
    );
}

// The friction row of a finish, added up in `sum`, which holds +0.
pub(crate) fn sum_parts(
    sheet: &Sheet,
    finish: usize,
    flows: &Option<[Result<Flow, AeroError>; COLUMNS]>,
    sum: &mut [f64],
)
    requires { SumAsked sheet.now finish sum.old × KeptFlows sheet.now flows.now }
    ensures { sum.new ≡ friction_row_cells (contents_of sheet.now) finish }
{
    match flows {
        Some(flows) => sum_kept(sheet, finish, &flows[..sheet.settings.count], sum),
        None => sum_common(*sheet, finish, sum),
    }
}
