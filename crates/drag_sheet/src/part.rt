// A part's row: what it is made from, its cells with their marks, and the row filled or refused.
ghost use Rattle.std.specs.Prelude.{◌≡◌, ◌≤◌, length, get_or};
ghost use Rattle.std.specs.Float.{nan};
ghost use Rattle.aero_error.specs.Checks.{up_to};
ghost use Rattle.sheet_data.specs.Tables.{tab};
ghost use Rattle.drag_sheet.specs.Formulas.{prepared_of, cell_of, mark_of, marked_cell, value_of, made_test, area_ratio, boattail_drag};
ghost use Rattle.drag_sheet.specs.Planes.{cell_plane, mark_plane};
ghost use Rattle.drag_sheet.specs.Build.{row_test_from, row_from};
ghost use Rattle.drag_sheet.specs.Writing.{Filled};

use aero_error::AeroError;
use nose_drag::PressureDragCurve;
use sheet_data::{Part, Settings};

// A part that widens has a curve, one that narrows takes its share of the base drag, and one as wide
// as the part before it has none.
#[derive(Clone, Copy)]
pub enum Row {
    Widening {
        curve: PressureDragCurve,
        area: f64,
    },
    Narrowing {
        length: f64,
        fore: f64,
        aft: f64,
        area: f64,
    },
    Level,
}

// A part's cell at a Mach number, and its mark: 1 where it rests on a table beyond its last point, else 0.
#[derive(Clone, Copy)]
pub(crate) struct MarkedCell {
    pub(crate) value: f64,
    pub(crate) mark: u8,
}

impl MarkedCell {
    fn unmarked(value: f64) -> MarkedCell
        ensures { result ≡ record { value = value; mark = 0 } }
    {
        MarkedCell { value, mark: 0 }
    }
}

// (a×a - b×b)/(D×D)
pub(crate) fn area_ratio(a: f64, b: f64, reference_diameter: f64) -> f64
    ensures { result ≡ area_ratio a b reference_diameter }
{
    (a * a - b * b) / (reference_diameter * reference_diameter)
}

// What the row of a part is made from, after a part with the aft diameter `fore`.
fn prepare(reference_diameter: f64, fore: f64, part: Part) -> Result<Row, AeroError>
    ensures { result ≡ prepared_of reference_diameter fore part }
{
    let aft = part.aft_diameter;
    let length = part.length;
    if fore < aft {
        let curve = PressureDragCurve::new(part.shape, length / (aft - fore), part.joint_angle)?;
        let area = area_ratio(aft, fore, reference_diameter);
        return Ok(Row::Widening { curve, area });
    }
    if aft < fore {
        let area = area_ratio(fore, aft, reference_diameter);
        return Ok(Row::Narrowing {
            length,
            fore,
            aft,
            area,
        });
    }
    Ok(Row::Level)
}

// Base drag at a Mach number times the boattail's share of it.
fn boattail(length: f64, fore: f64, aft: f64, mach: f64) -> Result<f64, AeroError>
    ensures { result ≡ boattail_drag length fore aft mach }
{
    let base = drag::base_drag_coefficient(mach)?;
    let factor = drag::boattail_factor(length, fore, aft)?;
    Ok(base * factor)
}

// A part's cell at a Mach number.
#[tactic(auto, unfolding(crate::specs::Formulas::cell_of, crate::specs::Formulas::mark_of, crate::specs::Formulas::marked_cell))]
fn cell(row: Row, mach: f64) -> Result<MarkedCell, AeroError>
    ensures { result ≡ marked_cell row mach }
{
    match row {
        Row::Widening { curve, area } => {
            let drag = curve.coefficient(mach)?;
            Ok(MarkedCell {
                value: drag.value * area,
                mark: u8::from(drag.beyond),
            })
        }
        Row::Narrowing {
            length,
            fore,
            aft,
            area,
        } => Ok(MarkedCell::unmarked(boattail(length, fore, aft, mach)? * area)),
        Row::Level => Ok(MarkedCell::unmarked(0.0)),
    }
}

// Fills `out` with a part's cells, one for each Mach number, and `marks` with their marks, or stops at the first that is refused.
fn fill_row(row: Row, machs: &[f64], out: &mut [f64], marks: &mut [u8]) -> Result<(), AeroError>
    requires { (length machs.now ≡ length out.old) × (length machs.now ≡ length marks.old) }
    ensures cells { Filled (up_to (length machs.now) (λ k. made_test (cell_of row (get_or machs.now k nan)))) (tab (length machs.now) (λ k. value_of (cell_of row (get_or machs.now k nan)))) result out.new }
    ensures marks { Filled (up_to (length machs.now) (λ k. made_test (cell_of row (get_or machs.now k nan)))) (tab (length machs.now) (λ k. mark_of row (get_or machs.now k nan))) result marks.new }
{
    // Tried over a zip: the proof didn't close. Of what is written through one nothing is known.
    for (i, mach) in machs.iter().enumerate() {
        let cell = cell(row, *mach)?;
        out[i] = cell.value;
        marks[i] = cell.mark;
    }
    Ok(())
}

// The row of a part after one with the aft diameter `fore`, into `out` and `marks`, one cell and one mark for each column.
pub(crate) fn part_row(
    settings: &Settings,
    fore: f64,
    part: Part,
    out: &mut [f64],
    marks: &mut [u8],
) -> Result<(), AeroError>
    requires { (settings.now.count ≤ length settings.now.machs) × (length out.old ≡ settings.now.count) × (length marks.old ≡ settings.now.count) }
    ensures cells { Filled (row_test_from (prepared_of settings.now.reference_diameter fore part) settings.now) (row_from cell_plane (prepared_of settings.now.reference_diameter fore part) settings.now) result out.new }
    ensures marks { Filled (row_test_from (prepared_of settings.now.reference_diameter fore part) settings.now) (row_from mark_plane (prepared_of settings.now.reference_diameter fore part) settings.now) result marks.new }
{
    let row = prepare(settings.reference_diameter, fore, part)?;
    fill_row(row, &settings.machs[..settings.count], out, marks)
}
