// Stoney's noses by their numbers: a point of a table, a table read at a Mach, and at many in one walk; and the curves by their shapes'
// numbers.
ghost use Rattle.std.specs.Prelude.{◌≡◌, cond, ◌≤◌, ltb, length};
ghost use Rattle.std.proofs.lemmas.List.Edits.{sets};
ghost use Rattle.aero_error.specs.Checks.{◌then◌, unless};
ghost use Rattle.aero_error.specs.declared.Rule.TheVariants.{TooFewCells};
ghost use Rattle.drag.specs.Friction.{machs_test};
ghost use Rattle.nose_drag.specs.Beyond.{drag_of};
ghost use Rattle.cobalnis.specs.Words.{spread};
ghost use Rattle.cobalnis.specs.Answers.{no_such, is_nose, point_status, point_words, lookup_words, WalkDone, curve_from, drag_bits, drag_mark, coefficient_word, mark_byte, about, lent_words, machs_given, ReadAt, CurveAnswered};

use crate::answers::{NO_SUCH, refuse, status_of};
use aero_error::{AeroError, Rule, unless};
use nose_drag::PressureDragCurve;
use shapes::NoseShape;
use stoney::StoneyNose;

// ---- Stoney's noses

// The Mach and the drag of a nose's point.
#[tactic(auto, using(crate::proofs::Tables::point_there, stoney::specs::Segments::count_is, std::proofs::lemmas::Bool::Decides::nat_tests))]
pub fn cobalnis_nose_point(nose: u32, place: usize, out: &mut [u64; 2]) -> u32
    ensures { (result ≡ point_status nose place) × (out.new ≡ point_words nose place out.old) }
{
    let Ok(known) = StoneyNose::try_from(nose) else {
        return NO_SUCH;
    };
    let Some(point) = known.table().get(place) else {
        return status_of(AeroError::Broken(Rule::NoSuchPlace));
    };
    *out = [
        elementary::to_bits(point.mach),
        elementary::to_bits(point.drag),
    ];
    0
}

// A table's value and slope at a Mach, its first Mach, and 1 where the Mach is beyond its last point, else 0.
#[tactic(auto, using(drag_sheet::proofs::MadeCells::byte_of))]
pub fn cobalnis_nose_lookup(nose: u32, mach: f64, out: &mut [u64; 4]) -> u32
    ensures { (result ≡ cond (is_nose nose) 0 no_such) × (out.new ≡ lookup_words nose mach out.old) }
{
    let Ok(known) = StoneyNose::try_from(nose) else {
        return NO_SUCH;
    };
    let reading = known.value_and_slope(mach);
    *out = [
        elementary::to_bits(reading.at.value),
        elementary::to_bits(reading.at.slope),
        elementary::to_bits(known.first_mach()),
        u64::from(reading.beyond),
    ];
    0
}

// A nose's values at these Machs, in one walk along its table, and how many times a Mach was set against a point.
pub fn cobalnis_nose_walk(
    nose: u32,
    machs: &[f64],
    answers: &mut [f64],
    compared: &mut usize,
    bits: &mut u64,
) -> u32
    ensures { WalkDone (is_nose nose) nose machs.now answers.old compared.old bits.old result answers.new compared.new bits.new }
{
    let Ok(known) = StoneyNose::try_from(nose) else {
        return NO_SUCH;
    };
    match walk::values(known, machs, answers) {
        Ok(count) => {
            *compared = count;
            *bits = 0;
            0
        }
        Err(e) => refuse(e, bits),
    }
}

// ---- curves, by their shapes' numbers, 6 being the step: C asks by a number

fn curve_of(
    shape: u64,
    parameter: f64,
    fineness_ratio: f64,
    joint_angle_rad: f64,
) -> Result<PressureDragCurve, AeroError>
    ensures { result ≡ curve_from shape parameter fineness_ratio joint_angle_rad }
{
    if shape == 6 {
        return Ok(PressureDragCurve::step());
    }
    PressureDragCurve::new(
        NoseShape::of_number(shape, parameter),
        fineness_ratio,
        joint_angle_rad,
    )
}

// The bits of a coefficient, or of the value refused, and its mark. Inlined, so that the curve isn't copied for each Mach number.
#[inline(always)]
#[tactic(auto, using(drag_sheet::proofs::MadeCells::byte_of))]
fn coefficient_at(curve: PressureDragCurve, mach: f64) -> (u64, u8)
    ensures { (result.0 ≡ drag_bits (drag_of curve mach)) × (result.1 ≡ drag_mark (drag_of curve mach)) }
{
    match curve.coefficient(mach) {
        Ok(drag) => (elementary::to_bits(drag.value), u8::from(drag.beyond)),
        Err(e) => (elementary::to_bits(e.value()), 0),
    }
}

#[tactic(auto, using(crate::proofs::Turns::coefficient_more, crate::proofs::Turns::mark_more), unfolding(crate::specs::Words::spread))]
fn fill(curve: PressureDragCurve, machs: &[f64], out: &mut [u64], marks: &mut [u8])
    requires { (length machs.now ≤ length out.old) × (length machs.now ≤ length marks.old) }
    ensures words { out.new ≡ sets out.old 0 (spread (coefficient_word curve) machs.now) }
    ensures marks { marks.new ≡ sets marks.old 0 (spread (mark_byte curve) machs.now) }
{
    // The words by place: of what is written through a zip nothing is known.
    for (i, mach) in machs.iter().enumerate() {
        let (word, mark) = coefficient_at(curve, *mach);
        out[i] = word;
        marks[i] = mark;
    }
}

fn about(value: f64, curve: PressureDragCurve) -> [u64; 3]
    ensures { result ≡ about value curve }
{
    [
        elementary::to_bits(value),
        elementary::to_bits(curve.rest_coefficient()),
        elementary::to_bits(curve.transonic_lower_bound()),
    ]
}

// Room for the words and the marks, then every Mach number by itself. As `walk`'s, without its first test: two lines.
fn check_given(machs: &[f64], room: usize) -> Result<(), AeroError>
    ensures { result ≡ (unless (ltb room (length machs.now)) TooFewCells then machs_test machs.now) }
{
    unless(room < machs.len(), Rule::TooFewCells)?;
    drag::check_machs(machs)
}

// A built curve at these Machs.
fn read_curve(
    curve: PressureDragCurve,
    machs: &[f64],
    out: &mut [u64],
    marks: &mut [u8],
    said: &mut [u64; 3],
) -> u32
    ensures { ReadAt (machs_given machs.now (lent_words out.old marks.old)) curve machs.now (lent_words out.old marks.old) result (lent_words out.new marks.new) said.new }
{
    match check_given(machs, out.len().min(marks.len())) {
        Err(e) => {
            *said = about(e.value(), curve);
            status_of(e)
        }
        Ok(()) => {
            fill(curve, machs, out, marks);
            *said = about(0.0, curve);
            0
        }
    }
}

// A curve by its shape's number, 6 being the step, and its coefficients at these Machs, with their marks.
pub fn cobalnis_curve(
    shape: u64,
    parameter: f64,
    fineness_ratio: f64,
    joint_angle_rad: f64,
    machs: &[f64],
    out: &mut [u64],
    marks: &mut [u8],
    said: &mut [u64; 3],
) -> u32
    ensures { CurveAnswered (ltb 6 shape) (curve_from shape parameter fineness_ratio joint_angle_rad) machs.now (lent_words out.old marks.old) said.old result (lent_words out.new marks.new) said.new }
{
    if 6 < shape {
        return NO_SUCH;
    }
    match curve_of(shape, parameter, fineness_ratio, joint_angle_rad) {
        Err(e) => {
            *said = [elementary::to_bits(e.value()), 0, 0];
            status_of(e)
        }
        Ok(curve) => read_curve(curve, machs, out, marks, said),
    }
}
