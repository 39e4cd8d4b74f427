// The formulas by their numbers, the test of a dimension by its quantity's code, and whether a shape takes the cone's formula.
ghost use Rattle.std.specs.Prelude.{◌≡◌, ◌≤◌};
ghost use Rattle.aero_error.specs.Checks.{dimension};
ghost use Rattle.cobalnis.specs.Answers.{no_such, formula_of, formula_status, formula_bits, dimension_status, dimension_bits, cone_status, cone_word};

use crate::answers::{NO_SUCH, hand_out, tested};
use aero_error::{AeroError, Quantity};
use shapes::NoseShape;

// What a formula's number names answers. A number, since C asks by it.
#[tactic(auto, unfolding(crate::specs::Answers::formula_of))]
fn formula_of(which: u32, a: f64, b: f64, c: f64, d: f64, e: f64) -> Option<Result<f64, AeroError>>
    ensures { result ≡ formula_of which a b c d e }
{
    match which {
        0 => Some(Ok(elementary::sqrt(a))),
        1 => Some(Ok(elementary::ln(a))),
        2 => Some(Ok(elementary::exp(a))),
        3 => Some(Ok(elementary::powf(a, b))),
        4 => Some(Ok(elementary::sin(a))),
        5 => Some(tested(drag::check_mach_any(a))),
        6 => Some(drag::critical_reynolds(a)),
        7 => Some(drag::incompressible_skin_friction(a, b)),
        8 => Some(drag::skin_friction_coefficient(a, b, c)),
        9 => Some(drag::body_friction_form_factor(a)),
        10 => Some(drag::stagnation_pressure_ratio(a)),
        11 => Some(drag::stagnation_drag_coefficient(a)),
        12 => Some(drag::base_drag_coefficient(a)),
        13 => Some(drag::joint_pressure_drag_coefficient(a)),
        14 => Some(drag::boattail_factor(a, b, c)),
        15 => Some(nose_drag::subsonic_pressure_drag_coefficient(a, b, c, d, e)),
        16 => Some(nose_drag::ogive_pressure_drag_factor(a)),
        17 => Some(nose_drag::fineness_scaled_pressure_drag(a, b, c)),
        18 => Some(nose_drag::ellipsoid_subsonic_pressure_drag(a, b)),
        19 => Some(Ok(drag::stagnation_ratio(a))),
        20 => Some(Ok(NoseShape::VON_KARMAN.parameter())),
        21 => Some(Ok(NoseShape::LV_HAACK.parameter())),
        _ => None,
    }
}

// The formula of a number, on as many of the arguments as it has.
pub fn cobalnis_formula(which: u32, a: f64, b: f64, c: f64, d: f64, e: f64, bits: &mut u64) -> u32
    ensures { (result ≡ formula_status (formula_of which a b c d e)) × (bits.new ≡ formula_bits (formula_of which a b c d e) bits.old) }
{
    match formula_of(which, a, b, c, d, e) {
        Some(answer) => hand_out(answer, bits),
        None => NO_SUCH,
    }
}

// `check_dimension` of a quantity by its code.
pub fn cobalnis_check_dimension(what: u32, value: f64, allow_zero: bool, bits: &mut u64) -> u32
    ensures { (result ≡ dimension_status what (dimension value allow_zero)) × (bits.new ≡ dimension_bits what (dimension value allow_zero) value bits.old) }
{
    let Ok(quantity) = Quantity::try_from(what) else {
        return NO_SUCH;
    };
    hand_out(
        tested(aero_error::check_dimension(quantity, value, allow_zero)),
        bits,
    )
}

// Whether a shape takes the cone's formula: 1 or 0 in the lent word, which stays as it was where the number names no shape.
pub fn cobalnis_takes_cone_formula(shape: u64, parameter: f64, takes: &mut u64) -> u32
    ensures { (result ≡ cone_status shape) × (takes.new ≡ cone_word shape parameter takes.old) }
{
    if 5 < shape {
        return NO_SUCH;
    }
    *takes = u64::from(nose_drag::takes_cone_formula(NoseShape::of_number(shape, parameter)));
    0
}
