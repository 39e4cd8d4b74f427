// Eq. B.9: from drag measured at fineness 3 and the blunt cylinder's to another fineness ratio, and between two references.
ghost use Rattle.std.specs.Prelude.{◌≡◌};
ghost use Rattle.nose_drag.specs.Methods.{fineness_scaled, fineness_exponent, mixed, scaled as scaled_of, fineness_scaled_pressure_drag};
ghost use Rattle.nose_drag.specs.Values.{scaled_value};

use crate::cone::{blunt, blunt_value};
use aero_error::{AeroError, Quantity, check_dimension};
use elementary::LN_2;
use stoney::ValueAndSlope;

// ln 4, for eq. B.9's logarithm to base 4.
const LN_4: f64 = LN_2 * 2.0;

// Eq. B.9's exponent for a fineness ratio.
pub(crate) fn fineness_exponent(fineness_ratio: f64) -> f64
    ensures { result ≡ fineness_exponent fineness_ratio }
{
    elementary::ln(fineness_ratio + 1.0) / LN_4
}

// Eq. B.9 with its exponent.
pub(crate) fn fineness_scaled(c3: f64, c0: f64, exponent: f64) -> f64
    ensures { result ≡ fineness_scaled c3 c0 exponent }
{
    c0 * elementary::powf(c3 / c0, exponent)
}

// Eq. B.9: from the drag c3 measured at fineness 3 and the blunt cylinder's c0 to another fineness ratio.
#[tactic(auto, unfolding(crate::specs::Methods::fineness_scaled_pressure_drag))]
pub fn fineness_scaled_pressure_drag(
    c3: f64,
    c0: f64,
    fineness_ratio: f64,
) -> Result<f64, AeroError>
    ensures { result ≡ fineness_scaled_pressure_drag c3 c0 fineness_ratio }
{
    check_dimension(Quantity::FinenessThreeDrag, c3, true)?;
    check_dimension(Quantity::BluntDrag, c0, false)?;
    check_dimension(Quantity::Fineness, fineness_ratio, true)?;
    Ok(fineness_scaled(c3, c0, fineness_exponent(fineness_ratio)))
}

// From one reference to the other by the weight of the upper one.
fn mixed(lo: f64, hi: f64, weight: f64) -> f64
    ensures { result ≡ mixed lo hi weight }
{
    lo + weight * (hi - lo)
}

// Two references' values interpolated by the weight of the upper one, and scaled by eq. B.9; no drag where nothing is left to scale.
#[tactic(auto, unfolding(crate::specs::Values::scaled_value, crate::specs::Forms::blunt))]
pub(crate) fn scaled_value(lo: f64, hi: f64, weight: f64, exponent: f64, mach: f64) -> f64
    ensures { result ≡ scaled_value lo hi weight exponent mach }
{
    let c3 = mixed(lo, hi, weight);
    if c3 <= 0.0 {
        return 0.0;
    }
    fineness_scaled(c3, blunt_value(mach), exponent)
}

// The same with its slope. Inlined, so that none is worked out where the value alone is read.
#[inline(always)]
#[tactic(auto, unfolding(crate::specs::Methods::scaled, crate::specs::Values::scaled_value, crate::specs::Forms::blunt))]
pub(crate) fn scaled(
    lo: ValueAndSlope,
    hi: ValueAndSlope,
    weight: f64,
    exponent: f64,
    mach: f64,
) -> ValueAndSlope
    ensures { result ≡ scaled_of lo hi weight exponent mach }
{
    let c = scaled_value(lo.value, hi.value, weight, exponent, mach);
    let c3 = mixed(lo.value, hi.value, weight);
    let c3_slope = mixed(lo.slope, hi.slope, weight);
    let c0 = blunt(mach);
    ValueAndSlope {
        value: c,
        slope: if c3 <= 0.0 {
            0.0
        } else {
            c * ((1.0 - exponent) * c0.slope / c0.value + exponent * c3_slope / c3)
        },
    }
}
