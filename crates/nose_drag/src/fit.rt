// Below a method's lower bound M_L: eq. 3.87's fit between the value at rest and the method's value and slope there.
ghost use Rattle.std.specs.Prelude.{◌≡◌};
ghost use Rattle.nose_drag.specs.Below.{fit_of, fit_at, below_checked, subsonic_pressure_drag_coefficient};

use aero_error::{AeroError, Quantity, check_dimension, require};
use elementary::{is_between, is_finite};
use stoney::ValueAndSlope;

// Eq. 3.87's fit below M_L: how the drag rises from its value at rest to the method's value at M_L.
#[derive(Clone, Copy, Debug, PartialEq)]
pub enum Fit {
    // a Mᵇ, held as Δ (M/M_L)ᵇ.
    Power { delta: f64, b: f64 },
    // Δ (M/M_L)², where eq. 3.87 has no solution.
    Quadratic { delta: f64 },
}

impl Fit {
    // From the rise Δ and the slope at M_L.
    #[tactic(auto, unfolding(crate::specs::Below::fit_of))]
    pub(crate) fn new(delta: f64, slope: f64, mach_low: f64) -> Fit
        ensures { result ≡ fit_of delta slope mach_low }
    {
        let b = slope * mach_low / delta;
        if delta > 0.0 && b > 1.0 {
            Fit::Power { delta, b }
        } else {
            Fit::Quadratic { delta }
        }
    }

    // The fit's value and slope at `mach`, above the value at rest.
    #[inline(always)]
    #[tactic(auto, unfolding(crate::specs::Below::power_at, crate::specs::Below::quadratic_at))]
    pub(crate) fn eval(self, mach: f64, mach_low: f64) -> ValueAndSlope
        ensures { result ≡ fit_at self mach mach_low }
    {
        match self {
            Fit::Power { delta, b } => {
                if mach == 0.0 {
                    ValueAndSlope {
                        value: 0.0,
                        slope: 0.0,
                    }
                } else {
                    let power = delta * elementary::powf(mach / mach_low, b);
                    ValueAndSlope {
                        value: power,
                        slope: b * power / mach,
                    }
                }
            }
            Fit::Quadratic { delta } => {
                let t = mach / mach_low;
                ValueAndSlope {
                    value: delta * t * t,
                    slope: 2.0 * delta * t / mach_low,
                }
            }
        }
    }
}

// The tests of eq. 3.87's numbers, in the Rust's order.
#[tactic(auto, unfolding(crate::specs::Below::below_checked))]
fn check_below(
    c_rest: f64,
    c_low: f64,
    slope_low: f64,
    mach_low: f64,
    mach: f64,
) -> Result<(), AeroError>
    ensures { result ≡ below_checked c_rest c_low slope_low mach_low mach }
{
    let below = is_between(0.0, mach, mach_low);
    check_dimension(Quantity::TransonicLowerBound, mach_low, false)?;
    require(is_finite(c_rest), Quantity::DragAtRest, c_rest)?;
    require(is_finite(c_low), Quantity::DragAtLowerBound, c_low)?;
    require(is_finite(slope_low), Quantity::SlopeAtLowerBound, slope_low)?;
    require(below, Quantity::MachBelowLowerBound, mach)
}

// Eq. 3.87 between Mach 0 and M_L, from the value at rest and the value and slope at M_L.
#[tactic(auto, unfolding(crate::specs::Below::subsonic_pressure_drag_coefficient))]
pub fn subsonic_pressure_drag_coefficient(
    c_rest: f64,
    c_low: f64,
    slope_low: f64,
    mach_low: f64,
    mach: f64,
) -> Result<f64, AeroError>
    ensures { result ≡ subsonic_pressure_drag_coefficient c_rest c_low slope_low mach_low mach }
{
    check_below(c_rest, c_low, slope_low, mach_low, mach)?;
    let fit = Fit::new(c_low - c_rest, slope_low, mach_low);
    Ok(c_rest + fit.eval(mach, mach_low).value)
}
