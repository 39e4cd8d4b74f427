// The blunt cylinder at any Mach number and the cone from Mach 1 (Niskanen 2009, eq. B.1 to B.6), and eq. B.8's factor of an ogive.
// What gives a value and its slope is inlined, here and in the files beside, so that where the value alone is read no slope is worked out.
ghost use Rattle.std.specs.Prelude.{◌≡◌};
ghost use Rattle.nose_drag.specs.Forms.{stagnation_drag_slope, blunt as blunt_of, hermite as hermite_of, cone_supersonic, cone_transonic, sin_half_angle, cone_method};
ghost use Rattle.nose_drag.specs.Values.{cone_by_root};
ghost use Rattle.nose_drag.specs.Methods.{ogive_pressure_drag_factor};

use aero_error::{AeroError, Quantity, require};
use drag::stagnation_ratio;
use elementary::is_between;
use stoney::ValueAndSlope;

// Where eq. B.4 takes over from the cubic join for cones (Niskanen 2009 p. 107).
pub const CONE_SUPERSONIC_MACH: f64 = 1.3;

// The ratio of specific heats of air in eq. B.5.
const GAMMA: f64 = 1.4;

// The root that eq. B.4 has at Mach 1.3, √(1.3² - 1), so that none is taken at each call.
const CONE_SUPERSONIC_ROOT: f64 = 0.8306623862918076;

// The slope in Mach of the blunt cylinder's 0.85 q_stag/q (eq. B.1 and B.2 differentiated).
#[tactic(auto, unfolding(crate::specs::Forms::stagnation_drag_slope))]
fn stagnation_drag_slope(mach: f64) -> f64
    ensures { result ≡ stagnation_drag_slope mach }
{
    if mach < 1.0 {
        0.85 * (0.5 * mach + 0.1 * mach * mach * mach)
    } else {
        let i = 1.0 / mach;
        let i3 = i * i * i;
        0.85 * (1.52 * i3 - 0.664 * i3 * i * i - 0.21 * i3 * i3 * i)
    }
}

// The blunt cylinder (eq. B.2), the value alone: fineness 0, and a power series of exponent 0.
#[tactic(auto, unfolding(crate::specs::Forms::blunt))]
pub(crate) fn blunt_value(mach: f64) -> f64
    ensures { result ≡ (blunt_of mach).value }
{
    0.85 * stagnation_ratio(mach)
}

// The same with its slope.
#[tactic(auto, unfolding(crate::specs::Forms::blunt))]
pub(crate) fn blunt(mach: f64) -> ValueAndSlope
    ensures { result ≡ blunt_of mach }
{
    ValueAndSlope {
        value: blunt_value(mach),
        slope: stagnation_drag_slope(mach),
    }
}

// The cubic from `start` at x0 to `end` at x1, each a value and a slope there, at x.
#[inline(always)]
#[tactic(auto, unfolding(crate::specs::Forms::hermite))]
fn hermite(x0: f64, start: ValueAndSlope, x1: f64, end: ValueAndSlope, x: f64) -> ValueAndSlope
    ensures { result ≡ hermite_of x0 start.value start.slope x1 end.value end.slope x }
{
    let h = x1 - x0;
    let t = (x - x0) / h;
    let t2 = t * t;
    let t3 = t * t * t;
    ValueAndSlope {
        value: (2.0 * t3 - 3.0 * t2 + 1.0) * start.value
            + (t3 - 2.0 * t2 + t) * h * start.slope
            + (3.0 * t2 - 2.0 * t3) * end.value
            + (t3 - t2) * h * end.slope,
        slope: ((6.0 * t2 - 6.0 * t) * start.value + (6.0 * t - 6.0 * t2) * end.value) / h
            + (3.0 * t2 - 4.0 * t + 1.0) * start.slope
            + (3.0 * t2 - 2.0 * t) * end.slope,
    }
}

// Eq. B.4, with the root of M² - 1.
#[inline(always)]
#[tactic(auto, unfolding(crate::specs::Values::cone_by_root))]
fn cone_by_root(s: f64, m: f64, root: f64) -> ValueAndSlope
    ensures { result ≡ cone_by_root s m root }
{
    ValueAndSlope {
        value: 2.1 * s * s + 0.5 * s / root,
        slope: -0.5 * s * m / (root * root * root),
    }
}

// Eq. B.4, from Mach 1.3.
#[inline(always)]
#[tactic(auto, unfolding(crate::specs::Forms::cone_supersonic, crate::specs::Values::cone_by_root))]
fn cone_supersonic(s: f64, m: f64) -> ValueAndSlope
    ensures { result ≡ cone_supersonic s m }
{
    cone_by_root(s, m, elementary::sqrt(m * m - 1.0))
}

// A cone's pressure drag from Mach 1, with s the sine of its half-angle (eq. B.4 to B.6, and the cubic between Mach 1 and 1.3).
#[inline(always)]
#[tactic(auto, unfolding(crate::specs::Forms::cone_transonic), using(crate::specs::Values::cone_by_root_lem, crate::specs::Values::cone_supersonic_root))]
fn cone_transonic(s: f64, mach: f64) -> ValueAndSlope
    ensures { result ≡ cone_transonic s mach }
{
    if mach >= CONE_SUPERSONIC_MACH {
        return cone_supersonic(s, mach);
    }
    let start = ValueAndSlope {
        value: s,
        slope: 4.0 / (GAMMA + 1.0) * (1.0 - 0.5 * s),
    };
    let end = cone_by_root(s, CONE_SUPERSONIC_MACH, CONE_SUPERSONIC_ROOT);
    hermite(1.0, start, CONE_SUPERSONIC_MACH, end, mach)
}

// The sine of a cone's half-angle, tan ε = 1/(2f) (eq. B.3).
#[tactic(auto, unfolding(crate::specs::Forms::sin_half_angle))]
pub(crate) fn sin_half_angle(fineness_ratio: f64) -> f64
    ensures { result ≡ sin_half_angle fineness_ratio }
{
    let tan = 0.5 / fineness_ratio;
    tan / elementary::sqrt(1.0 + tan * tan)
}

// A cone times an ogive's factor.
#[inline(always)]
#[tactic(auto, unfolding(crate::specs::Forms::cone_method))]
pub(crate) fn cone_method(sin_half_angle: f64, factor: f64, mach: f64) -> ValueAndSlope
    ensures { result ≡ cone_method sin_half_angle factor mach }
{
    let cone = cone_transonic(sin_half_angle, mach);
    ValueAndSlope {
        value: factor * cone.value,
        slope: factor * cone.slope,
    }
}

// Eq. B.8's ratio of an ogive's pressure drag to the cone's, for κ in [0, 1].
#[tactic(auto, unfolding(crate::specs::Methods::ogive_pressure_drag_factor))]
pub fn ogive_pressure_drag_factor(kappa: f64) -> Result<f64, AeroError>
    ensures { result ≡ ogive_pressure_drag_factor kappa }
{
    let d = kappa - 0.5;
    require(is_between(0.0, kappa, 1.0), Quantity::OgiveKappa, kappa)?;
    Ok(0.72 * d * d + 0.82)
}
