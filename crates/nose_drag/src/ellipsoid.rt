// The ellipsoid at every Mach number: Hoerner's measured heads below Mach 0.8, Stoney's measured curve from its first point on.
ghost use Rattle.std.specs.Prelude.{◌≡◌};
ghost use Rattle.stoney.specs.declared.StoneyNose.TheVariants.{Ellipsoid};
ghost use Rattle.stoney.specs.Lookup.{beyond};
ghost use Rattle.nose_drag.specs.Beyond.{ellipsoid_beyond};
ghost use Rattle.nose_drag.specs.Methods.{ellipsoid_low_speed, ellipsoid_at_least_rest, ellipsoid_measured, ellipsoid as ellipsoid_of, ellipsoid_subsonic_pressure_drag};

use crate::cone::blunt;
use crate::scaling::{fineness_exponent, fineness_scaled, scaled};
use aero_error::{AeroError, Quantity, check_dimension, require};
use elementary::max;
use stoney::{Reading, SUBSONIC_MACH_LIMIT, StoneyNose, ValueAndSlope};

// The forebody pressure drag of a hemispherical head on a cylinder at low speed (Hoerner 1965 p. 3-12, fig. 20).
pub const HEMISPHERE_FOREBODY_PRESSURE_DRAG: f64 = 0.01;

// The same of the round head about one diameter long in that figure.
pub const ROUND_HEAD_FOREBODY_PRESSURE_DRAG: f64 = -0.05;

// The fineness ratios of the two heads.
const HEMISPHERE_FINENESS: f64 = 0.5;

const ROUND_HEAD_FINENESS: f64 = 1.0;

// An ellipsoid below Mach 0.8: Hoerner's line from the hemisphere on, held at 0; blunter, eq. B.9's form between the flat face and the hemisphere.
#[inline(always)]
#[tactic(auto, unfolding(crate::specs::Methods::ellipsoid_low_speed))]
fn ellipsoid_low_speed(fineness_ratio: f64, mach: f64) -> ValueAndSlope
    ensures { result ≡ ellipsoid_low_speed fineness_ratio mach }
{
    if fineness_ratio >= HEMISPHERE_FINENESS {
        let along = (fineness_ratio - HEMISPHERE_FINENESS)
            / (ROUND_HEAD_FINENESS - HEMISPHERE_FINENESS);
        let line = HEMISPHERE_FOREBODY_PRESSURE_DRAG
            + along * (ROUND_HEAD_FOREBODY_PRESSURE_DRAG - HEMISPHERE_FOREBODY_PRESSURE_DRAG);
        return ValueAndSlope {
            value: max(line, 0.0),
            slope: 0.0,
        };
    }
    let c0 = blunt(mach);
    let exponent = elementary::ln(fineness_ratio + 1.0) / elementary::ln(1.0 + HEMISPHERE_FINENESS);
    let c = fineness_scaled(HEMISPHERE_FOREBODY_PRESSURE_DRAG, c0.value, exponent);
    ValueAndSlope {
        value: c,
        slope: c * (1.0 - exponent) * c0.slope / c0.value,
    }
}

// The same, or the value at rest where that is more.
#[inline(always)]
#[tactic(auto, unfolding(crate::specs::Methods::ellipsoid_at_least_rest))]
fn ellipsoid_at_least_rest(fineness_ratio: f64, rest: f64, mach: f64) -> ValueAndSlope
    ensures { result ≡ ellipsoid_at_least_rest fineness_ratio rest mach }
{
    let low = ellipsoid_low_speed(fineness_ratio, mach);
    if rest > low.value {
        ValueAndSlope {
            value: rest,
            slope: 0.0,
        }
    } else {
        low
    }
}

// Stoney's ellipsoid scaled by eq. B.9, and whether it is read beyond its last point. Inlined, as the next one, so that a reading goes through no memory.
#[inline(always)]
#[tactic(auto, unfolding(crate::specs::Methods::ellipsoid_measured))]
fn ellipsoid_measured(fineness_ratio: f64, mach: f64) -> Reading
    ensures { result ≡ record { at = ellipsoid_measured fineness_ratio mach; beyond = beyond Ellipsoid mach } }
{
    let stoney = StoneyNose::Ellipsoid.value_and_slope(mach);
    Reading {
        at: scaled(
            stoney.at,
            stoney.at,
            0.0,
            fineness_exponent(fineness_ratio),
            mach,
        ),
        beyond: stoney.beyond,
    }
}

// An ellipsoid at every Mach number: below 0.8, from Stoney's first point on, and a straight line between, which reads the table at that point.
#[inline(always)]
#[tactic(auto, unfolding(crate::specs::Methods::ellipsoid, crate::specs::Beyond::ellipsoid_beyond))]
pub(crate) fn ellipsoid(fineness_ratio: f64, rest: f64, mach: f64) -> Reading
    ensures { result ≡ record { at = ellipsoid_of fineness_ratio rest mach; beyond = ellipsoid_beyond mach } }
{
    if mach < SUBSONIC_MACH_LIMIT {
        return Reading {
            at: ellipsoid_at_least_rest(fineness_ratio, rest, mach),
            beyond: false,
        };
    }
    let first = StoneyNose::Ellipsoid.first_mach();
    if mach >= first {
        return ellipsoid_measured(fineness_ratio, mach);
    }
    let low = ellipsoid_at_least_rest(fineness_ratio, rest, SUBSONIC_MACH_LIMIT);
    let high = ellipsoid_measured(fineness_ratio, first);
    let slope = (high.at.value - low.value) / (first - SUBSONIC_MACH_LIMIT);
    Reading {
        at: ValueAndSlope {
            value: low.value + slope * (mach - SUBSONIC_MACH_LIMIT),
            slope,
        },
        beyond: high.beyond,
    }
}

// An ellipsoid's measured pressure drag below Mach 0.8.
#[tactic(auto, unfolding(crate::specs::Methods::ellipsoid_subsonic_pressure_drag))]
pub fn ellipsoid_subsonic_pressure_drag(fineness_ratio: f64, mach: f64) -> Result<f64, AeroError>
    ensures { result ≡ ellipsoid_subsonic_pressure_drag fineness_ratio mach }
{
    let ok = 0.0 <= mach && mach < SUBSONIC_MACH_LIMIT;
    check_dimension(Quantity::EllipsoidFineness, fineness_ratio, false)?;
    require(ok, Quantity::EllipsoidMach, mach)?;
    Ok(ellipsoid_low_speed(fineness_ratio, mach).value)
}
