// The cycle: a curve asks its transonic method, the method may ask a reference, and a reference may be a whole cone curve, which asks its
// own method again. Each call carries a depth number that falls; `DEPTH` is enough for every curve, so no answer depends on it. The number stays, and with
// it what each call requires of it: a falling depth is a rule of this port (docs/DECISIONS.md, 28).
ghost use Rattle.std.specs.Prelude.{◌≡◌, ◌≤◌, false, suc};
ghost use Rattle.elementary.specs.Arithmetic.{◌⊕◌};
ghost use Rattle.nose_drag.specs.Forms.{sin_half_angle};
ghost use Rattle.nose_drag.specs.Below.{fit_at};
ghost use Rattle.nose_drag.specs.Methods.{reference_at, method_at};
ghost use Rattle.nose_drag.specs.Curves.{from_transonic, curve_at, step_curve};
ghost use Rattle.nose_drag.specs.Beyond.{reference_beyond, method_beyond, drag_of};
ghost use Rattle.nose_drag.specs.Depth.{depth_of_reference, depth_of_transonic};
ghost use Rattle.nose_drag.specs.declared.curve.Transonic.TheVariants.{Cone};

use crate::cone::{blunt, blunt_value, cone_method, sin_half_angle};
use crate::ellipsoid::ellipsoid;
use crate::fit::Fit;
use crate::scaling::{scaled, scaled_value};
use aero_error::AeroError;
use drag::check_mach_any;
use shapes::NoseShape;
use stoney::{Reading, StoneyNose, ValueAndSlope};

// As deep as the cycle goes: a curve, its method, a reference, that reference's cone curve, and that one's method.
pub(crate) const DEPTH: u8 = 4;

// A curve that eq. B.9's scaling and the interpolation between shapes run between.
#[derive(Clone, Copy, Debug, PartialEq)]
pub enum Reference {
    // The blunt cylinder.
    Blunt,
    // A cone times `factor`, its whole curve: eq. 3.87 from `rest` below Mach 1, eq. B.4 to B.6 above.
    Cone {
        fineness_ratio: f64,
        factor: f64,
        rest: f64,
    },
    // Stoney's measured curve at fineness 3.
    Stoney(StoneyNose),
}

// A transonic and supersonic method, from its lower bound M_L up.
#[derive(Clone, Copy, Debug, PartialEq)]
pub enum Transonic {
    // The blunt cylinder.
    Blunt,
    // A cone of half-angle ε, times an ogive's factor (eq. B.4 to B.6, B.8).
    Cone {
        sin_half_angle: f64,
        factor: f64,
    },
    // Two references, interpolated in the shape's parameter and scaled by eq. B.9.
    Scaled {
        lower: Reference,
        upper: Reference,
        weight: f64,
        exponent: f64,
    },
    // An ellipsoid at every Mach number.
    Ellipsoid {
        fineness_ratio: f64,
        rest: f64,
    },
}

// A nose's, shoulder's or step's pressure drag against Mach number, on its increase in area. A step and a bare front face have no shape, and
// fineness 0: the two stay apart, as in the original and in the definitions.
#[derive(Clone, Copy, Debug, PartialEq)]
pub struct PressureDragCurve {
    pub(crate) shape: Option<NoseShape>,
    pub(crate) fineness_ratio: f64,
    pub(crate) rest: f64,
    pub(crate) mach_low: f64,
    pub(crate) fit: Fit,
    pub(crate) transonic: Transonic,
}

// A coefficient, and whether any table that was read for it was read beyond its last point.
#[derive(Clone, Copy, Debug, PartialEq)]
pub struct PressureDrag {
    pub value: f64,
    pub beyond: bool,
}

impl PressureDrag {
    // From a formula: no table is read.
    fn computed(value: f64) -> PressureDrag
        ensures { result ≡ record { value = value; beyond = false } }
    {
        PressureDrag {
            value,
            beyond: false,
        }
    }

    // From a table.
    fn read(reading: Reading) -> PressureDrag
        ensures { result ≡ record { value = reading.at.value; beyond = reading.beyond } }
    {
        PressureDrag {
            value: reading.at.value,
            beyond: reading.beyond,
        }
    }
}

impl Reference {
    // The 3:1 cone, an end of the power and parabolic series, at rest 0.8 sin² ε with tan ε = 1/6.
    pub(crate) const CONE_3: Reference = Reference::Cone {
        fineness_ratio: 3.0,
        factor: 1.0,
        rest: 0.8 / 37.0,
    };

    #[cycle(pressure_drag)]
    #[tactic(auto, using(crate::proofs::Cycle::cone_reference, crate::proofs::Cycle::kept_method))]
    fn value_and_slope(self, mach: f64, depth: u8) -> ValueAndSlope
        requires { depth_of_reference self ≤ depth }
        ensures { result ≡ reference_at self mach }
    {
        match self {
            Reference::Blunt => blunt(mach),
            Reference::Cone {
                fineness_ratio,
                factor,
                rest,
            } => {
                let cone = Transonic::cone(fineness_ratio, factor);
                let curve = PressureDragCurve::from_transonic(rest, cone, 1.0, depth - 1);
                curve.value_and_slope(mach, depth - 1)
            }
            Reference::Stoney(nose) => nose.value_and_slope(mach).at,
        }
    }

    // The value alone, and its mark. From Mach 1 a cone's whole curve is its method, so that only below a curve is made and asked, one call deeper.
    // By `value_and_slope` in its place a cone's coefficient above Mach 1 takes 1.17 times as long, a parabolic series' 1.12 (docs/DECISIONS.md, 77).
    #[tactic(auto, using(crate::specs::Values::whole_cone_above, crate::proofs::Cycle::cone_reference, crate::proofs::Cycle::kept_method))]
    fn drag(self, mach: f64, depth: u8) -> PressureDrag
        requires { depth_of_reference self ≤ depth }
        ensures { result ≡ record { value = (reference_at self mach).value; beyond = reference_beyond self mach } }
    {
        match self {
            Reference::Blunt => PressureDrag::computed(blunt_value(mach)),
            Reference::Cone {
                fineness_ratio,
                factor,
                rest,
            } => {
                PressureDrag::computed(if mach < 1.0 {
                    let cone = Transonic::cone(fineness_ratio, factor);
                    let curve = PressureDragCurve::from_transonic(rest, cone, 1.0, depth - 1);
                    curve.value_and_slope(mach, depth - 1).value
                } else {
                    cone_method(sin_half_angle(fineness_ratio), factor, mach).value
                })
            }
            Reference::Stoney(nose) => PressureDrag::read(nose.value_and_slope(mach)),
        }
    }
}

impl Transonic {
    // A cone of a fineness ratio.
    pub(crate) fn cone(fineness_ratio: f64, factor: f64) -> Transonic
        ensures { result ≡ Cone (sin_half_angle fineness_ratio) factor }
    {
        Transonic::Cone {
            sin_half_angle: sin_half_angle(fineness_ratio),
            factor,
        }
    }

    #[cycle(pressure_drag)]
    fn value_and_slope(self, mach: f64, depth: u8) -> ValueAndSlope
        requires { depth_of_transonic self ≤ depth }
        ensures { result ≡ method_at self mach }
    {
        match self {
            Transonic::Blunt => blunt(mach),
            Transonic::Cone {
                sin_half_angle,
                factor,
            } => cone_method(sin_half_angle, factor, mach),
            Transonic::Scaled {
                lower,
                upper,
                weight,
                exponent,
            } => {
                let lo = lower.value_and_slope(mach, depth - 1);
                let hi = upper.value_and_slope(mach, depth - 1);
                scaled(lo, hi, weight, exponent, mach)
            }
            Transonic::Ellipsoid {
                fineness_ratio,
                rest,
            } => ellipsoid(fineness_ratio, rest, mach).at,
        }
    }

    // The value alone and its mark, which is all that a coefficient takes: each case hands on its numbers, and no method is copied.
    // docs/DECISIONS.md, 77, says what that brings.
    #[tactic(auto, using(crate::specs::Values::value_of_scaled))]
    fn drag(self, mach: f64, depth: u8) -> PressureDrag
        requires { depth_of_transonic self ≤ depth }
        ensures { result ≡ record { value = (method_at self mach).value; beyond = method_beyond self mach } }
    {
        match self {
            Transonic::Blunt => PressureDrag::computed(blunt_value(mach)),
            Transonic::Cone {
                sin_half_angle,
                factor,
            } => PressureDrag::computed(cone_method(sin_half_angle, factor, mach).value),
            Transonic::Scaled {
                lower,
                upper,
                weight,
                exponent,
            } => {
                let lo = lower.drag(mach, depth - 1);
                let hi = upper.drag(mach, depth - 1);
                PressureDrag {
                    value: scaled_value(lo.value, hi.value, weight, exponent, mach),
                    beyond: lo.beyond || hi.beyond,
                }
            }
            Transonic::Ellipsoid {
                fineness_ratio,
                rest,
            } => PressureDrag::read(ellipsoid(fineness_ratio, rest, mach)),
        }
    }
}

impl PressureDragCurve {
    // From the value at rest, the method and M_L. With M_L 0 the method covers every Mach number, and the value at rest is its own.
    #[cycle(pressure_drag)]
    #[tactic(auto, unfolding(crate::specs::Curves::from_transonic, crate::specs::Below::rest_with, crate::specs::Below::fit_with))]
    pub(crate) fn from_transonic(
        rest: f64,
        transonic: Transonic,
        mach_low: f64,
        depth: u8,
    ) -> PressureDragCurve
        requires { suc (depth_of_transonic transonic) ≤ depth }
        ensures { result ≡ from_transonic rest transonic mach_low }
    {
        let low = transonic.value_and_slope(mach_low, depth - 1);
        let rest = if mach_low == 0.0 { low.value } else { rest };
        PressureDragCurve {
            shape: None,
            fineness_ratio: 0.0,
            rest,
            mach_low,
            fit: Fit::new(low.value - rest, low.slope, mach_low),
            transonic,
        }
    }

    // Below M_L: the value at rest and the fit above it. Inlined, so that where the value alone is read no slope is worked out.
    #[inline(always)]
    fn below(self, mach: f64) -> ValueAndSlope
        ensures { result ≡ record { value = self.rest ⊕ (fit_at self.fit mach self.mach_low).value; slope = (fit_at self.fit mach self.mach_low).slope } }
    {
        let rise = self.fit.eval(mach, self.mach_low);
        ValueAndSlope {
            value: self.rest + rise.value,
            slope: rise.slope,
        }
    }

    // The value and slope at a checked Mach number.
    #[cycle(pressure_drag)]
    #[tactic(auto, unfolding(crate::specs::Below::fitted))]
    fn value_and_slope(self, mach: f64, depth: u8) -> ValueAndSlope
        requires { suc (depth_of_transonic self.transonic) ≤ depth }
        ensures { result ≡ curve_at self mach }
    {
        if mach < self.mach_low {
            self.below(mach)
        } else {
            self.transonic.value_and_slope(mach, depth - 1)
        }
    }

    // A step up in radius, or a body's bare front face: the blunt cylinder at every Mach number.
    #[tactic(auto, unfolding(crate::specs::Curves::step_curve))]
    pub fn step() -> PressureDragCurve
        ensures { result ≡ step_curve }
    {
        PressureDragCurve::from_transonic(0.0, Transonic::Blunt, 0.0, DEPTH)
    }

    // The value at rest.
    pub fn rest_coefficient(self) -> f64
        ensures { result ≡ self.rest }
    {
        self.rest
    }

    // M_L, where the transonic method takes over.
    pub fn transonic_lower_bound(self) -> f64
        ensures { result ≡ self.mach_low }
    {
        self.mach_low
    }

    // The coefficient at `mach`, on the increase in area, and whether any table that is read for it is read beyond its last point. What `new` reads
    // doesn't count, and below M_L no table is read. Inlined, so that the curve isn't copied for each Mach number.
    #[inline(always)]
    #[tactic(auto, unfolding(crate::specs::Beyond::drag_of, crate::specs::Beyond::curve_beyond, crate::specs::Curves::coefficient_of, crate::specs::Below::fitted))]
    pub fn coefficient(self, mach: f64) -> Result<PressureDrag, AeroError>
        ensures { result ≡ drag_of self mach }
    {
        check_mach_any(mach)?;
        if mach < self.mach_low {
            Ok(PressureDrag::computed(self.below(mach).value))
        } else {
            Ok(self.transonic.drag(mach, DEPTH - 1))
        }
    }
}
