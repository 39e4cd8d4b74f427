// The curve of a nose or shoulder from its shape, its fineness ratio and its joint angle, or the refusal of one of them.
ghost use Rattle.std.specs.Prelude.{◌≡◌};
ghost use Rattle.nose_drag.specs.Curves.{takes_cone_formula, cone_curve, interpolated as interpolated_of, power_bracket, parabolic_bracket, between_references, ogive as ogive_of, series as series_of, haack as haack_of, shaped as shaped_of, build as build_of, new_curve};

use crate::cone::ogive_pressure_drag_factor;
use crate::curve::{DEPTH, PressureDragCurve, Reference, Transonic};
use crate::scaling::fineness_exponent;
use aero_error::{AeroError, Quantity, Rule, check_dimension, require, unless};
use drag::joint_pressure_drag_coefficient;
use elementary::{LN_2, is_between, is_finite};
use shapes::NoseShape;
use stoney::{SUBSONIC_MACH_LIMIT, StoneyNose};

// Two references and the parameters at which they stand.
#[derive(Clone, Copy)]
struct Bracket {
    lower: Reference,
    upper: Reference,
    low: f64,
    high: f64,
}

// A nose or shoulder before its shape: the joint's value at rest, and the fineness ratio.
#[derive(Clone, Copy)]
struct Nose {
    rest: f64,
    fineness_ratio: f64,
}

impl Nose {
    // A cone times an ogive's factor: the closed form from fineness 1; below, eq. B.9's form between flat face and whole curve at fineness 1.
    #[tactic(auto, unfolding(crate::specs::Curves::cone_curve))]
    fn cone(self, factor: f64) -> PressureDragCurve
        ensures { result ≡ cone_curve self.rest self.fineness_ratio factor }
    {
        if self.fineness_ratio >= 1.0 {
            let method = Transonic::cone(self.fineness_ratio, factor);
            PressureDragCurve::from_transonic(self.rest, method, 1.0, DEPTH)
        } else {
            let method = Transonic::Scaled {
                lower: Reference::Blunt,
                upper: Reference::Cone {
                    fineness_ratio: 1.0,
                    factor,
                    rest: self.rest,
                },
                weight: 1.0,
                exponent: elementary::ln(self.fineness_ratio + 1.0) / LN_2,
            };
            PressureDragCurve::from_transonic(self.rest, method, 0.0, DEPTH)
        }
    }

    // Between two references, by the weight of the upper one, scaled to the fineness ratio.
    #[tactic(auto, unfolding(crate::specs::Curves::interpolated))]
    fn interpolated(self, lower: Reference, upper: Reference, weight: f64) -> PressureDragCurve
        ensures { result ≡ interpolated_of self.rest self.fineness_ratio lower upper weight }
    {
        let method = Transonic::Scaled {
            lower,
            upper,
            weight,
            exponent: fineness_exponent(self.fineness_ratio),
        };
        PressureDragCurve::from_transonic(self.rest, method, SUBSONIC_MACH_LIMIT, DEPTH)
    }

    // Interpolated in the parameter between the two references of a bracket.
    #[tactic(auto, unfolding(crate::specs::Curves::between_references, crate::specs::Curves::weight_of))]
    fn between(self, bracket: Bracket, parameter: f64) -> PressureDragCurve
        ensures { result ≡ between_references self.rest self.fineness_ratio bracket parameter }
    {
        let weight = (parameter - bracket.low) / (bracket.high - bracket.low);
        self.interpolated(bracket.lower, bracket.upper, weight)
    }

    // The cone times eq. B.8's factor, κ being one over the radius ratio.
    #[tactic(auto, unfolding(crate::specs::Curves::ogive))]
    fn ogive(self, radius_ratio: f64) -> Result<PressureDragCurve, AeroError>
        ensures { result ≡ ogive_of self.rest self.fineness_ratio radius_ratio }
    {
        let right = is_finite(radius_ratio) && radius_ratio >= 1.0;
        unless(!right, Rule::OgiveRadiusRatio)?;
        let factor = ogive_pressure_drag_factor(1.0 / radius_ratio)?;
        Ok(self.cone(factor))
    }

    // A shape between two references, for a parameter in [0, 1].
    fn series(
        self,
        bracket: Bracket,
        what: Quantity,
        parameter: f64,
    ) -> Result<PressureDragCurve, AeroError>
        ensures { result ≡ series_of self.rest self.fineness_ratio bracket what parameter }
    {
        require(is_between(0.0, parameter, 1.0), what, parameter)?;
        Ok(self.between(bracket, parameter))
    }

    // Between Stoney's von Kármán and LV-Haack, for a parameter from 0 to 1/3.
    #[tactic(auto, unfolding(crate::specs::Curves::haack))]
    fn haack(self, c: f64) -> Result<PressureDragCurve, AeroError>
        ensures { result ≡ haack_of self.rest self.fineness_ratio c }
    {
        unless(c > 1.0 / 3.0, Rule::HaackAboveThird)?;
        require(is_between(0.0, c, 1.0 / 3.0), Quantity::HaackParameter, c)?;
        let lower = Reference::Stoney(StoneyNose::VonKarman);
        let upper = Reference::Stoney(StoneyNose::LvHaack);
        Ok(self.interpolated(lower, upper, 3.0 * c))
    }

    // The curve of a shape.
    #[tactic(auto, unfolding(crate::specs::Curves::power, crate::specs::Curves::parabolic))]
    fn shaped(self, shape: NoseShape) -> Result<PressureDragCurve, AeroError>
        ensures { result ≡ shaped_of shape self.fineness_ratio self.rest }
    {
        match shape {
            NoseShape::Conical => Ok(self.cone(1.0)),
            NoseShape::Ogive { radius_ratio } => self.ogive(radius_ratio),
            NoseShape::Elliptical => {
                let method = Transonic::Ellipsoid {
                    fineness_ratio: self.fineness_ratio,
                    rest: self.rest,
                };
                Ok(PressureDragCurve::from_transonic(self.rest, method, 0.0, DEPTH))
            }
            NoseShape::PowerSeries { exponent } => {
                self.series(power_bracket(exponent), Quantity::PowerExponent, exponent)
            }
            NoseShape::ParabolicSeries { parameter } => {
                let bracket = parabolic_bracket(parameter);
                self.series(bracket, Quantity::ParabolicParameter, parameter)
            }
            NoseShape::Haack { parameter } => self.haack(parameter),
        }
    }
}

// Whether a shape takes any of the closed-form cone. A NaN parameter counts, so that a broken number can't hide it.
#[tactic(auto, using(elementary::proofs::Floats::differs))]
pub fn takes_cone_formula(shape: NoseShape) -> bool
    ensures { result ≡ takes_cone_formula shape }
{
    match shape {
        NoseShape::Conical => true,
        NoseShape::Ogive { radius_ratio: _ } => true,
        NoseShape::Elliptical => false,
        NoseShape::PowerSeries { exponent } => exponent.is_nan() || exponent > 0.75,
        NoseShape::ParabolicSeries { parameter } => parameter.is_nan() || parameter < 0.5,
        NoseShape::Haack { parameter: _ } => false,
    }
}

// The references on either side of a power series' exponent.
#[tactic(auto, unfolding(crate::specs::Curves::power_bracket))]
fn power_bracket(n: f64) -> Bracket
    ensures { result ≡ power_bracket n }
{
    if n < 0.25 {
        Bracket {
            lower: Reference::Blunt,
            upper: Reference::Stoney(StoneyNose::PowerQuarter),
            low: 0.0,
            high: 0.25,
        }
    } else if n < 0.5 {
        Bracket {
            lower: Reference::Stoney(StoneyNose::PowerQuarter),
            upper: Reference::Stoney(StoneyNose::PowerHalf),
            low: 0.25,
            high: 0.5,
        }
    } else if n < 0.75 {
        Bracket {
            lower: Reference::Stoney(StoneyNose::PowerHalf),
            upper: Reference::Stoney(StoneyNose::PowerThreeQuarters),
            low: 0.5,
            high: 0.75,
        }
    } else {
        Bracket {
            lower: Reference::Stoney(StoneyNose::PowerThreeQuarters),
            upper: Reference::CONE_3,
            low: 0.75,
            high: 1.0,
        }
    }
}

// The references on either side of a parabolic series' parameter.
#[tactic(auto, unfolding(crate::specs::Curves::parabolic_bracket))]
fn parabolic_bracket(k: f64) -> Bracket
    ensures { result ≡ parabolic_bracket k }
{
    if k < 0.5 {
        Bracket {
            lower: Reference::CONE_3,
            upper: Reference::Stoney(StoneyNose::ParabolaHalf),
            low: 0.0,
            high: 0.5,
        }
    } else if k < 0.75 {
        Bracket {
            lower: Reference::Stoney(StoneyNose::ParabolaHalf),
            upper: Reference::Stoney(StoneyNose::ParabolaThreeQuarters),
            low: 0.5,
            high: 0.75,
        }
    } else {
        Bracket {
            lower: Reference::Stoney(StoneyNose::ParabolaThreeQuarters),
            upper: Reference::Stoney(StoneyNose::Parabola),
            low: 0.75,
            high: 1.0,
        }
    }
}

impl PressureDragCurve {
    // The curve of a nose or shoulder: its shape, its fineness ratio l/(d_aft - d_fore) and its joint angle at the aft end.
    #[tactic(auto, unfolding(crate::specs::Curves::new_curve, crate::specs::Curves::recorded), using(aero_error::proofs::HandedOn::handed_on))]
    pub fn new(
        shape: NoseShape,
        fineness_ratio: f64,
        joint_angle_rad: f64,
    ) -> Result<PressureDragCurve, AeroError>
        ensures { result ≡ new_curve shape fineness_ratio joint_angle_rad }
    {
        let mut curve = build(shape, fineness_ratio, joint_angle_rad)?;
        if fineness_ratio > 0.0 {
            curve.shape = Some(shape);
            curve.fineness_ratio = fineness_ratio;
        }
        Ok(curve)
    }
}

// The curve before it records its inputs: fineness first, then the joint angle; fineness 0 is then the step whatever the shape.
#[tactic(auto, unfolding(crate::specs::Curves::build))]
fn build(
    shape: NoseShape,
    fineness_ratio: f64,
    joint_angle_rad: f64,
) -> Result<PressureDragCurve, AeroError>
    ensures { result ≡ build_of shape fineness_ratio joint_angle_rad }
{
    check_dimension(Quantity::Fineness, fineness_ratio, true)?;
    let rest = joint_pressure_drag_coefficient(joint_angle_rad)?;
    if fineness_ratio == 0.0 {
        Ok(PressureDragCurve::step())
    } else {
        let nose = Nose {
            rest,
            fineness_ratio,
        };
        nose.shaped(shape)
    }
}
