// The shape of a nose cone (shapes.rs), with the shapes' numbers (docs/REFERENCE.md, Nose formulas). Nothing
// else of shapes.rs is here.
#![tactic(auto)]

ghost use Rattle.std.specs.Prelude.{◌≡◌};
ghost use Rattle.shapes.specs.Numbers.{number_of_shape, shape_of, parameter_of, von_karman, lv_haack};

#[derive(Clone, Copy, Debug, PartialEq)]
pub enum NoseShape {
    // A straight cone.
    Conical,
    // A circular arc whose radius is radius_ratio times the tangent ogive's.
    Ogive { radius_ratio: f64 },
    // Half an ellipse.
    Elliptical,
    // g = ξⁿ, with n the exponent.
    PowerSeries { exponent: f64 },
    // g = (2ξ − K'ξ²) / (2 − K'), with K' the parameter.
    ParabolicSeries { parameter: f64 },
    // Haack's series with the parameter C: 0 is the von Kármán ogive, 1/3 the LV-Haack.
    Haack { parameter: f64 },
}

impl NoseShape {
    pub const VON_KARMAN: NoseShape = NoseShape::Haack { parameter: 0.0 };

    pub const LV_HAACK: NoseShape = NoseShape::Haack {
        parameter: 1.0 / 3.0,
    };

    // The two constants, so that a contract says what they are.
    pub fn von_karman() -> NoseShape
        ensures { result ≡ von_karman }
    {
        NoseShape::VON_KARMAN
    }

    pub fn lv_haack() -> NoseShape
        ensures { result ≡ lv_haack }
    {
        NoseShape::LV_HAACK
    }

    // The shape byte of a part card, 0 to 5.
    pub fn number(self) -> u8
        ensures { result ≡ number_of_shape self }
    {
        match self {
            NoseShape::Conical => 0,
            NoseShape::Ogive { radius_ratio: _ } => 1,
            NoseShape::Elliptical => 2,
            NoseShape::PowerSeries { exponent: _ } => 3,
            NoseShape::ParabolicSeries { parameter: _ } => 4,
            NoseShape::Haack { parameter: _ } => 5,
        }
    }

    // The shape of a number, with this parameter where it has one; a number above 5 counts as 5. It can't fail, so it is no `TryFrom`; a kind
    // without its parameter, made by one, would name the six cases once more. Cards and words refuse such a number before.
    pub fn of_number(number: u64, parameter: f64) -> NoseShape
        ensures { result ≡ shape_of number parameter }
    {
        match number {
            0 => NoseShape::Conical,
            1 => NoseShape::Ogive {
                radius_ratio: parameter,
            },
            2 => NoseShape::Elliptical,
            3 => NoseShape::PowerSeries {
                exponent: parameter,
            },
            4 => NoseShape::ParabolicSeries { parameter },
            _ => NoseShape::Haack { parameter },
        }
    }

    // The parameter, +0 for a shape that has none.
    pub fn parameter(self) -> f64
        ensures { result ≡ parameter_of self }
    {
        match self {
            NoseShape::Conical => 0.0,
            NoseShape::Ogive { radius_ratio } => radius_ratio,
            NoseShape::Elliptical => 0.0,
            NoseShape::PowerSeries { exponent } => exponent,
            NoseShape::ParabolicSeries { parameter } => parameter,
            NoseShape::Haack { parameter } => parameter,
        }
    }
}
