// A float taken apart: its sign, significand and digits, and what `sqrt`, `ln` and `exp` need of them.
ghost use Rattle.std.specs.Prelude.{◌≡◌, ◌-◌, ◌≤◌, ◌^◌};
ghost use Rattle.elementary.specs.Split.{split_of, positive_of, floor_of, Within, floor_size};

use crate::class::{
    FloatClass, IMPLICIT_BIT, classify, exponent_field, sign_bit, significand_field,
};
use crate::{infinity, nan};
use std::marker::Model;

// The size of a finite number other than zero, significand × 2^(digits - 1127). The significand has 53
// binary digits, subnormal numbers included: `Taken` holds of every magnitude.
#[derive(Clone, Copy, Debug, PartialEq, Eq)]
pub struct Magnitude {
    pub significand: u64,
    pub digits: u64,
}

impl Model for Magnitude {
    ghost use Rattle.elementary.specs.Figures.{Figures, Taken};

    ghost Value = { Figures };

    ghost view = { λ m. record { significand = m.significand; digits = m.digits } };

    ghost invariant = { λ m. Taken m.significand m.digits };

    ghost inverse = { λ v. record { significand = v.significand; digits = v.digits } };
}

// A float taken apart.
#[derive(Clone, Copy, Debug, PartialEq, Eq)]
pub enum Parts {
    Nan,
    Infinite {
        negative: bool,
    },
    Zero {
        negative: bool,
    },
    Finite {
        negative: bool,
        magnitude: Magnitude,
    },
}

// What `sqrt` and `ln` go by: the answer that they share where x is neither a zero nor a positive finite number, a zero, or the
// number's magnitude.
#[derive(Clone, Copy, Debug, PartialEq)]
pub(crate) enum Positive {
    Not(f64),
    Zero { negative: bool },
    Finite(Magnitude),
}

// A whole number as a sign and a size. An i64 has no -0, and the floor of -0 is -0.
#[derive(Clone, Copy, Debug, PartialEq, Eq)]
pub struct Whole {
    pub negative: bool,
    pub size: u64,
}

// Where a float is taken apart, by its class; a NaN, whose bits the language leaves open, before they are asked for. A normal
// number has the implicit bit above its field; a subnormal one has none, and leading zeros bring its field to 53 digits.
fn split(x: f64) -> Parts
    ensures { result ≡ split_of x }
{
    if x.is_nan() {
        return Parts::Nan;
    }
    let bits = f64::to_bits(x);
    let negative = sign_bit(bits);
    let field = significand_field(bits);
    match classify(bits) {
        FloatClass::Zero => Parts::Zero { negative },
        FloatClass::Subnormal => {
            let shift = u64::leading_zeros(field) - 11;
            Parts::Finite {
                negative,
                magnitude: Magnitude {
                    significand: field << shift,
                    digits: 53 - shift as u64,
                },
            }
        }
        FloatClass::Normal => Parts::Finite {
            negative,
            magnitude: Magnitude {
                significand: IMPLICIT_BIT + field,
                digits: exponent_field(bits) + 52,
            },
        },
        FloatClass::Infinity => Parts::Infinite { negative },
        FloatClass::NaN => Parts::Nan,
    }
}

// A NaN for a NaN and a number below 0, and +infinity for itself.
pub(crate) fn positive_parts(x: f64) -> Positive
    ensures { result ≡ positive_of (split_of x) }
{
    match split(x) {
        Parts::Nan => Positive::Not(nan()),
        Parts::Infinite { negative } => {
            if negative {
                Positive::Not(nan())
            } else {
                Positive::Not(infinity())
            }
        }
        Parts::Zero { negative } => Positive::Zero { negative },
        Parts::Finite {
            negative,
            magnitude,
        } => {
            if negative {
                Positive::Not(nan())
            } else {
                Positive::Finite(magnitude)
            }
        }
    }
}

// The greatest whole number that is at most x, for an x of at most 2^51 in size.
pub(crate) fn floor(x: f64) -> Whole
    requires { Within (2 ^ 51) x }
    ensures { result ≡ floor_of x }
{
    match split(x) {
        Parts::Nan | Parts::Infinite { negative: _ } => Whole {
            negative: false,
            size: 0,
        },
        Parts::Zero { negative } => Whole { negative, size: 0 },
        Parts::Finite {
            negative,
            magnitude,
        } => Whole {
            negative,
            size: floor_size(negative, magnitude),
        },
    }
}

// The size of that number: the magnitude's whole part, and one more for a negative number with a fraction.
fn floor_size(negative: bool, magnitude: Magnitude) -> u64
    requires { magnitude.digits ≤ 1126 }
    ensures { result ≡ floor_size negative magnitude.significand (2 ^ (1127 - magnitude.digits)) }
{
    if magnitude.digits <= 1074 {
        if negative { 1 } else { 0 }
    } else {
        let shift = 1127 - magnitude.digits;
        let whole = magnitude.significand >> shift;
        if negative {
            if magnitude.significand % (1u64 << shift) == 0 {
                whole
            } else {
                whole + 1
            }
        } else {
            whole
        }
    }
}
