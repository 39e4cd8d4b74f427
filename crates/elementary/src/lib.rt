// The fixed steps (docs/REFERENCE.md, Fixed steps) for the functions that the drag formulas need and no file of the
// original holds: `sqrt`, `ln`, `exp`, `powf` and `sin` on every `f64`, NaN and infinities among
// them. Each is proved equal to its definition in specs/Steps.antt. Beside them stand the tests and
// the choice on floats that every formula may need (specs/Tests.antt), and a float's class (specs/Classes.antt).
#![tactic(auto)]

ghost use Rattle.std.specs.Prelude.{◌≡◌, false, ◌≤◌, ◌^◌};
ghost use Rattle.std.specs.Float.{nan, inf, binary64};
ghost use Rattle.std.specs.Float.Ieee.{to_bits, of_bits, minus};
ghost use Rattle.std.specs.Float.Ieee.Scale.{finite};
ghost use Rattle.elementary.specs.Split.{two^, signed, Within};
ghost use Rattle.elementary.specs.Arithmetic.{whole};
ghost use Rattle.elementary.specs.Steps.{SQRT, LN, EXP, POW, SIN, ln_sum, sqrt_steps, ln_steps, exp_steps, pow_steps, exp_series, whole_of};
ghost use Rattle.elementary.specs.Tests.{between, max_of};

mod class;
mod split;

pub use class::{FloatClass, IMPLICIT_BIT, classify, exponent_field, sign_bit, significand_field};
pub use split::{Magnitude, Parts, Whole};
use split::{Positive, floor, positive_parts};

pub const LN_2: f64 = 0.6931471805599453;

// 2^-52, the unit in the last place of 1.
const ULP_OF_ONE: f64 = 0.0000000000000002220446049250313080847263336181640625;

// std's two constants, so that a contract says what they are.
pub fn nan() -> f64
    ensures { result ≡ nan }
{
    f64::NAN
}

pub fn infinity() -> f64
    ensures { result ≡ inf false }
{
    f64::INFINITY
}

// The bits of x; 7ff8000000000000 for every NaN.
pub fn to_bits(x: f64) -> u64
    ensures { result ≡ to_bits binary64 x }
{
    if x.is_nan() {
        return 0x7ff8_0000_0000_0000;
    }
    f64::to_bits(x)
}

// The float that 64 bits stand for. The NaN patterns, which lie above infinity's with either sign, are all the one NaN.
pub fn from_bits(bits: u64) -> f64
    ensures { result ≡ of_bits binary64 bits }
{
    if 0x7ff0_0000_0000_0000 < bits {
        if bits < 0x8000_0000_0000_0000 {
            return nan();
        }
    }
    if 0xfff0_0000_0000_0000 < bits {
        return nan();
    }
    f64::from_bits(bits)
}

// ---- tests and choices that the formulas share

// Neither a NaN nor an infinity.
pub fn is_finite(x: f64) -> bool
    ensures { result ≡ finite x }
{
    x.is_finite()
}

// From low to high, both ends included; false at a NaN.
pub fn is_between(low: f64, x: f64, high: f64) -> bool
    ensures { result ≡ between low x high }
{
    low <= x && x <= high
}

// Rust's f64::max: the other one where one is a NaN. Of two zeros of unlike sign Rust leaves open which it is; here it is the first.
pub fn max(a: f64, b: f64) -> f64
    ensures { result ≡ max_of a b }
{
    if a < b {
        b
    } else if a.is_nan() {
        b
    } else {
        a
    }
}

// ---- the fixed steps

// 2^(field - 1023), from the bits.
fn power(field: u64) -> f64
    requires { (1 ≤ field) × (field ≤ 2046) }
    ensures { result ≡ two^ (minus field 1023) }
{
    f64::from_bits(field * 0x10_0000_0000_0000)
}

// A whole number of at most 2^53 as a float, which holds it exactly.
fn number(n: u64) -> f64
    requires { n ≤ 2 ^ 53 }
    ensures { result ≡ whole n }
{
    n as f64
}

// 2^n, or 2^-n.
fn signed_power(negative: bool, n: u64) -> f64
    requires { n ≤ 1022 }
    ensures { result ≡ two^ (signed negative n) }
{
    if negative {
        power(1023 - n)
    } else {
        power(1023 + n)
    }
}

// The root of a magnitude: with w its significand, or twice that, which makes its exponent even, the root of w by half the exponent's power.
fn sqrt_steps(x: Magnitude) -> f64
    ensures { result ≡ sqrt_steps x.significand x.digits }
{
    let half = (x.digits - 1) / 2;
    let significand = number(x.significand);
    let w = if x.digits % 2 == 1 {
        significand
    } else {
        2.0 * significand
    };
    w.sqrt() * power(half + 460)
}

// A normal number's root is the language's own operation, and so is +infinity's. What else there is, is taken apart, so that a subnormal
// number is brought to 53 digits first.
pub fn sqrt(x: f64) -> f64
    ensures { result ≡ SQRT x }
{
    if f64::MIN_POSITIVE <= x {
        return x.sqrt();
    }
    match positive_parts(x) {
        Positive::Not(answer) => answer,
        Positive::Zero { negative } => { if negative { -0.0 } else { 0.0 } }
        Positive::Finite(magnitude) => sqrt_steps(magnitude),
    }
}

// LN's sum, for m and e = digits - 1075.
fn ln_sum(m: f64, digits: u64) -> f64
    requires { digits ≤ 2 ^ 53 }
    ensures { result ≡ ln_sum m digits }
{
    let t = (m - 1.0) / (m + 1.0);
    let u = t * t;
    let mut p = 1.0 / 21.0;
    for k in [19.0, 17.0, 15.0, 13.0, 11.0, 9.0, 7.0, 5.0, 3.0, 1.0] {
        p = p * u + 1.0 / k;
    }
    let e = number(digits) - 1075.0;
    e * LN_2 + 2.0 * t * p
}

// LN of a magnitude.
fn ln_steps(x: Magnitude) -> f64
    ensures { result ≡ ln_steps x.significand x.digits }
{
    let m = number(x.significand) * ULP_OF_ONE;
    if 1.4142135623730951 < m {
        ln_sum(0.5 * m, x.digits + 1)
    } else {
        ln_sum(m, x.digits)
    }
}

pub fn ln(x: f64) -> f64
    ensures { result ≡ LN x }
{
    match positive_parts(x) {
        Positive::Not(answer) => answer,
        Positive::Zero { negative: _ } => nan(),
        Positive::Finite(magnitude) => ln_steps(magnitude),
    }
}

// EXP's series, for r.
fn exp_series(r: f64) -> f64
    ensures { result ≡ exp_series r }
{
    let mut p = 1.0;
    for j in [
        13.0, 12.0, 11.0, 10.0, 9.0, 8.0, 7.0, 6.0, 5.0, 4.0, 3.0, 2.0, 1.0,
    ] {
        p = 1.0 + r * p / j;
    }
    p
}

// EXP's steps between its two bounds.
fn exp_steps(y: f64) -> f64
    requires { Within 746 y }
    ensures { result ≡ exp_steps y }
{
    let k = floor(y / LN_2 + 0.5);
    let half = k.size / 2;
    let p = exp_series(y - signed_number(k) * LN_2);
    p * signed_power(k.negative, half) * signed_power(k.negative, k.size - half)
}

// A whole number as a float.
fn signed_number(n: Whole) -> f64
    requires { n.size ≤ 2 ^ 53 }
    ensures { result ≡ whole_of n }
{
    if n.negative {
        -number(n.size)
    } else {
        number(n.size)
    }
}

pub fn exp(y: f64) -> f64
    ensures { result ≡ EXP y }
{
    if y.is_nan() {
        return nan();
    }
    if 710.0 <= y {
        return infinity();
    }
    if y <= -746.0 {
        return 0.0;
    }
    exp_steps(y)
}

pub fn powf(x: f64, y: f64) -> f64
    ensures { result ≡ POW x y }
{
    if x < 0.0 {
        return nan();
    }
    if y == 0.0 {
        return 1.0;
    }
    if x == 1.0 {
        return 1.0;
    }
    if x.is_nan() || y.is_nan() {
        return nan();
    }
    pow_steps(x, y)
}

// POW's steps past its tests.
fn pow_steps(x: f64, y: f64) -> f64
    ensures { result ≡ pow_steps x y }
{
    if x == 0.0 {
        if 0.0 < y { 0.0 } else { infinity() }
    } else {
        exp(y * ln(x))
    }
}

pub fn sin(x: f64) -> f64
    ensures { result ≡ SIN x }
{
    let z = x * x;
    let mut p = 1.0;
    for k in [
        506.0, 420.0, 342.0, 272.0, 210.0, 156.0, 110.0, 72.0, 42.0, 20.0, 6.0,
    ] {
        p = 1.0 - z * p / k;
    }
    x * p
}
