// The fields of a float's 64 bits, and which of IEEE 754's five classes they make it. The fields are taken out here and nowhere
// else, and whoever takes a number apart goes by the class. specs/Classes.antt has the standard's table.
ghost use Rattle.std.specs.Prelude.{◌≡◌};
ghost use Rattle.elementary.specs.Classes.{sign_bit, exponent_field, significand_field, InClass};

// 2^52: the bit that a normal number's significand has above its field.
pub const IMPLICIT_BIT: u64 = 0x10_0000_0000_0000;

#[derive(Clone, Copy, Debug, PartialEq, Eq)]
pub enum FloatClass {
    Zero,
    Subnormal,
    Normal,
    Infinity,
    NaN,
}

// Whether the number is negative, zeros and infinities too.
pub fn sign_bit(bits: u64) -> bool
    ensures { result ≡ sign_bit bits }
{
    0x8000_0000_0000_0000 <= bits
}

pub fn exponent_field(bits: u64) -> u64
    ensures { result ≡ exponent_field bits }
{
    bits % 0x8000_0000_0000_0000 / IMPLICIT_BIT
}

pub fn significand_field(bits: u64) -> u64
    ensures { result ≡ significand_field bits }
{
    bits % IMPLICIT_BIT
}

pub fn classify(bits: u64) -> FloatClass
    ensures { InClass result bits }
{
    let exponent = exponent_field(bits);
    let significand = significand_field(bits);
    match exponent {
        0 => {
            if significand == 0 {
                FloatClass::Zero
            } else {
                FloatClass::Subnormal
            }
        }
        2047 => {
            if significand == 0 {
                FloatClass::Infinity
            } else {
                FloatClass::NaN
            }
        }
        _ => FloatClass::Normal,
    }
}
