// The status and the bits of an answer, made in one place for all modules.
ghost use Rattle.std.specs.Prelude.{◌≡◌};
ghost use Rattle.std.specs.Float.Ieee.{to_bits};
ghost use Rattle.std.specs.Float.{binary64};
ghost use Rattle.aero_error.specs.Refusals.{refused_value};
ghost use Rattle.cobalnis.specs.Answers.{status_of, answer_status, answer_bits, tested};

use aero_error::AeroError;

// The status for a number that names no formula, shape, nose or quantity. A status is a number since C reads it.
pub(crate) const NO_SUCH: u32 = 65535;

pub(crate) fn status_of(e: AeroError) -> u32
    ensures { result ≡ status_of e }
{
    u32::from(e.number()) + 256 * u32::from(e.code())
}

pub(crate) fn refuse(e: AeroError, bits: &mut u64) -> u32
    ensures { (result ≡ status_of e) × (bits.new ≡ to_bits binary64 (refused_value e)) }
{
    *bits = elementary::to_bits(e.value());
    status_of(e)
}

pub(crate) fn hand_out(answer: Result<f64, AeroError>, bits: &mut u64) -> u32
    ensures { (result ≡ answer_status answer) × (bits.new ≡ answer_bits answer) }
{
    match answer {
        Ok(v) => {
            *bits = elementary::to_bits(v);
            0
        }
        Err(e) => refuse(e, bits),
    }
}

// A test that passes answers +0.
pub(crate) fn tested(check: Result<(), AeroError>) -> Result<f64, AeroError>
    ensures { result ≡ tested check }
{
    check.map(|()| 0.0)
}
