// The fields of a card (docs/REFERENCE.md, Cards): a byte, a float, a float of each column or of each
// finish, read from lent bytes.
ghost use Rattle.std.specs.Prelude.{◌≡◌, ◌+◌, ◌*◌, ◌≤◌, ◌<◌, length};
ghost use Rattle.elementary.specs.Arithmetic.{bits};
ghost use Rattle.sheet_data.specs.Layout.{most_columns, most_finishes};
ghost use Rattle.cards.specs.Fields.{number_bytes, pair_bytes, bit, has, eight_bytes, byte_at, number_at, numbers_at, Took};
ghost use Rattle.cards.specs.Cards.{slots};

use aero_error::{AeroError, Rule, unless};
use sheet_data::layout::{COLUMNS, FINISHES};

// The bytes of a float field, and of a column's two.
pub(crate) const NUMBER_BYTES: usize = 8;

pub(crate) const PAIR_BYTES: usize = 2 * NUMBER_BYTES;

// Lent bytes, and the position from which the next field is read. A refusal ends the reading.
#[derive(Drop)]
pub(crate) struct Reader<'a> {
    pub(crate) bytes: &'a [u8],
    pub(crate) at: usize,
}

// Whether a bit of the bit map stands, bit 0 the lowest.
pub(crate) fn bit(map: u8, k: u32) -> bool
    requires { k < 8 }
    ensures { result ≡ bit k map }
{
    (map >> k) % 2 == 1
}

// A float: eight bytes, low byte first.
#[tactic(auto, unfolding(crate::specs::Fields::eight_bytes))]
fn number_at(s: &[u8], at: usize) -> f64
    requires { at + number_bytes ≤ length s.now }
    ensures { result ≡ bits (eight_bytes s.now at) }
{
    elementary::from_bits(u64::from_le_bytes(*s[at..].first_chunk().unwrap()))
}

// The Machs and the Reynolds numbers of n pairs, each in an array for as many as there may be.
#[inline(always)]
#[tactic(auto, using(crate::proofs::Numbers::number_filled), unfolding(crate::specs::Fields::numbers_at))]
pub(crate) fn pairs_at(n: usize, s: &[u8], at: usize) -> ([f64; COLUMNS], [f64; COLUMNS])
    requires { (n ≤ most_columns) × (at + pair_bytes * n ≤ length s.now) }
    ensures machs { result.0 ≡ slots most_columns n (numbers_at pair_bytes n s.now at) }
    ensures reynolds { result.1 ≡ slots most_columns n (numbers_at pair_bytes n s.now (at + number_bytes)) }
{
    let mut machs = [0.0; COLUMNS];
    let mut reynolds = [0.0; COLUMNS];
    let (pairs, _) = s[at..at + PAIR_BYTES * n].as_chunks::<PAIR_BYTES>();
    // Both arrays by place: of what is written through a zip nothing is known.
    for (i, pair) in pairs.iter().enumerate() {
        machs[i] = number_at(pair, 0);
        reynolds[i] = number_at(pair, NUMBER_BYTES);
    }
    (machs, reynolds)
}

// n roughnesses, in an array for as many as there may be.
#[inline(always)]
#[tactic(auto, using(crate::proofs::Numbers::number_filled), unfolding(crate::specs::Fields::numbers_at))]
pub(crate) fn roughnesses_at(n: usize, s: &[u8], at: usize) -> [f64; FINISHES]
    requires { (n ≤ most_finishes) × (at + number_bytes * n ≤ length s.now) }
    ensures { result ≡ slots most_finishes n (numbers_at number_bytes n s.now at) }
{
    let mut roughnesses = [0.0; FINISHES];
    let (numbers, _) = s[at..at + NUMBER_BYTES * n].as_chunks::<NUMBER_BYTES>();
    // By place, as above.
    for (i, number) in numbers.iter().enumerate() {
        roughnesses[i] = number_at(number, 0);
    }
    roughnesses
}

impl Reader<'_> {
    // Whether there are n bytes more.
    pub(crate) fn has(&self, n: usize) -> bool
        ensures { result ≡ has self.now.bytes.now self.now.at n }
    {
        n <= self.bytes.len() && self.at <= self.bytes.len() - n
    }

    // A byte field; 0 where it is not present.
    pub(crate) fn byte(&mut self, present: bool) -> Result<u8, AeroError>
        ensures { Took (byte_at present) self.old result self.new }
    {
        if !present {
            return Ok(0);
        }
        unless(!self.has(1), Rule::CardEnds)?;
        let value = self.bytes[self.at];
        self.at += 1;
        Ok(value)
    }

    // A float field; +0 where it is not present.
    pub(crate) fn number(&mut self, present: bool) -> Result<f64, AeroError>
        ensures { Took (number_at present) self.old result self.new }
    {
        if !present {
            return Ok(0.0);
        }
        unless(!self.has(NUMBER_BYTES), Rule::CardEnds)?;
        let value = number_at(self.bytes, self.at);
        self.at += NUMBER_BYTES;
        Ok(value)
    }
}
