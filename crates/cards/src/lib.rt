// Cards (docs/REFERENCE.md, Cards): the bytes of a settings card and of a part card, read from a
// position of lent bytes. Each function answers what its definition gives, whatever the bytes are.
#![tactic(auto)]

ghost use Rattle.std.specs.Prelude.{◌≡◌};
ghost use Rattle.cards.specs.Fields.{Took};
ghost use Rattle.cards.specs.Cards.{takes_parameter, parameter_right, shape_at, roughness_at, part_fields, part_at, no_settings, roughnesses_at, finishes_at, settings_fields, settings_at};

mod fields;

use aero_error::{AeroError, Rule, unless};
use fields::{NUMBER_BYTES, PAIR_BYTES, Reader, bit, pairs_at, roughnesses_at};
use shapes::NoseShape;
use sheet_data::checks::check_finishes;
use sheet_data::layout::{COLUMNS, FINISHES};
use sheet_data::{Part, Settings};

// The most bytes of a settings card: bit map, D, B, the count and the columns, the count and the roughnesses. A card with these has
// no roughness of bit 1.
pub const SETTINGS_BYTES: usize = 1
    + 2 * NUMBER_BYTES
    + 1
    + COLUMNS * PAIR_BYTES
    + 1
    + FINISHES * NUMBER_BYTES;

// The most bytes of a part card: bit map, shape, parameter, L, d, joint angle, w and roughness.
pub const PART_BYTES: usize = 1 + 1 + 6 * NUMBER_BYTES;

// ---- part cards

// By the card's number: the shape is made only once its parameter is read.
fn takes_parameter(number: u8) -> bool
    ensures { result ≡ takes_parameter number }
{
    number != 0 && number != 2
}

// Whether the parameter is present where it must be, and isn't where it mustn't.
fn parameter_right(present: bool, number: u8) -> bool
    ensures { result ≡ parameter_right present number }
{
    present == takes_parameter(number)
}

impl Reader<'_> {
    // The shape byte, then the parameter, judged and read.
    #[inline(always)]
    #[tactic(auto, unfolding(crate::specs::Cards::shape_at, crate::specs::Cards::parameter_at))]
    fn shape(&mut self, map: u8) -> Result<NoseShape, AeroError>
        ensures { Took (shape_at map) self.old result self.new }
    {
        let number = self.byte(bit(map, 0))?;
        unless(5 < number, Rule::ReservedBit)?;
        let present = bit(map, 1);
        unless(!parameter_right(present, number), Rule::FieldMissing)?;
        let parameter = self.number(present)?;
        Ok(NoseShape::of_number(u64::from(number), parameter))
    }

    // The roughness of a part; the settings' one where it is not present.
    #[inline(always)]
    fn roughness(&mut self, present: bool) -> Result<Option<f64>, AeroError>
        ensures { Took (roughness_at present) self.old result self.new }
    {
        if present {
            Ok(Some(self.number(true)?))
        } else {
            Ok(None)
        }
    }

    // A part card whose bit map is read.
    #[inline(always)]
    #[tactic(auto, unfolding(crate::specs::Cards::part_fields))]
    fn part(&mut self, map: u8) -> Result<Part, AeroError>
        ensures { Took (part_fields map) self.old result self.new }
    {
        unless(127 < map, Rule::ReservedBit)?;
        let shape = self.shape(map)?;
        let length = self.number(bit(map, 2))?;
        let aft_diameter = self.number(bit(map, 3))?;
        let joint_angle = self.number(bit(map, 4))?;
        let wetted_ratio = self.number(bit(map, 5))?;
        let roughness = self.roughness(bit(map, 6))?;
        Ok(Part {
            shape,
            length,
            aft_diameter,
            joint_angle,
            wetted_ratio,
            roughness,
        })
    }

    // The number of finishes and their roughnesses, once that number is read.
    #[inline(always)]
    #[tactic(auto, unfolding(crate::specs::Cards::roughnesses_at))]
    fn roughnesses(&mut self, n: u8) -> Result<(usize, [f64; FINISHES]), AeroError>
        ensures { Took (roughnesses_at n) self.old result self.new }
    {
        let finishes = usize::from(n);
        check_finishes(finishes)?;
        unless(!self.has(NUMBER_BYTES * finishes), Rule::CardEnds)?;
        let roughnesses = roughnesses_at(finishes, self.bytes, self.at);
        self.at += NUMBER_BYTES * finishes;
        Ok((finishes, roughnesses))
    }

    // The same; one finish, of the roughness of bit 1, where no number is present.
    #[inline(always)]
    #[tactic(auto, unfolding(crate::specs::Cards::finishes_at))]
    fn finishes(
        &mut self,
        present: bool,
        roughness: f64,
    ) -> Result<(usize, [f64; FINISHES]), AeroError>
        ensures { Took (finishes_at present roughness) self.old result self.new }
    {
        if !present {
            let mut roughnesses = [0.0; FINISHES];
            roughnesses[0] = roughness;
            return Ok((1, roughnesses));
        }
        let n = self.byte(true)?;
        self.roughnesses(n)
    }

    // A settings card whose bit map is read.
    #[inline(always)]
    #[tactic(auto, unfolding(crate::specs::Cards::settings_fields, crate::specs::Cards::columns_at))]
    fn settings(&mut self, map: u8) -> Result<Settings, AeroError>
        ensures { Took (settings_fields map) self.old result self.new }
    {
        unless(31 < map, Rule::ReservedBit)?;
        unless(!bit(map, 0), Rule::FieldMissing)?;
        unless(!bit(map, 2), Rule::FieldMissing)?;
        unless(bit(map, 1) && bit(map, 4), Rule::FieldMissing)?;
        let d = self.number(true)?;
        let roughness = self.number(bit(map, 1))?;
        let b = self.number(true)?;
        let n = self.byte(bit(map, 3))?;
        let count = usize::from(n);
        unless(COLUMNS < count, Rule::TooManyColumns)?;
        unless(!self.has(PAIR_BYTES * count), Rule::CardEnds)?;
        let columns = self.at;
        self.at += PAIR_BYTES * count;
        let (finishes, roughnesses) = self.finishes(bit(map, 4), roughness)?;
        // The pairs last, though their bytes come first: with arrays made before the last test, the
        // settings are cleared once more.
        let (machs, reynolds) = pairs_at(count, self.bytes, columns);
        Ok(Settings {
            reference_diameter: d,
            finishes,
            roughnesses,
            body_fineness: b,
            count,
            machs,
            reynolds,
        })
    }
}

// A part card, and the position after it. Inlined with what it calls, as the settings card below: handed on from answer to answer, a part goes through memory in pieces,
// and the card takes 1.4 times as long. A function that takes the reading of the card as a closure would serve both cards and be no shorter.
#[inline(always)]
#[tactic(auto, unfolding(crate::specs::Cards::part_at))]
pub fn read_part(s: &[u8], at: usize) -> Result<(Part, usize), AeroError>
    ensures { result ≡ part_at s.now at }
{
    let mut reader = Reader { bytes: s, at };
    let map = reader.byte(true)?;
    let part = reader.part(map)?;
    Ok((part, reader.at))
}

// A settings card, and the position after it. Inlined with what it calls: handed on from answer to answer, the arrays make it take 1.7 times as long.
#[inline(always)]
#[tactic(auto, unfolding(crate::specs::Cards::settings_at))]
pub fn read_settings(s: &[u8], at: usize) -> Result<(Settings, usize), AeroError>
    ensures { result ≡ settings_at s.now at }
{
    let mut reader = Reader { bytes: s, at };
    let map = reader.byte(true)?;
    let settings = reader.settings(map)?;
    Ok((settings, reader.at))
}

// Settings that say nothing, for a run whose settings card is refused.
pub fn no_settings() -> Settings
    ensures { result ≡ no_settings }
{
    Settings {
        reference_diameter: 0.0,
        finishes: 1,
        roughnesses: [0.0; FINISHES],
        body_fineness: 0.0,
        count: 0,
        machs: [0.0; COLUMNS],
        reynolds: [0.0; COLUMNS],
    }
}
