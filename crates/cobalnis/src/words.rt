// A part and a sheet as words of 64 bits, the form in which a program in C or Rust holds them. Every list of words of the right number
// stands for a part or a sheet, whatever the words are, but for a shape's number above 5, which the callers refuse.
ghost use Rattle.std.specs.Prelude.{◌≡◌, ◌+◌, ◌≤◌, length, drop};
ghost use Rattle.std.proofs.lemmas.List.Edits.{sets};
ghost use Rattle.elementary.specs.Arithmetic.{bits};
ghost use Rattle.sheet_data.specs.Layout.{most_parts};
ghost use Rattle.cobalnis.specs.Words.{part_word_count, first_part, sheet_word_count, every, spread, float, float_words, own_of, own_flag, own_bits, part_of, part_chunks, part_words, settings_of, settings_words, sheet_of, sheet_words, shapes_known};

use shapes::NoseShape;
use sheet_data::layout::{COLUMNS, FINISHES, PARTS};
use sheet_data::{Design, Part, Settings, Sheet};
use std::array;

// Where the words lie: the number of finishes, the roughnesses, B, the number of columns, the Machs, the Reynolds numbers, the nozzle diameter, the number of parts, the parts.
pub const PART_WORDS: usize = 8;

pub const FINISHES_AT: usize = 1;

pub const ROUGHNESSES_AT: usize = FINISHES_AT + 1;

pub const FINENESS_AT: usize = ROUGHNESSES_AT + FINISHES;

pub const COLUMNS_AT: usize = FINENESS_AT + 1;

pub const MACHS_AT: usize = COLUMNS_AT + 1;

pub const REYNOLDS_AT: usize = MACHS_AT + COLUMNS;

pub const SETTINGS_WORDS: usize = REYNOLDS_AT + COLUMNS;

pub const NOZZLE_AT: usize = SETTINGS_WORDS;

pub const PARTS_AT: usize = NOZZLE_AT + 1;

pub const FIRST_PART: usize = PARTS_AT + 1;

pub const SHEET_WORDS: usize = FIRST_PART + PARTS * PART_WORDS;

// ---- from words

// A part's roughness from its flag and its word, which is not looked at where the flag is 0.
fn own_of(flag: u64, word: u64) -> Option<f64>
    ensures { result ≡ own_of flag (bits word) }
{
    (flag != 0).then(|| elementary::from_bits(word))
}

pub fn part_of(words: &[u64; PART_WORDS]) -> Part
    ensures { result ≡ part_of words.now }
{
    let [
        shape,
        parameter,
        length,
        aft_diameter,
        joint_angle,
        wetted_ratio,
        own,
        roughness,
    ] = *words;
    Part {
        shape: NoseShape::of_number(shape, elementary::from_bits(parameter)),
        length: elementary::from_bits(length),
        aft_diameter: elementary::from_bits(aft_diameter),
        joint_angle: elementary::from_bits(joint_angle),
        wetted_ratio: elementary::from_bits(wetted_ratio),
        roughness: own_of(own, roughness),
    }
}

// So many floats from a sheet's words.
fn floats_at<const N: usize>(words: &[u64; SHEET_WORDS], at: usize) -> [f64; N]
    requires { at + N ≤ sheet_word_count }
    ensures { result ≡ every float 1 N (drop at words.now) }
{
    array::from_fn(|i| elementary::from_bits(words[at + i]))
}

// The words of each part.
#[tactic(auto, using(crate::proofs::Turns::chunks_all))]
fn part_chunks(words: &[u64; SHEET_WORDS]) -> &[[u64; PART_WORDS]]
    ensures chunks { result.now ≡ part_chunks words.now }
    ensures count { length result.now ≡ most_parts }
{
    let (chunks, _) = words[FIRST_PART..].as_chunks();
    chunks
}

fn parts_of(words: &[u64; SHEET_WORDS]) -> [Part; PARTS]
    ensures { result ≡ every part_of part_word_count most_parts (drop first_part words.now) }
{
    let chunks = part_chunks(words);
    array::from_fn(|i| part_of(&chunks[i]))
}

pub fn settings_of(words: &[u64; SHEET_WORDS]) -> Settings
    ensures { result ≡ settings_of words.now }
{
    let machs = floats_at(words, MACHS_AT);
    let reynolds = floats_at(words, REYNOLDS_AT);
    Settings {
        reference_diameter: elementary::from_bits(words[0]),
        finishes: words[FINISHES_AT] as usize,
        roughnesses: floats_at(words, ROUGHNESSES_AT),
        body_fineness: elementary::from_bits(words[FINENESS_AT]),
        count: words[COLUMNS_AT] as usize,
        machs,
        reynolds,
    }
}

pub fn sheet_of(words: &[u64; SHEET_WORDS]) -> Sheet
    ensures { result ≡ sheet_of words.now }
{
    let settings = settings_of(words);
    let parts = parts_of(words);
    Sheet {
        settings,
        design: Design {
            count: words[PARTS_AT] as usize,
            parts,
        },
        nozzle_diameter: elementary::from_bits(words[NOZZLE_AT]),
    }
}

// Whether each of a sheet's shapes has a number up to 5.
pub fn shapes_known(words: &[u64; SHEET_WORDS]) -> bool
    ensures { result ≡ shapes_known most_parts (drop first_part words.now) }
{
    part_chunks(words).iter().all(|part| part[0] <= 5)
}

// ---- to words

// A part's roughness as flag and word, both 0 for the settings' one.
fn own_flag(roughness: Option<f64>) -> u64
    ensures { result ≡ own_flag roughness }
{
    u64::from(roughness.is_some())
}

fn own_bits(roughness: Option<f64>) -> u64
    ensures { result ≡ own_bits roughness }
{
    roughness.map_or(0, elementary::to_bits)
}

pub fn part_words(part: Part) -> [u64; PART_WORDS]
    ensures { result ≡ part_words part }
{
    let shape = part.shape;
    let roughness = part.roughness;
    [
        shape.number() as u64,
        elementary::to_bits(shape.parameter()),
        elementary::to_bits(part.length),
        elementary::to_bits(part.aft_diameter),
        elementary::to_bits(part.joint_angle),
        elementary::to_bits(part.wetted_ratio),
        own_flag(roughness),
        own_bits(roughness),
    ]
}

#[tactic(auto, using(crate::proofs::Turns::float_more), unfolding(crate::specs::Words::spread))]
fn put_floats<const N: usize>(floats: [f64; N], words: &mut [u64; SHEET_WORDS], start: usize)
    requires { start + N ≤ sheet_word_count }
    ensures { words.new ≡ sets words.old start (spread float_words floats.entry) }
{
    // By place, as in `fill` (noses.rt).
    for (i, float) in floats.iter().enumerate() {
        words[start + i] = elementary::to_bits(*float);
    }
}

#[tactic(auto, using(sheet_text::proofs::Puts::put_there))]
fn put_part(part: Part, words: &mut [u64; SHEET_WORDS], at: usize)
    requires { at + part_word_count ≤ sheet_word_count }
    ensures { words.new ≡ sets words.old at (part_words part) }
{
    words[at..at + PART_WORDS].copy_from_slice(&part_words(part));
}

#[tactic(auto, using(crate::proofs::Turns::part_more), unfolding(crate::specs::Words::spread))]
fn put_parts(parts: [Part; PARTS], words: &mut [u64; SHEET_WORDS])
    ensures { words.new ≡ sets words.old first_part (spread part_words parts) }
{
    // By place, as above.
    for (i, part) in parts.iter().enumerate() {
        put_part(*part, words, FIRST_PART + PART_WORDS * i);
    }
}

// The settings' words, which come first.
#[tactic(auto, using(sheet_text::proofs::Puts::sets_append, crate::proofs::Turns::floats_long))]
pub fn put_settings(settings: Settings, words: &mut [u64; SHEET_WORDS])
    ensures { words.new ≡ sets words.old 0 (settings_words settings) }
{
    let machs = settings.machs;
    let reynolds = settings.reynolds;
    words[0] = elementary::to_bits(settings.reference_diameter);
    words[FINISHES_AT] = settings.finishes as u64;
    put_floats(settings.roughnesses, words, ROUGHNESSES_AT);
    words[FINENESS_AT] = elementary::to_bits(settings.body_fineness);
    words[COLUMNS_AT] = settings.count as u64;
    put_floats(machs, words, MACHS_AT);
    put_floats(reynolds, words, REYNOLDS_AT);
}

pub fn sheet_words(sheet: Sheet) -> [u64; SHEET_WORDS]
    ensures { result ≡ sheet_words sheet }
{
    let settings = sheet.settings;
    let design = sheet.design;
    let parts = design.parts;
    let mut out = [0u64; SHEET_WORDS];
    put_settings(settings, &mut out);
    out[NOZZLE_AT] = elementary::to_bits(sheet.nozzle_diameter);
    out[PARTS_AT] = design.count as u64;
    put_parts(parts, &mut out);
    out
}
