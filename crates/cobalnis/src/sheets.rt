// The sheet's calls on a sheet of words, answered in words. `called` does for each what they share; the call itself is a closure.
ghost use Rattle.std.specs.Prelude.{◌≡◌};
ghost use Rattle.drag_sheet.specs.Planes.{lent};
ghost use Rattle.drag_sheet.specs.Calls.{insert as insert_call, remove as remove_call, replace as replace_call, set_column as column_call, ignite as ignite_call, burnout as burnout_call, Call};
ghost use Rattle.cobalnis.specs.Words.{part_of};
ghost use Rattle.cobalnis.specs.Answers.{Shown, Makes, CallDone, OpenShown, sheet_known, part_known};

use crate::answers::refuse;
use crate::words;
use crate::words::{PART_WORDS, SHEET_WORDS};
use aero_error::{AeroError, Rule};
use sheet_data::Sheet;

// A call's answer in words: a refused one leaves them.
fn show(
    outcome: Result<(), AeroError>,
    sheet: Sheet,
    words: &mut [u64; SHEET_WORDS],
    bits: &mut u64,
) -> u32
    ensures { Shown outcome sheet words.old result words.new bits.new }
{
    match outcome {
        Ok(()) => {
            *words = words::sheet_words(sheet);
            *bits = 0;
            0
        }
        Err(e) => refuse(e, bits),
    }
}

// A call on the sheet of these words, where each shape has a number that is known. Which call the closure makes is said by `Makes`.
#[tactic(auto, using(crate::proofs::Tables::zero_bits))]
fn called<F: FnOnce(&mut Sheet, &mut [f64], &mut [u8]) -> Result<(), AeroError>>(
    known: bool,
    words: &mut [u64; SHEET_WORDS],
    cells: &mut [f64],
    marks: &mut [u8],
    bits: &mut u64,
    call: F,
) -> u32
    requires { F.IsAlwaysCallable call }
    ensures { (made : Call) → Makes (F.post call) made → CallDone known made words.old (lent cells.old marks.old) result words.new bits.new (lent cells.new marks.new) }
{
    if !known {
        return refuse(AeroError::Broken(Rule::ReservedBit), bits);
    }
    let mut sheet = words::sheet_of(words);
    let outcome = call(&mut sheet, cells, marks);
    show(outcome, sheet, words, bits)
}

// Whether the part given and each part of the sheet has a shape's number up to 5.
fn part_known(part: &[u64; PART_WORDS], words: &[u64; SHEET_WORDS]) -> bool
    ensures { result ≡ part_known part.now words.now }
{
    part[0] <= 5 && words::shapes_known(words)
}

// Opens a sheet with the settings of its words; its design is emptied.
pub fn cobalnis_open(
    words: &mut [u64; SHEET_WORDS],
    cells: &mut [f64],
    marks: &mut [u8],
    bits: &mut u64,
) -> u32
    ensures { OpenShown words.old (lent cells.old marks.old) result words.new bits.new (lent cells.new marks.new) }
{
    let (sheet, outcome) = drag_sheet::open(words::settings_of(words), cells, marks);
    show(outcome, sheet, words, bits)
}

// The six below are alike but for the call: C asks for one function each, and what they share is `called`.

pub fn cobalnis_insert(
    words: &mut [u64; SHEET_WORDS],
    place: usize,
    part: &[u64; PART_WORDS],
    cells: &mut [f64],
    marks: &mut [u8],
    bits: &mut u64,
) -> u32
    ensures { CallDone (part_known part.now words.old) (insert_call place (part_of part.now)) words.old (lent cells.old marks.old) result words.new bits.new (lent cells.new marks.new) }
{
    let known = part_known(part, words);
    let part = words::part_of(part);
    called(
        known,
        words,
        cells,
        marks,
        bits,
        |sheet, cells, marks| drag_sheet::insert(sheet, place, part, cells, marks),
    )
}

pub fn cobalnis_replace(
    words: &mut [u64; SHEET_WORDS],
    place: usize,
    part: &[u64; PART_WORDS],
    cells: &mut [f64],
    marks: &mut [u8],
    bits: &mut u64,
) -> u32
    ensures { CallDone (part_known part.now words.old) (replace_call place (part_of part.now)) words.old (lent cells.old marks.old) result words.new bits.new (lent cells.new marks.new) }
{
    let known = part_known(part, words);
    let part = words::part_of(part);
    called(
        known,
        words,
        cells,
        marks,
        bits,
        |sheet, cells, marks| drag_sheet::replace(sheet, place, part, cells, marks),
    )
}

pub fn cobalnis_remove(
    words: &mut [u64; SHEET_WORDS],
    place: usize,
    cells: &mut [f64],
    marks: &mut [u8],
    bits: &mut u64,
) -> u32
    ensures { CallDone (sheet_known words.old) (remove_call place) words.old (lent cells.old marks.old) result words.new bits.new (lent cells.new marks.new) }
{
    let known = words::shapes_known(words);
    called(
        known,
        words,
        cells,
        marks,
        bits,
        |sheet, cells, marks| drag_sheet::remove(sheet, place, cells, marks),
    )
}

pub fn cobalnis_set_column(
    words: &mut [u64; SHEET_WORDS],
    column: usize,
    mach: f64,
    reynolds: f64,
    cells: &mut [f64],
    marks: &mut [u8],
    bits: &mut u64,
) -> u32
    ensures { CallDone (sheet_known words.old) (column_call column mach reynolds) words.old (lent cells.old marks.old) result words.new bits.new (lent cells.new marks.new) }
{
    let known = words::shapes_known(words);
    called(
        known,
        words,
        cells,
        marks,
        bits,
        |sheet, cells, marks| drag_sheet::set_column(sheet, column, mach, reynolds, cells, marks),
    )
}

pub fn cobalnis_ignite(
    words: &mut [u64; SHEET_WORDS],
    nozzle_diameter: f64,
    cells: &mut [f64],
    marks: &mut [u8],
    bits: &mut u64,
) -> u32
    ensures { CallDone (sheet_known words.old) (ignite_call nozzle_diameter) words.old (lent cells.old marks.old) result words.new bits.new (lent cells.new marks.new) }
{
    let known = words::shapes_known(words);
    called(
        known,
        words,
        cells,
        marks,
        bits,
        |sheet, cells, marks| drag_sheet::ignite(sheet, nozzle_diameter, cells, marks),
    )
}

pub fn cobalnis_burnout(
    words: &mut [u64; SHEET_WORDS],
    cells: &mut [f64],
    marks: &mut [u8],
    bits: &mut u64,
) -> u32
    ensures { CallDone (sheet_known words.old) burnout_call words.old (lent cells.old marks.old) result words.new bits.new (lent cells.new marks.new) }
{
    let known = words::shapes_known(words);
    called(
        known,
        words,
        cells,
        marks,
        bits,
        |sheet, cells, marks| drag_sheet::burnout(sheet, cells, marks),
    )
}
