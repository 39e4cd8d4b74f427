// The static library for programs in C and Rust (`libcobalnis.a`, docs/REFERENCE.md): each function of `cobalnis` that C calls, by the C
// calling convention, and with its clauses. A function on words has `_raw` after its name, since the header's typed functions stand beside it.
#![tactic(auto)]

ghost use Rattle.std.specs.Prelude.{◌≡◌, cond, ltb};
ghost use Rattle.aero_error.specs.Checks.{dimension};
ghost use Rattle.cards.specs.Cards.{part_at, settings_at};
ghost use Rattle.cobalnis.specs.Answers.{ClassShown, no_such, formula_of, formula_status, formula_bits, dimension_status, dimension_bits, cone_status, cone_word, is_nose, point_status, point_words, lookup_words, WalkDone, curve_from, lent_words, CurveAnswered, CallDone, OpenShown, sheet_known, part_known, PartCard, SettingsCard};
ghost use Rattle.cobalnis.specs.Version.{version, layout};
ghost use Rattle.cobalnis.specs.Words.{part_of};
ghost use Rattle.drag_sheet.specs.Planes.{lent};
ghost use Rattle.drag_sheet.specs.Calls.{insert as insert_call, remove as remove_call, replace as replace_call, set_column as column_call, ignite as ignite_call, burnout as burnout_call};
ghost use Rattle.sheet_text.specs.Text.{Printed};

use cobalnis::{PART_WORDS, SHEET_WORDS};

#[unsafe(no_mangle)]
pub extern "C" fn cobalnis_version() -> u32
    ensures { result ≡ version }
{
    cobalnis::cobalnis_version()
}

#[unsafe(no_mangle)]
pub extern "C" fn cobalnis_layout() -> u32
    ensures { result ≡ layout }
{
    cobalnis::cobalnis_layout()
}

#[unsafe(no_mangle)]
pub extern "C" fn cobalnis_classify(bits: u64) -> u32
    ensures { ClassShown bits result }
{
    cobalnis::cobalnis_classify(bits)
}

#[unsafe(no_mangle)]
pub extern "C" fn cobalnis_formula_raw(
    which: u32,
    a: f64,
    b: f64,
    c: f64,
    d: f64,
    e: f64,
    bits: &mut u64,
) -> u32
    ensures { (result ≡ formula_status (formula_of which a b c d e)) × (bits.new ≡ formula_bits (formula_of which a b c d e) bits.old) }
{
    cobalnis::cobalnis_formula(which, a, b, c, d, e, bits)
}

#[unsafe(no_mangle)]
pub extern "C" fn cobalnis_check_dimension_raw(
    what: u32,
    value: f64,
    allow_zero: bool,
    bits: &mut u64,
) -> u32
    ensures { (result ≡ dimension_status what (dimension value allow_zero)) × (bits.new ≡ dimension_bits what (dimension value allow_zero) value bits.old) }
{
    cobalnis::cobalnis_check_dimension(what, value, allow_zero, bits)
}

#[unsafe(no_mangle)]
pub extern "C" fn cobalnis_takes_cone_formula_raw(
    shape: u64,
    parameter: f64,
    takes: &mut u64,
) -> u32
    ensures { (result ≡ cone_status shape) × (takes.new ≡ cone_word shape parameter takes.old) }
{
    cobalnis::cobalnis_takes_cone_formula(shape, parameter, takes)
}

#[unsafe(no_mangle)]
pub extern "C" fn cobalnis_nose_point_raw(nose: u32, place: usize, out: &mut [u64; 2]) -> u32
    ensures { (result ≡ point_status nose place) × (out.new ≡ point_words nose place out.old) }
{
    cobalnis::cobalnis_nose_point(nose, place, out)
}

#[unsafe(no_mangle)]
pub extern "C" fn cobalnis_nose_lookup_raw(nose: u32, mach: f64, out: &mut [u64; 4]) -> u32
    ensures { (result ≡ cond (is_nose nose) 0 no_such) × (out.new ≡ lookup_words nose mach out.old) }
{
    cobalnis::cobalnis_nose_lookup(nose, mach, out)
}

#[unsafe(no_mangle)]
pub extern "C" fn cobalnis_nose_walk_raw(
    nose: u32,
    machs: &[f64],
    answers: &mut [f64],
    compared: &mut usize,
    bits: &mut u64,
) -> u32
    ensures { WalkDone (is_nose nose) nose machs.now answers.old compared.old bits.old result answers.new compared.new bits.new }
{
    cobalnis::cobalnis_nose_walk(nose, machs, answers, compared, bits)
}

#[unsafe(no_mangle)]
pub extern "C" fn cobalnis_curve_raw(
    shape: u64,
    parameter: f64,
    fineness_ratio: f64,
    joint_angle_rad: f64,
    machs: &[f64],
    out: &mut [u64],
    marks: &mut [u8],
    said: &mut [u64; 3],
) -> u32
    ensures { CurveAnswered (ltb 6 shape) (curve_from shape parameter fineness_ratio joint_angle_rad) machs.now (lent_words out.old marks.old) said.old result (lent_words out.new marks.new) said.new }
{
    cobalnis::cobalnis_curve(
        shape,
        parameter,
        fineness_ratio,
        joint_angle_rad,
        machs,
        out,
        marks,
        said,
    )
}

#[unsafe(no_mangle)]
pub extern "C" fn cobalnis_open_raw(
    words: &mut [u64; SHEET_WORDS],
    cells: &mut [f64],
    marks: &mut [u8],
    bits: &mut u64,
) -> u32
    ensures { OpenShown words.old (lent cells.old marks.old) result words.new bits.new (lent cells.new marks.new) }
{
    cobalnis::cobalnis_open(words, cells, marks, bits)
}

#[unsafe(no_mangle)]
pub extern "C" fn cobalnis_insert_raw(
    words: &mut [u64; SHEET_WORDS],
    place: usize,
    part: &[u64; PART_WORDS],
    cells: &mut [f64],
    marks: &mut [u8],
    bits: &mut u64,
) -> u32
    ensures { CallDone (part_known part.now words.old) (insert_call place (part_of part.now)) words.old (lent cells.old marks.old) result words.new bits.new (lent cells.new marks.new) }
{
    cobalnis::cobalnis_insert(words, place, part, cells, marks, bits)
}

#[unsafe(no_mangle)]
pub extern "C" fn cobalnis_replace_raw(
    words: &mut [u64; SHEET_WORDS],
    place: usize,
    part: &[u64; PART_WORDS],
    cells: &mut [f64],
    marks: &mut [u8],
    bits: &mut u64,
) -> u32
    ensures { CallDone (part_known part.now words.old) (replace_call place (part_of part.now)) words.old (lent cells.old marks.old) result words.new bits.new (lent cells.new marks.new) }
{
    cobalnis::cobalnis_replace(words, place, part, cells, marks, bits)
}

#[unsafe(no_mangle)]
pub extern "C" fn cobalnis_remove_raw(
    words: &mut [u64; SHEET_WORDS],
    place: usize,
    cells: &mut [f64],
    marks: &mut [u8],
    bits: &mut u64,
) -> u32
    ensures { CallDone (sheet_known words.old) (remove_call place) words.old (lent cells.old marks.old) result words.new bits.new (lent cells.new marks.new) }
{
    cobalnis::cobalnis_remove(words, place, cells, marks, bits)
}

#[unsafe(no_mangle)]
pub extern "C" fn cobalnis_set_column_raw(
    words: &mut [u64; SHEET_WORDS],
    column: usize,
    mach: f64,
    reynolds: f64,
    cells: &mut [f64],
    marks: &mut [u8],
    bits: &mut u64,
) -> u32
    ensures { CallDone (sheet_known words.old) (column_call column mach reynolds) words.old (lent cells.old marks.old) result words.new bits.new (lent cells.new marks.new) }
{
    cobalnis::cobalnis_set_column(words, column, mach, reynolds, cells, marks, bits)
}

#[unsafe(no_mangle)]
pub extern "C" fn cobalnis_ignite_raw(
    words: &mut [u64; SHEET_WORDS],
    nozzle_diameter: f64,
    cells: &mut [f64],
    marks: &mut [u8],
    bits: &mut u64,
) -> u32
    ensures { CallDone (sheet_known words.old) (ignite_call nozzle_diameter) words.old (lent cells.old marks.old) result words.new bits.new (lent cells.new marks.new) }
{
    cobalnis::cobalnis_ignite(words, nozzle_diameter, cells, marks, bits)
}

#[unsafe(no_mangle)]
pub extern "C" fn cobalnis_burnout_raw(
    words: &mut [u64; SHEET_WORDS],
    cells: &mut [f64],
    marks: &mut [u8],
    bits: &mut u64,
) -> u32
    ensures { CallDone (sheet_known words.old) burnout_call words.old (lent cells.old marks.old) result words.new bits.new (lent cells.new marks.new) }
{
    cobalnis::cobalnis_burnout(words, cells, marks, bits)
}

#[unsafe(no_mangle)]
pub extern "C" fn cobalnis_read_settings_raw(
    bytes: &[u8],
    at: usize,
    words: &mut [u64; SHEET_WORDS],
    next: &mut usize,
) -> u32
    ensures { SettingsCard (settings_at bytes.now at) result words.old words.new next.old next.new }
{
    cobalnis::cobalnis_read_settings(bytes, at, words, next)
}

#[unsafe(no_mangle)]
pub extern "C" fn cobalnis_read_part_raw(
    bytes: &[u8],
    at: usize,
    words: &mut [u64; PART_WORDS],
    next: &mut usize,
) -> u32
    ensures { PartCard (part_at bytes.now at) result words.old words.new next.old next.new }
{
    cobalnis::cobalnis_read_part(bytes, at, words, next)
}

#[unsafe(no_mangle)]
pub extern "C" fn cobalnis_print(bytes: &[u8], out: &mut [u8]) -> usize
    ensures { Printed bytes.now out.old result out.new }
{
    cobalnis::cobalnis_print(bytes, out)
}
