// Replays the stored answers of the original's functions from standard input, calling the library `cobalnis` as a program in C does, and
// prints how many agree. A line's tag says which function is called, its first six words are the arguments, and the other five the
// status and the words that the function writes; zeros stand where there are fewer. A line that can't be read does not agree.
//
//     f cobalnis_formula              its number, a, b, c, d, e         status, bits
//     d cobalnis_check_dimension      code, value, whether zero passes  status, bits
//     k cobalnis_takes_cone_formula   shape, parameter                  status, 1 or 0
//     p cobalnis_nose_point           nose, place                       status, Mach, drag
//     l cobalnis_nose_lookup          nose, Mach                        status, value, slope, first Mach
//     c cobalnis_curve at one Mach    shape, parameter, fineness,       status, coefficient, value refused, value at rest,
//                                     joint angle, Mach                 transonic lower bound
//     a cobalnis_nose_lookup's mark   nose, Mach                        status, mark
//     b cobalnis_curve's mark         as c                              status, mark
//
// The list, `stdin` beside this folder, is made in compare/:
//     cargo run --release --offline --bin formula_list > ../crates/formula_vectors/stdin
#![tactic(auto)]

ghost use Rattle.std.specs.Prelude.{◌≡◌};
ghost use Rattle.formula_vectors.specs.Lines.{named, float_at, is_answer, formula_at, dimension_at, cone_at, point_at, lookup_of, lookup_status, lookup_at, lookup_mark_at, curve_of, curve_at, curve_mark_at, function_of, answer_of, slot_of_function, asked, line_agrees, kind_of, after_line};

use cobalnis::{
    cobalnis_check_dimension, cobalnis_curve, cobalnis_formula, cobalnis_nose_lookup,
    cobalnis_nose_point, cobalnis_takes_cone_formula,
};
use replay::{Counts, NO_KIND, Replay, is_line, replay_all, tag_of, word_at};

// ---- arguments and answers

// What a word names as a u32; one that is too large names nothing.
fn named(word: u64) -> u32
    ensures { result ≡ named word }
{
    word.min(65535) as u32
}

fn float_at(line: &[u8], which: u8) -> f64
    ensures { result ≡ float_at line.now which }
{
    elementary::from_bits(word_at(line, which))
}

// Whether the line's last five words are this answer.
fn is_answer(line: &[u8], answer: [u64; 5]) -> bool
    ensures { result ≡ is_answer line.now answer }
{
    [
        word_at(line, 6),
        word_at(line, 7),
        word_at(line, 8),
        word_at(line, 9),
        word_at(line, 10),
    ] == answer
}

// ---- the functions

#[tactic(auto, unfolding(crate::specs::Lines::formula_at))]
fn formula(line: &[u8]) -> [u64; 5]
    ensures { result ≡ formula_at line.now }
{
    let a = float_at(line, 1);
    let b = float_at(line, 2);
    let c = float_at(line, 3);
    let d = float_at(line, 4);
    let e = float_at(line, 5);
    let mut bits = 0u64;
    let status = cobalnis_formula(named(word_at(line, 0)), a, b, c, d, e, &mut bits);
    [status as u64, bits, 0, 0, 0]
}

#[tactic(auto, unfolding(crate::specs::Lines::dimension_at))]
fn dimension(line: &[u8]) -> [u64; 5]
    ensures { result ≡ dimension_at line.now }
{
    let what = named(word_at(line, 0));
    let value = float_at(line, 1);
    let allow_zero = word_at(line, 2) == 1;
    let mut bits = 0u64;
    let status = cobalnis_check_dimension(what, value, allow_zero, &mut bits);
    [status as u64, bits, 0, 0, 0]
}

#[tactic(auto, unfolding(crate::specs::Lines::cone_at))]
fn cone(line: &[u8]) -> [u64; 5]
    ensures { result ≡ cone_at line.now }
{
    let mut takes = 0u64;
    let status = cobalnis_takes_cone_formula(word_at(line, 0), float_at(line, 1), &mut takes);
    [status as u64, takes, 0, 0, 0]
}

#[tactic(auto, unfolding(crate::specs::Lines::point_at))]
fn point(line: &[u8]) -> [u64; 5]
    ensures { result ≡ point_at line.now }
{
    let nose = named(word_at(line, 0));
    let place = word_at(line, 1) as usize;
    let mut out = [0u64; 2];
    let status = cobalnis_nose_point(nose, place, &mut out);
    [status as u64, out[0], out[1], 0, 0]
}

// A table read at a Mach: the status, and the four words that are written.
fn looked_up(line: &[u8]) -> (u32, [u64; 4])
    ensures { (result.0 ≡ lookup_status line.now) × (result.1 ≡ lookup_of line.now) }
{
    let nose = named(word_at(line, 0));
    let mach = float_at(line, 1);
    let mut out = [0u64; 4];
    let status = cobalnis_nose_lookup(nose, mach, &mut out);
    (status, out)
}

#[tactic(auto, unfolding(crate::specs::Lines::lookup_at))]
fn lookup(line: &[u8]) -> [u64; 5]
    ensures { result ≡ lookup_at line.now }
{
    let (status, out) = looked_up(line);
    [status as u64, out[0], out[1], out[2], 0]
}

#[tactic(auto, unfolding(crate::specs::Lines::lookup_mark_at))]
fn lookup_mark(line: &[u8]) -> [u64; 5]
    ensures { result ≡ lookup_mark_at line.now }
{
    let (status, out) = looked_up(line);
    [status as u64, out[3], 0, 0, 0]
}

// A curve at one Mach: the status, the coefficient, its mark, and what is said about the curve.
fn curve_words(line: &[u8]) -> [u64; 6]
    ensures { result ≡ curve_of line.now }
{
    let shape = word_at(line, 0);
    let parameter = float_at(line, 1);
    let fineness = float_at(line, 2);
    let angle = float_at(line, 3);
    let machs = [float_at(line, 4)];
    let mut out = [0u64; 1];
    let mut marks = [0u8; 1];
    let mut about = [0u64; 3];
    let status = cobalnis_curve(
        shape, parameter, fineness, angle, &machs, &mut out, &mut marks, &mut about,
    );
    [
        status as u64,
        out[0],
        marks[0] as u64,
        about[0],
        about[1],
        about[2],
    ]
}

#[tactic(auto, unfolding(crate::specs::Lines::curve_at))]
fn curve(line: &[u8]) -> [u64; 5]
    ensures { result ≡ curve_at line.now }
{
    let [status, word, _, refused, rest, low] = curve_words(line);
    [status, word, refused, rest, low]
}

#[tactic(auto, unfolding(crate::specs::Lines::curve_mark_at))]
fn curve_mark(line: &[u8]) -> [u64; 5]
    ensures { result ≡ curve_mark_at line.now }
{
    let words = curve_words(line);
    [words[0], words[2], 0, 0, 0]
}

// ---- lines

// The function that a line asks for.
#[derive(Clone, Copy)]
enum Function {
    Formula,
    Dimension,
    Cone,
    Point,
    Lookup,
    CurveAtMach,
    LookupMark,
    CurveMark,
}

impl Function {
    #[tactic(auto, unfolding(crate::specs::Lines::function_of))]
    fn of_tag(tag: u8) -> Option<Function>
        ensures { result ≡ function_of tag }
    {
        match tag {
            b'f' => Some(Function::Formula),
            b'd' => Some(Function::Dimension),
            b'k' => Some(Function::Cone),
            b'p' => Some(Function::Point),
            b'l' => Some(Function::Lookup),
            b'c' => Some(Function::CurveAtMach),
            b'a' => Some(Function::LookupMark),
            b'b' => Some(Function::CurveMark),
            _ => None,
        }
    }

    // Its status and words at the line's arguments.
    fn answer(self, line: &[u8]) -> [u64; 5]
        ensures { result ≡ answer_of self line.now }
    {
        match self {
            Function::Formula => formula(line),
            Function::Dimension => dimension(line),
            Function::Cone => cone(line),
            Function::Point => point(line),
            Function::Lookup => lookup(line),
            Function::CurveAtMach => curve(line),
            Function::LookupMark => lookup_mark(line),
            Function::CurveMark => curve_mark(line),
        }
    }

    // Where it is counted: a formula at its number, the other functions after the 22 formulas.
    fn slot(self, number: u64) -> u64
        ensures { result ≡ slot_of_function self number }
    {
        match self {
            Function::Formula => { if number < 22 { number } else { NO_KIND } }
            Function::Dimension => 22,
            Function::Cone => 23,
            Function::Point => 24,
            Function::Lookup => 25,
            Function::CurveAtMach => 26,
            Function::LookupMark => 27,
            Function::CurveMark => 28,
        }
    }
}

// Whether the line's answer is that of the function of this tag, word by word.
fn asked(tag: u8, line: &[u8]) -> bool
    ensures { result ≡ asked tag line.now }
{
    Function::of_tag(tag).is_some_and(|function| is_answer(line, function.answer(line)))
}

// Whether the whole line can be read, and its answer is the function's.
fn agrees(line: &[u8]) -> bool
    ensures { result ≡ line_agrees line.now }
{
    is_line(line) && asked(tag_of(line), line)
}

// Where a line is counted; one that asks for no function in the last slot.
fn kind_of(tag: u8, number: u64) -> u64
    ensures { result ≡ kind_of tag number }
{
    Function::of_tag(tag).map_or(NO_KIND, |function| function.slot(number))
}

// One line more.
fn after(counts: Counts, line: &[u8]) -> Counts
    ensures { result ≡ after_line counts line.now }
{
    let kind = kind_of(tag_of(line), word_at(line, 0));
    counts.counted(kind, agrees(line))
}

#[derive(Drop)]
struct Formulas {
    counts: Counts,
}

impl Replay for Formulas {
    ghost takes = { λ before line now. now.counts ≡ after_line before.counts line };

    fn line(&mut self, line: &[u8]) {
        self.counts = after(self.counts, line);
    }
}

// ---- what is printed: the formulas by their numbers, then the other functions

const NAMES: [&[u8]; 29] = [
    b"0 sqrt",
    b"1 ln",
    b"2 exp",
    b"3 powf",
    b"4 sin",
    b"5 check_mach_any",
    b"6 critical_reynolds",
    b"7 incompressible_skin_friction",
    b"8 skin_friction_coefficient",
    b"9 body_friction_form_factor",
    b"10 stagnation_pressure_ratio",
    b"11 stagnation_drag_coefficient",
    b"12 base_drag_coefficient",
    b"13 joint_pressure_drag_coefficient",
    b"14 boattail_factor",
    b"15 subsonic_pressure_drag_coefficient",
    b"16 ogive_pressure_drag_factor",
    b"17 fineness_scaled_pressure_drag",
    b"18 ellipsoid_subsonic_pressure_drag",
    b"19 stagnation_ratio",
    b"20 VON_KARMAN",
    b"21 LV_HAACK",
    b"check_dimension",
    b"takes_cone_formula",
    b"nose_point",
    b"nose_lookup",
    b"curve",
    b"nose_lookup mark",
    b"curve mark",
];

fn main() {
    let mut list = Formulas {
        counts: Counts::none(),
    };
    replay_all(&mut list);
    list.counts.write_all(b"formulas");
    for (kind, name) in NAMES.iter().enumerate() {
        list.counts.write(name, kind as u64);
    }
}
