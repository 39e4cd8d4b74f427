// Replays lists of calls on a sheet from standard input, calling the library `cobalnis` as a program in C does, and prints how many
// calls agree: status, value refused, and the state after the call, which is the sheet's words, every cell and every mark. The stored
// lines are those of a model of the sheet (docs/REFERENCE.md, Sheet). A line's first eight words are the arguments, then come status,
// value refused and the state's number. Some lines change the state by hand, so that a call meets any sheet and any buffers; they are
// no calls and aren't counted, unless they don't agree.
//
//     o open                      no arguments
//     i insert, r replace         place, the part's first six words
//     m remove                    place
//     t set column                column, Mach, Reynolds number
//     n ignite                    nozzle diameter
//     b burnout                   no arguments
//     w words of the sheet        the first one's place, how many, up to six words
//     e finishes                  how many, the four roughnesses
//     k roughness of the parts    flag and bits, for the i and r lines that follow; 0 and 0 before the first one
//     l cells lent                how many
//     f all cells                 the first one's bits, and what each further one adds
//     p one cell                  its place, its bits
//     g all marks                 how many are lent, the first one's byte, and what each further one adds
//     h one mark                  its place, its byte
//
// A `w` line speaks of a sheet of one finish: the words are D, its roughness, B, the number of columns, and from the Machs on those
// of any sheet. Before the first `e` line there is one finish. Before the first `g` line all marks are 0, all are lent, and the state's
// number leaves them out.
//
// The list, `stdin` beside this folder, is made in compare/:
//     cargo run --release --offline --bin sheet_list > ../crates/sheet_vectors/stdin
#![tactic(auto)]

use cobalnis::{
    COLUMNS_AT, FINENESS_AT, FINISHES_AT, FIRST_PART, MACHS_AT, NOZZLE_AT, PART_WORDS, PARTS_AT,
    REYNOLDS_AT, ROUGHNESSES_AT, SHEET_WORDS, cobalnis_burnout, cobalnis_ignite, cobalnis_insert,
    cobalnis_open, cobalnis_remove, cobalnis_replace, cobalnis_set_column,
};
use elementary::{from_bits, to_bits};
use replay::{Counts, NO_KIND, Replay, is_line, replay_all, tag_of, word_at};
use sheet_data::layout::{CELLS, COLUMNS, PARTS};

// ---- the state's number

// One word more: xor, a turn by 23 bits, and a product with 2^40 + 435 that drops what is above 64 bits.
fn mixed(h: u64, x: u64) -> u64 {
    (h ^ x).rotate_left(23).wrapping_mul((1 << 40) + 435)
}

// A float's word, every NaN being one.
fn with_float(h: u64, word: u64) -> u64 {
    mixed(h, to_bits(from_bits(word)))
}

fn with_floats(h: u64, words: &[u64]) -> u64 {
    words.iter().fold(h, |h, word| with_float(h, *word))
}

// The Machs and the Reynolds numbers of the columns, as far as the sheet has so many.
fn with_columns(h: u64, words: &[u64; SHEET_WORDS]) -> u64 {
    let machs = words[MACHS_AT..REYNOLDS_AT].iter();
    let reynolds = words[REYNOLDS_AT..NOZZLE_AT].iter();
    machs.zip(reynolds).take(words[COLUMNS_AT] as usize).fold(
        h,
        |h, (mach, reynolds)| with_float(with_float(h, *mach), *reynolds),
    )
}

// The words of a part: a shape's number, five floats, a flag and a float.
fn with_part(h: u64, part: &[u64; PART_WORDS]) -> u64 {
    let h = with_floats(mixed(h, part[0]), &part[1..6]);
    with_float(mixed(h, part[6]), part[7])
}

// The parts, as far as the sheet has so many.
fn with_parts(h: u64, words: &[u64; SHEET_WORDS]) -> u64 {
    let (parts, _) = words[FIRST_PART..].as_chunks::<PART_WORDS>();
    parts
        .iter()
        .take(words[PARTS_AT] as usize)
        .fold(h, |h, part| with_part(h, part))
}

// Where there is one finish, its roughness comes with D and B, and nothing more is said of it here.
fn with_finishes(h: u64, words: &[u64; SHEET_WORDS]) -> u64 {
    let finishes = words[FINISHES_AT];
    if finishes == 1 {
        return h;
    }
    let roughnesses = words[ROUGHNESSES_AT..FINENESS_AT].iter();
    roughnesses.take(finishes as usize).fold(
        mixed(h, finishes),
        |h, roughness| with_float(h, *roughness),
    )
}

// Cells of the largest sheet of one finish, and a row more.
const CELLS_OF_ONE: usize = (PARTS + 4) * COLUMNS;

// The cells that count, and the marks: with one finish these, with any other number all.
fn cells_of(words: &[u64; SHEET_WORDS]) -> usize {
    if words[FINISHES_AT] == 1 {
        CELLS_OF_ONE
    } else {
        ROOM
    }
}

// The number of a sheet's words, as far as its counts reach, and of the cells.
fn number_of(words: &[u64; SHEET_WORDS], cells: &[f64]) -> u64 {
    let h = with_float(0xcbf2_9ce4_8422_2325, words[0]);
    let h = with_float(h, words[ROUGHNESSES_AT]);
    let h = with_float(h, words[FINENESS_AT]);
    let h = with_columns(mixed(h, words[COLUMNS_AT]), words);
    let h = with_float(h, words[NOZZLE_AT]);
    let h = with_parts(mixed(h, words[PARTS_AT]), words);
    let h = with_finishes(h, words);
    let counted = cells.iter().take(cells_of(words));
    counted.fold(h, |h, cell| mixed(h, to_bits(*cell)))
}

// The place of a word in the sheet by the place that a `w` line gives it.
fn place_of(at: usize) -> usize {
    match at {
        0 => 0,
        1 => ROUGHNESSES_AT,
        2 => FINENESS_AT,
        _ => at.saturating_add(COLUMNS_AT - 3),
    }
}

// ---- what a line asks for

// The calls, in the order in which they are printed.
#[derive(Clone, Copy)]
enum Call {
    Open,
    Replace,
    Insert,
    Remove,
    SetColumn,
    Ignite,
    Burnout,
}

const NAMES: [&[u8]; 7] = [
    b"open",
    b"replace",
    b"insert",
    b"remove",
    b"set column",
    b"ignite",
    b"burnout",
];

#[derive(Clone, Copy)]
enum Change {
    Words,
    Finishes,
    Roughness,
    Lent,
    Fill,
    Poke,
    Marks,
    PokeMark,
}

#[derive(Clone, Copy)]
enum Asked {
    Call(Call),
    Change(Change),
}

impl Asked {
    fn of_tag(tag: u8) -> Option<Asked> {
        Some(match tag {
            b'o' => Asked::Call(Call::Open),
            b'i' => Asked::Call(Call::Insert),
            b'r' => Asked::Call(Call::Replace),
            b'm' => Asked::Call(Call::Remove),
            b't' => Asked::Call(Call::SetColumn),
            b'n' => Asked::Call(Call::Ignite),
            b'b' => Asked::Call(Call::Burnout),
            b'w' => Asked::Change(Change::Words),
            b'e' => Asked::Change(Change::Finishes),
            b'k' => Asked::Change(Change::Roughness),
            b'l' => Asked::Change(Change::Lent),
            b'f' => Asked::Change(Change::Fill),
            b'p' => Asked::Change(Change::Poke),
            b'g' => Asked::Change(Change::Marks),
            b'h' => Asked::Change(Change::PokeMark),
            _ => return None,
        })
    }
}

// The last two words of a part, which its own line has no room for. C gives any flag, also one that is to be refused, so it is no Option.
#[derive(Clone, Copy)]
struct Roughness {
    flag: u64,
    bits: u64,
}

fn part_at(line: &[u8], roughness: Roughness) -> [u64; PART_WORDS] {
    [
        word_at(line, 1),
        word_at(line, 2),
        word_at(line, 3),
        word_at(line, 4),
        word_at(line, 5),
        word_at(line, 6),
        roughness.flag,
        roughness.bits,
    ]
}

// A mark's byte: a word's low one.
fn byte_at(line: &[u8], which: u8) -> u8 {
    (word_at(line, which) % 256) as u8
}

// ---- the state

// Room for one row of cells too many, and of marks.
const ROOM: usize = CELLS + COLUMNS;

// The sheet's words, all cells and all marks, how many of these are lent, whether the marks count in the state's number, the last two words of the parts
// given, and what is counted so far. How many are lent changes from line to line, more than there are too, so it is no slice.
#[derive(Drop)]
struct State {
    words: [u64; SHEET_WORDS],
    cells: [f64; ROOM],
    marks: [u8; ROOM],
    lent: usize,
    marks_lent: usize,
    marked: bool,
    roughness: Roughness,
    counts: Counts,
}

impl State {
    // A sheet of zeros but for one finish, no cell lent, and all marks.
    fn blank() -> State {
        let mut words = [0; SHEET_WORDS];
        words[FINISHES_AT] = 1;
        State {
            words,
            cells: [0.0; ROOM],
            marks: [0; ROOM],
            lent: 0,
            marks_lent: ROOM,
            marked: false,
            roughness: Roughness { flag: 0, bits: 0 },
            counts: Counts::none(),
        }
    }

    // The status and the value refused of a call on the cells and the marks that are lent; nothing where there are not so many.
    fn called(&mut self, call: Call, line: &[u8]) -> Option<(u32, u64)> {
        let first = word_at(line, 0);
        let at = first as usize;
        let part = part_at(line, self.roughness);
        let words = &mut self.words;
        let cells = self.cells.get_mut(..self.lent)?;
        let marks = self.marks.get_mut(..self.marks_lent)?;
        let mut refused = 0u64;
        let status = match call {
            Call::Open => cobalnis_open(words, cells, marks, &mut refused),
            Call::Insert => cobalnis_insert(words, at, &part, cells, marks, &mut refused),
            Call::Replace => cobalnis_replace(words, at, &part, cells, marks, &mut refused),
            Call::Remove => cobalnis_remove(words, at, cells, marks, &mut refused),
            Call::Ignite => cobalnis_ignite(words, from_bits(first), cells, marks, &mut refused),
            Call::Burnout => cobalnis_burnout(words, cells, marks, &mut refused),
            Call::SetColumn => {
                let mach = from_bits(word_at(line, 1));
                let reynolds = from_bits(word_at(line, 2));
                cobalnis_set_column(words, at, mach, reynolds, cells, marks, &mut refused)
            }
        };
        Some((status, refused))
    }

    // Words of the sheet, by hand: up to six, as many as the line says and as there is room.
    fn put_words(&mut self, line: &[u8]) {
        let at = word_at(line, 0) as usize;
        let count = word_at(line, 1) as usize;
        for (k, which) in (0..count).zip(2..8) {
            if let Some(word) = self.words.get_mut(place_of(at.saturating_add(k))) {
                *word = word_at(line, which);
            }
        }
    }

    // How many finishes, and their roughnesses.
    fn put_finishes(&mut self, line: &[u8]) {
        let words = self.words[FINISHES_AT..FINENESS_AT].iter_mut();
        for (word, which) in words.zip(0..8) {
            *word = word_at(line, which);
        }
    }

    // Cell k gets the bits first + k × step.
    fn fill(&mut self, first: u64, step: u64) {
        let mut bits = first;
        for cell in &mut self.cells {
            *cell = from_bits(bits);
            bits = bits.wrapping_add(step);
        }
    }

    // How many marks are lent; mark k gets the low byte of first + k × step. From now on the marks count.
    fn put_marks(&mut self, line: &[u8]) {
        self.marks_lent = word_at(line, 0) as usize;
        self.marked = true;
        let mut byte = byte_at(line, 1);
        let step = byte_at(line, 2);
        for mark in &mut self.marks {
            *mark = byte;
            byte = byte.wrapping_add(step);
        }
    }

    // A change by hand.
    fn change(&mut self, change: Change, line: &[u8]) {
        let first = word_at(line, 0);
        let second = word_at(line, 1);
        match change {
            Change::Words => self.put_words(line),
            Change::Finishes => self.put_finishes(line),
            Change::Roughness => {
                self.roughness = Roughness {
                    flag: first,
                    bits: second,
                };
            }
            Change::Lent => self.lent = first as usize,
            Change::Fill => self.fill(first, second),
            Change::Poke => {
                if let Some(cell) = self.cells.get_mut(first as usize) {
                    *cell = from_bits(second);
                }
            }
            Change::Marks => self.put_marks(line),
            Change::PokeMark => {
                if let Some(mark) = self.marks.get_mut(first as usize) {
                    *mark = byte_at(line, 1);
                }
            }
        }
    }

    // The number of the words, the cells and, where they count, as many marks.
    fn number(&self) -> u64 {
        let h = number_of(&self.words, &self.cells);
        if !self.marked {
            return h;
        }
        let marks = self.marks.iter().take(cells_of(&self.words));
        marks.fold(h, |h, mark| mixed(h, u64::from(*mark)))
    }

    // Whether the line can be read and ends with this status, this value and the state's number.
    fn is_answered(&self, line: &[u8], status: u32, refused: u64) -> bool {
        is_line(line)
            && word_at(line, 8) == status as u64
            && word_at(line, 9) == refused
            && word_at(line, 10) == self.number()
    }
}

// ---- replaying

impl Replay for State {
    // Nothing is said of what a line leaves.
    ghost takes = { λ _ _ _. Unit {0} };

    fn line(&mut self, line: &[u8]) {
        match Asked::of_tag(tag_of(line)) {
            Some(Asked::Call(call)) => {
                let (status, refused) = self.called(call, line).unwrap_or((0, 0));
                let agrees = self.is_answered(line, status, refused);
                self.counts = self.counts.counted(call as u64, agrees);
            }
            changed => {
                if let Some(Asked::Change(change)) = changed {
                    self.change(change, line);
                }
                if !self.is_answered(line, 0, 0) {
                    self.counts = self.counts.counted(NO_KIND, false);
                }
            }
        }
    }
}

fn main() {
    let mut list = State::blank();
    replay_all(&mut list);
    list.counts.write_all(b"sheet");
    for (kind, name) in NAMES.iter().enumerate() {
        list.counts.write(name, kind as u64);
    }
}
