// What the programs that replay stored answers share: the words of a line, and the counts that are printed. A line is a tag, eleven
// words of 16 hexadecimal digits with a space in front of each, and a line feed: 189 bytes.
#![tactic(auto)]

ghost use Rattle.std.specs.Prelude.{ℕ, List, ◌≡◌, ◌≤◌, ◌<◌, length, get_or};
ghost use Rattle.replay.specs.Lines.{Replayed};
ghost use Rattle.replay.specs.Words.{digit_of, digits_of, field_at, word_at, is_line};
ghost use Rattle.replay.specs.Counts.{no_tally, tallied, no_counts, slot_of, counted, tally_of, tally_of_all};

// The descriptors of standard input and output.
pub const STDIN_FILENO: i32 = 0;

pub const STDOUT_FILENO: i32 = 1;

// ---- the words of a line

const DIGITS: usize = 16;

// A space and the digits.
const WORD_BYTES: usize = DIGITS + 1;

const WORDS: u8 = 11;

// Where the line feed stands, after the tag and the words.
const LINE_FEED_AT: usize = 1 + WORD_BYTES * (WORDS as usize);

const LINE_BYTES: usize = LINE_FEED_AT + 1;

// 0 to 15 for 0 to 9 and a to f; nothing for any other byte.
#[tactic(auto, unfolding(crate::specs::Words::digit_of))]
fn digit(byte: u8) -> Option<u8>
    ensures { result ≡ digit_of byte }
{
    match byte {
        b'0'..=b'9' => Some(byte - b'0'),
        b'a'..=b'f' => Some(byte - b'a' + 10),
        _ => None,
    }
}

// The number that all of these digits spell.
fn digits(text: &[u8]) -> Option<u64>
    requires { length text.now ≤ 16 }
    ensures { result ≡ digits_of text.now 0 }
{
    let mut number: u64 = 0;
    for byte in text {
        number = number * 16 + digit(*byte)? as u64;
    }
    Some(number)
}

// The word of this number, from 0: a space and 16 digits.
#[tactic(auto, unfolding(crate::specs::Words::field_at))]
fn field_at(line: &[u8], which: u8) -> Option<u64>
    ensures { result ≡ field_at line.now which }
{
    let at = 1 + WORD_BYTES * (which as usize);
    digits(line.get(at..at + WORD_BYTES)?.strip_prefix(b" ")?)
}

// The word of this number, 0 where it can't be read.
pub fn word_at(line: &[u8], which: u8) -> u64
    ensures { result ≡ word_at line.now which }
{
    field_at(line, which).unwrap_or(0)
}

// 0 past the end.
fn byte_at(line: &[u8], at: usize) -> u8
    ensures { result ≡ get_or line.now at 0 }
{
    line.get(at).copied().unwrap_or(0)
}

// The first byte of a line, 0 of an empty one.
pub fn tag_of(line: &[u8]) -> u8
    ensures { result ≡ get_or line.now 0 0 }
{
    byte_at(line, 0)
}

// Whether the whole line can be read. By `&`, so that the proof goes by no cases. All words are read, also after one that can't be: so the compiler reads none
// a second time for whoever asks for it by `word_at`.
pub fn is_line(line: &[u8]) -> bool
    ensures { result ≡ is_line line.now }
{
    (line.len() == LINE_BYTES)
        & (0..WORDS).fold(true, |read, which| read & field_at(line, which).is_some())
        & (byte_at(line, LINE_FEED_AT) == b'\n')
}

// ---- the lines of the input

// What takes the lines of a list, one after the other. `takes` relates what it was, a line, and what it then is.
pub trait Replay {
    ghost takes: { Self → List ℕ → Self → Type 0 };

    // One line more. It has no line feed where the input ends within it.
    fn line(&mut self, line: &[u8])
        ensures { takes self.old line.now self.new };
}

// Reads standard input to its end. A last line that is cut off is a line too. The turns are counted so that the loop is seen to
// end; no run uses them up.
pub fn replay_all<R: Replay>(list: &mut R)
    ensures { Replayed R.takes list.old list.new }
{
    let mut line = [0u8; LINE_BYTES];
    for _ in 0..u64::MAX {
        let n = io::read_full(STDIN_FILENO, &mut line);
        if n == 0 {
            return;
        }
        list.line(&line[..n]);
    }
}

// ---- what is counted

// How many lines agree of how many. A count stays at the largest u64 once it is there; no list is as long.
#[derive(Clone, Copy, Debug, PartialEq, Eq)]
pub struct Tally {
    pub agreed: u64,
    pub asked: u64,
}

impl Tally {
    const NONE: Tally = Tally {
        agreed: 0,
        asked: 0,
    };

    // One line more, which agrees or does not.
    fn counted(self, agrees: bool) -> Tally
        ensures { result ≡ tallied self agrees }
    {
        Tally {
            agreed: self.agreed.saturating_add(agrees as u64),
            asked: self.asked.saturating_add(1),
        }
    }

    // Written by hand: std's `println!` stands on two axioms of os (errno and strerror_r) that no program here stands on.
    fn write(self, name: &[u8], mark: &[u8], end: &[u8]) {
        io::write_all(STDOUT_FILENO, name);
        io::write_all(STDOUT_FILENO, mark);
        io::print_decimal(STDOUT_FILENO, self.agreed);
        io::write_all(STDOUT_FILENO, b" of ");
        io::print_decimal(STDOUT_FILENO, self.asked);
        io::write_all(STDOUT_FILENO, end);
    }
}

pub const KINDS: usize = 32;

// The last kind is for lines that ask for nothing. A number and no Option: such lines are counted like the others.
pub const NO_KIND: u64 = KINDS as u64 - 1;

// The lines of each kind, and of the whole list.
#[derive(Clone, Copy, Debug, PartialEq, Eq)]
pub struct Counts {
    pub kinds: [Tally; KINDS],
    pub all: Tally,
}

fn slot_of(kind: u64) -> usize
    ensures value { result ≡ slot_of kind }
    ensures upper_bound { result < 32 }
{
    kind.min(NO_KIND) as usize
}

impl Counts {
    pub fn none() -> Counts
        ensures { result ≡ no_counts }
    {
        Counts {
            kinds: [Tally::NONE; KINDS],
            all: Tally::NONE,
        }
    }

    // One line more of this kind, which agrees or does not.
    pub fn counted(mut self, kind: u64, agrees: bool) -> Counts
        ensures { result ≡ counted self kind agrees }
    {
        let slot = slot_of(kind);
        self.kinds[slot] = self.kinds[slot].counted(agrees);
        self.all = self.all.counted(agrees);
        self
    }

    // Writes the line of one kind: its name, and how many agree of how many, which it answers too. No
    // contract can speak of what is written; each program's file `stdout` is held to it.
    pub fn write(self, name: &[u8], kind: u64) -> Tally
        ensures { result ≡ tally_of self kind }
    {
        let tally = self.kinds[slot_of(kind)];
        tally.write(name, b" ", b"\n");
        tally
    }

    // Writes the line of the whole list.
    pub fn write_all(self, name: &[u8]) -> Tally
        ensures { result ≡ tally_of_all self }
    {
        self.all.write(name, b": ", b" agree\n");
        self.all
    }
}
