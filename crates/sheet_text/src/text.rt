// A text that is printed into lent bytes: bytes, numbers and lines, each after what was printed before.
ghost use Rattle.std.specs.Prelude.{◌≡◌, [], ◌∷◌, ◌++◌, ◌+◌, ◌≤◌, ◌<◌, length, get_or};
ghost use Rattle.sheet_data.specs.Layout.{most_columns};
ghost use Rattle.sheet_text.specs.Bytes.{digits, line_feed, hex_digit, hex_digits, decimal, Room, Prints};
ghost use Rattle.sheet_text.specs.Text.{number_text_size, row_text, number_text, mark_text, numbers_text, line_text};

// The hexadecimal digits of 64 bits.
pub(crate) const DIGITS: usize = 64 / 4;

// The lent bytes, and how many of them are printed. What room is left stands in each contract (`Room`), since each asks for another amount.
#[derive(Drop)]
pub(crate) struct Text<'a> {
    pub(crate) out: &'a mut [u8],
    pub(crate) len: usize,
}

// Digits are made by hand: what `write!` ensures doesn't rule out that it fails.
fn hex_digit(n: u64) -> u8
    requires { n < 16 }
    ensures { result ≡ hex_digit n }
{
    if n < 10 {
        b'0' + n as u8
    } else {
        b'a' - 10 + n as u8
    }
}

// The hexadecimal digits, from the last to the first.
#[tactic(auto, using(crate::proofs::Puts::hex_end))]
fn hex_digits(x: u64) -> [u8; DIGITS]
    ensures { result ≡ hex_digits digits x }
{
    let mut out = [0; DIGITS];
    let mut rest = x;
    // By place: tried over `iter_mut` in reverse, the proof didn't close.
    for n in (0..DIGITS).rev() {
        out[n] = hex_digit(rest % 16);
        rest /= 16;
    }
    out
}

// A mark of a row; past the last one there is none.
fn mark_at(marks: &[u8], k: usize) -> u8
    ensures { result ≡ get_or marks.now k 0 }
{
    if k < marks.len() { marks[k] } else { 0 }
}

impl Text<'_> {
    #[tactic(auto, using(crate::proofs::Puts::put_there))]
    pub(crate) fn bytes(&mut self, bytes: &[u8])
        requires { Room (length bytes.now) self.old }
        ensures { Prints bytes.now self.old self.new }
    {
        let end = self.len + bytes.len();
        self.out[self.len..end].copy_from_slice(bytes);
        self.len = end;
    }

    // A number below 100 in decimal.
    #[tactic(auto, unfolding(crate::specs::Bytes::decimal))]
    pub(crate) fn decimal(&mut self, n: usize)
        requires { (n < 100) × Room 2 self.old }
        ensures { Prints (decimal n) self.old self.new }
    {
        let last = b'0' + (n % 10) as u8;
        if n < 10 {
            self.bytes(&[last]);
        } else {
            self.bytes(&[b'0' + (n / 10) as u8, last]);
        }
    }

    // A space and the bits.
    fn number(&mut self, x: f64)
        requires { Room number_text_size self.old }
        ensures { Prints (number_text x) self.old self.new }
    {
        self.bytes(b" ");
        self.bytes(&hex_digits(elementary::to_bits(x)));
    }

    // A `+` for a mark that isn't 0.
    #[tactic(auto, using(crate::proofs::Puts::prints_none))]
    fn mark(&mut self, mark: u8)
        requires { Room 1 self.old }
        ensures { Prints (mark_text mark) self.old self.new }
    {
        if mark != 0 {
            self.bytes(b"+");
        }
    }

    // The numbers of a row with their marks, and the end of the line. Machs have no marks. That the numbers are few stands in three contracts: rows come from a
    // sheet, Machs from its settings.
    pub(crate) fn numbers(&mut self, row: &[f64], marks: &[u8])
        requires { (length row.now ≤ most_columns) × Room row_text self.old }
        ensures { Prints (numbers_text row.now marks.now ++ (line_feed ∷ [])) self.old self.new }
    {
        for (k, x) in row.iter().enumerate() {
            self.number(*x);
            self.mark(mark_at(marks, k));
        }
        self.bytes(b"\n");
    }

    // A name, and the numbers of a row with their marks.
    pub(crate) fn line(&mut self, name: &[u8], row: &[f64], marks: &[u8])
        requires { (length row.now ≤ most_columns) × Room (length name.now + row_text) self.old }
        ensures { Prints (line_text name.now row.now marks.now) self.old self.new }
    {
        self.bytes(name);
        self.numbers(row, marks);
    }
}
