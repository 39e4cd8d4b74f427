// The text of a sheet: the lines that the program `sheet` prints for a stream of card bytes, put
// into a lent buffer.
#![tactic(auto)]

ghost use Rattle.std.specs.Prelude.{◌≡◌, ◌++◌, ◌+◌, ◌*◌, ◌≤◌, ◌<◌, length};
ghost use Rattle.sheet_data.specs.Layout.{most_parts, most_columns, all_rows};
ghost use Rattle.sheet_data.specs.Contents.{Fits};
ghost use Rattle.drag_sheet.specs.Planes.{lent, cells_lent};
ghost use Rattle.sheet_text.specs.Bytes.{Room, Prints};
ghost use Rattle.sheet_text.specs.Text.{numbered_text, body_text_size, most_text, line_text, numbered_name, row_lines, body_text, sheet_text, refused_text, run_text, Printed, Answered};

mod text;

use card_run::{Run, STREAM_BYTES};
use sheet_data::Sheet;
use sheet_data::layout::{CELLS, COLUMNS, FINISHES, FRICTION_ROW, Layout, PARTS};
use sheet_data::rows::Planes;
use text::{DIGITS, Text};

// The most bytes of the numbers of a line with their marks and its end, of what comes between the name of a numbered row and these, and of the lines of the whole body.
const ROW_TEXT: usize = COLUMNS * (1 + DIGITS + 1) + 1;

const NUMBERED: usize = 3 + ROW_TEXT;

const BODY_TEXT: usize = FINISHES * (8 + NUMBERED + 5 + NUMBERED) + 4 + ROW_TEXT;

// No text has more bytes: the line mach, a line for each part, and the lines of the whole body.
pub const MOST_TEXT: usize = 4 + ROW_TEXT + PARTS * (4 + NUMBERED) + BODY_TEXT;

impl Text<'_> {
    // The line of a row, with its number after the name where it is numbered.
    #[tactic(auto, using(crate::proofs::Puts::decimal_long))]
    fn row(&mut self, name: &[u8], numbered: bool, number: usize, row: &[f64], marks: &[u8])
        requires { (number < 100) × (length row.now ≤ most_columns) × Room (numbered_text name.now) self.old }
        ensures { Prints (line_text (numbered_name name.now numbered number) row.now marks.now) self.old self.new }
    {
        self.bytes(name);
        if numbered {
            self.bytes(b" ");
            self.decimal(number);
        }
        self.numbers(row, marks);
    }

    // The lines of so many rows from a row on, numbered from 0 on. Inlined, so that each name's length is known: else the library asks its host for `memmove`.
    #[inline(always)]
    fn rows(&mut self, name: &[u8], numbered: bool, first: usize, count: usize, planes: Planes)
        requires { (first + count ≤ all_rows planes.layout.finishes) × Room (numbered_text name.now * count) self.old }
        ensures { Prints (row_lines name.now numbered first count 0 planes.entry.layout.columns (lent planes.entry.cells.now planes.entry.marks.now)) self.old self.new }
    {
        for number in 0..count {
            let (cells, marks) = planes.row(first + number);
            self.row(name, numbered, number, cells, marks);
        }
    }

    // Frictions, base and totals; of one finish friction and total have no number.
    #[tactic(auto, using(crate::proofs::Puts::line_long, crate::proofs::Puts::lines_long))]
    fn body(&mut self, planes: Planes)
        requires { Room body_text_size self.old }
        ensures { Prints (body_text planes.entry.layout.finishes planes.entry.layout.columns (lent planes.entry.cells.now planes.entry.marks.now)) self.old self.new }
    {
        let layout = planes.layout;
        let finishes = layout.finishes;
        self.rows(b"friction", 1 < finishes, FRICTION_ROW, finishes, planes);
        let (base, marks) = planes.row(layout.base_row());
        self.line(b"base", base, marks);
        self.rows(b"total", 1 < finishes, layout.total_row(), finishes, planes);
    }

    // All the lines of a sheet.
    #[tactic(auto, using(crate::proofs::Puts::line_long, crate::proofs::Puts::lines_long))]
    fn sheet(&mut self, sheet: Sheet, cells: &[f64], marks: &[u8])
        requires { Fits sheet (cells_lent (lent cells.now marks.now)) × Room most_text self.old }
        ensures { Prints (sheet_text sheet (lent cells.now marks.now)) self.old self.new }
    {
        let settings = sheet.settings;
        let design = sheet.design;
        let layout = Layout {
            finishes: settings.finishes,
            columns: settings.count,
        };
        let planes = Planes {
            layout,
            cells,
            marks,
        };
        self.line(b"mach", &settings.machs[..settings.count], &[]);
        self.rows(b"part", true, 0, design.count, planes);
        self.body(planes);
    }

    // `refused N card K`.
    #[tactic(auto, using(crate::proofs::Puts::decimal_long))]
    fn refusal(&mut self, number: usize, card: usize)
        requires { (number < 100) × (card < 100) × Room most_text self.old }
        ensures { Prints (refused_text number card) self.old self.new }
    {
        self.bytes(b"refused ");
        self.decimal(number);
        self.bytes(b" card ");
        self.decimal(card);
        self.bytes(b"\n");
    }

    // The text of a run's answer.
    fn run(&mut self, run: Run, cells: &[f64], marks: &[u8])
        requires { (run.card ≤ most_parts + 1) × (run.outcome ≡ Ok tt → Fits run.sheet (cells_lent (lent cells.now marks.now))) × Room most_text self.old }
        ensures { Prints (run_text run (lent cells.now marks.now)) self.old self.new }
    {
        match run.outcome {
            Ok(()) => self.sheet(run.sheet, cells, marks),
            Err(e) => self.refusal(usize::from(e.number()), run.card),
        }
    }
}

// What `sheet` prints for a stream of bytes, put at the start of a buffer of MOST_TEXT bytes or more;
// the answer is how many bytes the text has. C calls it, so a shorter buffer answers 0 and no Result.
pub fn print_stream(s: &[u8], out: &mut [u8]) -> usize
    ensures { Printed s.now out.old result out.new }
{
    if out.len() < MOST_TEXT {
        return 0;
    }
    let mut cells = [0.0; CELLS];
    let mut marks = [0u8; CELLS];
    let run = card_run::run_stream(s, &mut cells, &mut marks);
    let mut text = Text { out, len: 0 };
    text.run(run, &cells, &marks);
    text.len
}

// What `sheet` prints for a stream of which it read the first n bytes, as many as the buffer holds or
// all there are. The sizes of the two buffers stand in the types, so that the contract is about them.
pub fn print_read(input: &[u8; STREAM_BYTES], n: usize, out: &mut [u8; MOST_TEXT]) -> usize
    ensures { Answered input.now n result out.new }
{
    print_stream(&input[..n.min(input.len())], out)
}
