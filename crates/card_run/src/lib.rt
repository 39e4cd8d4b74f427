// The run over a whole stream of card bytes (docs/REFERENCE.md, Program): one settings card, then part
// cards, each inserted last, up to the first refusal. `cards` reads a card, and `drag_sheet` makes the
// call.
#![tactic(auto)]

ghost use Rattle.std.specs.Prelude.{◌≡◌};
ghost use Rattle.sheet_data.specs.Contents.{Fits};
ghost use Rattle.drag_sheet.specs.Planes.{lent, cells_lent};
ghost use Rattle.card_run.specs.Run.{run_stopped, Stopped, all_part_cards, first_read, stream_of};

use aero_error::AeroError;
use cards::{PART_BYTES, SETTINGS_BYTES};
use sheet_data::layout::{COLUMNS, PARTS};
use sheet_data::{Settings, Sheet};

// No byte of a stream past these can change the answer: the settings card, as many part cards as a
// design has places, and the one that cannot be accepted any more.
pub const STREAM_BYTES: usize = SETTINGS_BYTES + (PARTS + 1) * PART_BYTES;

// A run's answer: what it came to, the card it stopped at, counted from 0, and the sheet as it is
// then. An accepted run stops past its last card; no bytes count as a settings card. It is no Result:
// card and sheet are there either way.
#[derive(Clone, Copy, Debug, PartialEq)]
pub struct Run {
    pub outcome: Result<(), AeroError>,
    pub card: usize,
    pub sheet: Sheet,
}

// The part cards from a position on, each inserted last, up to the first refusal.
fn run_parts(
    s: &[u8],
    start: usize,
    sheet: &mut Sheet,
    cells: &mut [f64],
    marks: &mut [u8],
) -> Result<(), AeroError>
    requires { Fits sheet.old (cells_lent (lent cells.old marks.old)) }
    ensures { Stopped (all_part_cards s.now start sheet.old (lent cells.old marks.old)) (run_stopped result sheet.new) (lent cells.new marks.new) }
{
    let mut at = start;
    // No `for`: where the next card begins is known once this one is read.
    while at < s.len() {
        let (part, next) = cards::read_part(s, at)?;
        let count = sheet.design.count;
        drag_sheet::insert(sheet, count, part, cells, marks)?;
        at = next;
    }
    Ok(())
}

// The settings card of a stream. No bytes at all are a sheet with nothing in it, so that a reader
// without a card is not taken for a broken one.
fn first_card(s: &[u8]) -> Result<(Settings, usize), AeroError>
    ensures { result ≡ first_read s.now }
{
    if s.is_empty() {
        let settings = Settings {
            reference_diameter: 1.0,
            body_fineness: 1.0,
            ..cards::no_settings()
        };
        return Ok((settings, 0));
    }
    cards::read_settings(s, 0)
}

// A whole stream: one settings card, then part cards until the bytes end at a card's end, or the
// first refusal.
pub fn run_stream(s: &[u8], cells: &mut [f64], marks: &mut [u8]) -> Run
    ensures { Stopped (stream_of s.now (lent cells.old marks.old)) result (lent cells.new marks.new) }
{
    let (settings, next) = match first_card(s) {
        Ok(card) => card,
        Err(e) => {
            return Run {
                outcome: Err(e),
                card: 0,
                sheet: Sheet::blank(cards::no_settings()),
            };
        }
    };
    let (mut sheet, opened) = drag_sheet::open(settings, cells, marks);
    if let Err(e) = opened {
        return Run {
            outcome: Err(e),
            card: 0,
            sheet,
        };
    }
    let outcome = run_parts(s, next, &mut sheet, cells, marks);
    let card = sheet.design.count + 1;
    Run {
        outcome,
        card,
        sheet,
    }
}
