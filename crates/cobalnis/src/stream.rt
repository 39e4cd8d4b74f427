// Streams of cards: a card read into words, and what a whole stream prints.
ghost use Rattle.cards.specs.Cards.{part_at, settings_at};
ghost use Rattle.sheet_text.specs.Text.{Printed};
ghost use Rattle.cobalnis.specs.Answers.{PartCard, SettingsCard};

use crate::answers::status_of;
use crate::words;
use crate::words::{PART_WORDS, SHEET_WORDS};

// The settings card at a position of the bytes, as the first words of a sheet, and the position after it.
pub fn cobalnis_read_settings(
    bytes: &[u8],
    at: usize,
    words: &mut [u64; SHEET_WORDS],
    next: &mut usize,
) -> u32
    ensures { SettingsCard (settings_at bytes.now at) result words.old words.new next.old next.new }
{
    match cards::read_settings(bytes, at) {
        Err(e) => status_of(e),
        Ok((settings, end)) => {
            words::put_settings(settings, words);
            *next = end;
            0
        }
    }
}

// The part card at a position of the bytes, and the position after it.
pub fn cobalnis_read_part(
    bytes: &[u8],
    at: usize,
    words: &mut [u64; PART_WORDS],
    next: &mut usize,
) -> u32
    ensures { PartCard (part_at bytes.now at) result words.old words.new next.old next.new }
{
    match cards::read_part(bytes, at) {
        Err(e) => status_of(e),
        Ok((part, end)) => {
            *words = words::part_words(part);
            *next = end;
            0
        }
    }
}

// What the program `sheet` prints for these bytes.
pub fn cobalnis_print(bytes: &[u8], out: &mut [u8]) -> usize
    ensures { Printed bytes.now out.old result out.new }
{
    sheet_text::print_stream(bytes, out)
}
