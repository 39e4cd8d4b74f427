// Which library a program has met: the version, and one number for all that a header has to agree with the library in.
ghost use Rattle.std.specs.Prelude.{◌≡◌};
ghost use Rattle.cobalnis.specs.Version.{version, layout};

use crate::words::SHEET_WORDS;
use sheet_data::layout::CELLS;

// Version 0.2.0, as host/Cargo.toml has it.
const MAJOR: u32 = 0;

const MINOR: u32 = 2;

const PATCH: u32 = 0;

// Counted up when a function's arguments, or what a number or a word means, change and no size does.
const INTERFACE: u32 = 1;

pub fn cobalnis_version() -> u32
    ensures { result ≡ version }
{
    MAJOR * 1000000 + MINOR * 1000 + PATCH
}

// The interface, then in four digits each the words of a sheet and the most cells.
pub fn cobalnis_layout() -> u32
    ensures { result ≡ layout }
{
    INTERFACE * 100000000 + SHEET_WORDS as u32 * 10000 + CELLS as u32
}
