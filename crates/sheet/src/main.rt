// The program `sheet` (docs/REFERENCE.md, Program): card bytes on standard input, the lines of the
// sheet or `refused N card K` on standard output. It reads, calls `print_read`, whose contract is
// about both buffers' sizes, and writes.
#![tactic(auto)]

use card_run::STREAM_BYTES;
use sheet_text::MOST_TEXT;

fn main() {
    let mut input = [0u8; STREAM_BYTES];
    let n = io::read_full(0, &mut input);
    let mut out = [0u8; MOST_TEXT];
    let m = sheet_text::print_read(&input, n, &mut out);
    io::write_all(1, &out[..m]);
}
