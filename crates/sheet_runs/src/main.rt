// Runs many streams of card bytes and prints what `sheet` would print for each. Standard input holds
// the streams one after the other, each after its length in two bytes, low byte first;
// `streams.py write > stdin` in this crate's folder makes it.
#![tactic(auto)]

use sheet_text::MOST_TEXT;

fn show(stream: &[u8]) {
    let mut out = [0u8; MOST_TEXT];
    let m = sheet_text::print_stream(stream, &mut out);
    io::write_all(1, &out[..m]);
}

// The streams one after the other, as far as they are whole.
fn show_all(streams: &[u8]) {
    let mut rest = streams;
    // No `for`: how much is taken off is read from what is left.
    while let Some((size, after)) = rest.split_first_chunk() {
        let size = usize::from(u16::from_le_bytes(*size));
        let Some((stream, next)) = after.split_at_checked(size) else {
            return;
        };
        show(stream);
        rest = next;
    }
}

fn main() {
    let mut input = io::large_buffer();
    let n = io::read_full(0, &mut input);
    show_all(&input[..n]);
}
