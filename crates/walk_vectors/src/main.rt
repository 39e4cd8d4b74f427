// Replays stored walks along Stoney's tables from standard input, calling the library `cobalnis` as a program in C does, and prints how many
// lines agree. The stored answers are the original's single lookup's, the counts a plain walk's (compare/src/mirror.rs). Queries and answer
// cells are put by lines of their own; these are no answers and aren't counted, unless they can't be read.
//
//     q queries        the first one's place, how many, up to nine Machs
//     c cells          the same
//     w the walk       nose, how many queries, how many cells lent, the count's word before; then status, value refused, the count's word
//     x cells          the first one's place, how many, up to nine cells as they are to be
//
// The list, `stdin` beside this folder, is made in compare/:
//     cargo run --release --offline --bin walk_list > ../crates/walk_vectors/stdin
#![tactic(auto)]

use cobalnis::cobalnis_nose_walk;
use elementary::{from_bits, to_bits};
use replay::{Counts, NO_KIND, Replay, is_line, replay_all, tag_of, word_at};
use std::iter::repeat;
use walk::QUERIES;

// Room for one query too many.
const ROOM: usize = QUERIES + 1;

// ---- what a line asks for

#[derive(Clone, Copy)]
enum Asked {
    Queries,
    Cells,
    Walk,
    Answers,
}

impl Asked {
    fn of_tag(tag: u8) -> Option<Asked> {
        match tag {
            b'q' => Some(Asked::Queries),
            b'c' => Some(Asked::Cells),
            b'w' => Some(Asked::Walk),
            b'x' => Some(Asked::Answers),
            _ => None,
        }
    }
}

// What is counted.
#[derive(Clone, Copy)]
enum Kind {
    Walk,
    Answers,
}

// Up to nine queries, or cells, from the line's place on.
fn put(line: &[u8], values: &mut [f64; ROOM]) {
    let at = word_at(line, 0) as usize;
    let count = word_at(line, 1) as usize;
    for (value, which) in values.iter_mut().skip(at).take(count).zip(2..11) {
        *value = from_bits(word_at(line, which));
    }
}

// Whether up to nine cells are as the line says; zeros stand where there are fewer.
fn holds(line: &[u8], cells: &[f64; ROOM]) -> bool {
    let at = word_at(line, 0) as usize;
    let count = word_at(line, 1) as usize;
    let named = cells.iter().skip(at).take(count).map(|cell| to_bits(*cell));
    (2..11)
        .zip(named.chain(repeat(0)))
        .all(|(which, word)| word_at(line, which) == word)
}

// ---- replaying

// The queries, the cells, and what is counted so far. Two arrays, since C is lent queries and cells apart.
#[derive(Drop)]
struct Walks {
    queries: [f64; ROOM],
    cells: [f64; ROOM],
    counts: Counts,
}

impl Walks {
    // The status, the value refused and the count's word of a walk of the first so many queries, with the first so many cells lent;
    // nothing where a word names no nose, or more queries or cells than there are.
    fn walked(&mut self, line: &[u8]) -> Option<[u64; 3]> {
        let nose = u16::try_from(word_at(line, 0)).ok()?;
        let queries = self.queries.get(..word_at(line, 1) as usize)?;
        let cells = self.cells.get_mut(..word_at(line, 2) as usize)?;
        let mut compared = word_at(line, 3) as usize;
        let mut refused = 0u64;
        let status = cobalnis_nose_walk(
            u32::from(nose),
            queries,
            cells,
            &mut compared,
            &mut refused,
        );
        Some([status as u64, refused, compared as u64])
    }

    fn count(&mut self, kind: u64, agrees: bool) {
        self.counts = self.counts.counted(kind, agrees);
    }
}

impl Replay for Walks {
    // Nothing is said of what a line leaves.
    ghost takes = { λ _ _ _. Unit {0} };

    fn line(&mut self, line: &[u8]) {
        match Asked::of_tag(tag_of(line)).filter(|_| is_line(line)) {
            Some(Asked::Queries) => put(line, &mut self.queries),
            Some(Asked::Cells) => put(line, &mut self.cells),
            Some(Asked::Walk) => {
                let stored = [word_at(line, 4), word_at(line, 5), word_at(line, 6)];
                let agrees = self.walked(line) == Some(stored);
                self.count(Kind::Walk as u64, agrees);
            }
            Some(Asked::Answers) => {
                let agrees = holds(line, &self.cells);
                self.count(Kind::Answers as u64, agrees);
            }
            None => self.count(NO_KIND, false),
        }
    }
}

fn main() {
    let mut list = Walks {
        queries: [0.0; ROOM],
        cells: [0.0; ROOM],
        counts: Counts::none(),
    };
    replay_all(&mut list);
    list.counts.write_all(b"walks");
    list.counts.write(b"nose_walk", Kind::Walk as u64);
    list.counts.write(b"answer cells", Kind::Answers as u64);
}
