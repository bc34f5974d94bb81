// The fixed list of the original's answers, line by line: each is read, run and counted.
// Nothing is read or printed here, so that nothing is assumed; the program `replay` does both.
#![tactic(auto)]

pub mod calls;
pub mod case;
pub mod tally;

use case::Case;
use tally::Tally;

// A line that starts with # is a comment.
fn add_line(tally: &mut Tally, text: &[u8], number: usize) {
    if text.first() == Some(&b'#') {
        return;
    }
    match case::read(text) {
        Some(Case { call, dim, line }) => {
            tally.add_case(call, call.agrees(dim, &line), number);
        }
        None => tally.add_malformed(number),
    }
}

pub fn replay(text: &[u8]) -> Tally {
    let mut tally = Tally::new();
    for (i, line) in text.split_inclusive(|b| *b == b'\n').enumerate() {
        add_line(&mut tally, line.strip_suffix(b"\n").unwrap_or(line), i + 1);
    }
    tally
}
