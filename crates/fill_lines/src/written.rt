// What a call that writes a pattern leaves, as the words of its line.
// A level is a word as an index is, of 16 bits.
use lines::line::{Line, after};

pub fn level_of(word: u64) -> u16 {
    (word & 0xffff) as u16
}

// Whether the answer at a place is this one, and slices k to k + 2 hold the indexes after it.
pub fn leaves_pattern(
    line: &Line,
    at: usize,
    number: u32,
    k: usize,
    offsets: &[u32; 128],
    columns: &[u32; 128],
    splits: &[u32; 128],
) -> bool {
    let first = after(at, 2);
    let second = after(first, line.count(k));
    let third = after(second, line.count(after(k, 1)));
    line.is_answer(at, number)
        && line.are_indexes(first, &offsets[..line.count(k)])
        && line.are_indexes(second, &columns[..line.count(after(k, 1))])
        && line.are_indexes(third, &splits[..line.count(after(k, 2))])
}

// Whether slices 5 and 6 hold the levels and the indexes after those of slices 2 to 4, whose answer is at a place.
pub fn leaves_work(line: &Line, at: usize, levels: &[u16; 128], row: &[u32; 128]) -> bool {
    let fifth = after(after(at, 2), line.counts(2..5));
    line.are(fifth, &levels[..line.count(5)], |level: u16, word| {
        u64::from(level) == word
    }) && line.are_indexes(after(fifth, line.count(5)), &row[..line.count(6)])
}
