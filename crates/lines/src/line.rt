// The words of a line: counts, numbers, and slices of values, indexes and flags as a call is lent them.
// No place is read past the 128 words that a line may have, so that a broken line is answered wrongly and harms nothing.
ghost use Rattle.std.specs.Prelude.{◌≤◌};

use std::ops::Range;

// How many words a line may have.
pub const MOST: usize = 128;

// A line's words; behind the last one it has zeros.
#[derive(Drop)]
pub struct Line {
    pub words: [u64; 128],
}

// So many places after a place, and not past the line.
pub fn after(at: usize, count: usize) -> usize {
    at.saturating_add(count).min(MOST)
}

// A word as a number of 32 bits.
fn number_of(word: u64) -> u32 {
    (word & 0xffff_ffff) as u32
}

fn flag_of(word: u64) -> i32 {
    number_of(word).cast_signed()
}

// Any NaN is the value NaN.
fn is_value(value: f64, word: u64) -> bool {
    words::bits_of(value) == words::bits_of(words::value_of(word))
}

impl Line {
    // The word at a place, 0 past the line.
    pub fn word(&self, at: usize) -> u64 {
        self.words.get(at).copied().unwrap_or(0)
    }

    pub fn value(&self, at: usize) -> f64 {
        words::value_of(self.word(at))
    }

    pub fn number(&self, at: usize) -> u32 {
        number_of(self.word(at))
    }

    // The length of slice k, which stands at the head of the line; none is above the line's.
    pub fn count(&self, k: usize) -> usize
        ensures { result ≤ 128 }
    {
        self.word(k).min(128) as usize
    }

    // How many items the slices of a range have together.
    pub fn counts(&self, slices: Range<usize>) -> usize {
        slices.fold(0, |sum: usize, k| sum.saturating_add(self.count(k)))
    }

    // The place after k slices that begin at a place.
    pub fn place(&self, first: usize, k: usize) -> usize {
        first.saturating_add(self.counts(0..k))
    }

    // The items that the words of slice k stand for, of a line whose slices begin at a place. As many of them count as the line says.
    pub fn items<T: Copy, ItemOf: Fn(u64) -> T>(
        &self,
        first: usize,
        k: usize,
        none: T,
        item_of: ItemOf,
    ) -> [T; 128]
        requires { ItemOf.IsAlwaysCallable item_of }
    {
        let at = self.place(first, k);
        let mut items = [none; 128];
        for (item, word) in items.iter_mut().zip(self.words.iter().skip(at)) {
            *item = item_of(*word);
        }
        items
    }

    pub fn values(&self, first: usize, k: usize) -> [f64; 128] {
        self.items(first, k, 0.0, words::value_of)
    }

    pub fn indexes(&self, first: usize, k: usize) -> [u32; 128] {
        self.items(first, k, 0, number_of)
    }

    pub fn flags(&self, first: usize, k: usize) -> [i32; 128] {
        self.items(first, k, 0, flag_of)
    }

    // Whether the items are those that the line has from a place on.
    pub fn are<T: Copy, IsItem: Fn(T, u64) -> bool>(
        &self,
        at: usize,
        items: &[T],
        is_item: IsItem,
    ) -> bool
        requires { IsItem.IsAlwaysCallable is_item }
    {
        for (k, item) in items.iter().enumerate() {
            if !is_item(*item, self.word(at.saturating_add(k))) {
                return false;
            }
        }
        true
    }

    pub fn are_values(&self, at: usize, values: &[f64]) -> bool {
        self.are(at, values, is_value)
    }

    pub fn are_indexes(&self, at: usize, indexes: &[u32]) -> bool {
        self.are(at, indexes, |index, word| u64::from(index) == word)
    }

    // Whether the number is that at a place, with no row.
    pub fn is_answer(&self, at: usize, number: u32) -> bool {
        self.word(at) == u64::from(number) && self.word(after(at, 1)) == 0
    }

    // Whether the answer at a place is this one, and slice k holds the values after it.
    pub fn leaves(&self, at: usize, number: u32, k: usize, values: &[f64; 128]) -> bool {
        self.is_answer(at, number) && self.are_values(after(at, 2), &values[..self.count(k)])
    }

    // The same of slices k and k + 1.
    pub fn leaves_both(
        &self,
        at: usize,
        number: u32,
        k: usize,
        first: &[f64; 128],
        second: &[f64; 128],
    ) -> bool {
        let next = after(after(at, 2), self.count(k));
        self.leaves(at, number, k, first)
            && self.are_values(next, &second[..self.count(after(k, 1))])
    }
}
