// What shows what a fill call has written: before it, every lent word and the room past it is 7.
// After it, words have to be 0 up to where the call writes, and 7 behind.

// Whether the words from a place up to another are all this one.
fn is_all<T: Copy + PartialEq>(words: &[T], from: usize, to: usize, word: T) -> bool {
    match words.get(from..to) {
        Some(words) => words.iter().all(|x| *x == word),
        None => from >= to,
    }
}

// 0 from a place on up to where the call writes, and then as before.
pub fn is_left<T: Copy + PartialEq + From<u8>>(words: &[T], from: usize, to: usize) -> bool {
    is_all(words, from, to, T::from(0)) && is_all(words, to, words.len(), T::from(7))
}
