// A line of the list taken apart: the call's name, N, and the words after it.
// A line is `call N` and then for each word a space and 16 hexadecimal digits.
use crate::calls::Call;
use lines::line::Line;
use words::first_of;
use words::unchecked::hex_at;

// How many bytes a word takes: a space and its digits.
const WORD: usize = 17;

#[derive(Drop)]
pub struct Case {
    pub call: Call,
    pub dim: u32,
    pub line: Line,
}

// The words of a text, if it is words and they are no more than a line may have.
fn line_of(text: &[u8]) -> Option<Line> {
    let mut words = [0u64; 128];
    if text.len() % WORD != 0 || text.len() / WORD > words.len() {
        return None;
    }
    for (word, bytes) in words.iter_mut().zip(text.chunks_exact(WORD)) {
        if bytes[0] != b' ' {
            return None;
        }
        *word = hex_at(bytes, 1)?;
    }
    Some(Line { words })
}

// The case of a line, if it has as many words as a line of its call has.
pub fn read(text: &[u8]) -> Option<Case> {
    let end = first_of(text, b' ');
    if text.len() - end < 2 {
        return None;
    }
    let dim = match text[end + 1] {
        digit @ b'1'..=b'3' => u32::from(digit - b'0'),
        _ => return None,
    };
    let words = &text[end + 2..];
    let line = line_of(words)?;
    let call = Call::named(&text[..end])?;
    if words.len() / WORD != call.words(dim, &line) {
        return None;
    }
    Some(Case { call, dim, line })
}
