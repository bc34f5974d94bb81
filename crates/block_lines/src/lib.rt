// The lines of the fixed list whose calls are on blocks and numbers: each is run through its entry point, and compared word for word.
// A line's words are the call's inputs, its number and row, and its output.
#![tactic(auto)]

ghost use Rattle.std.specs.Prelude.{◌≤◌};

use lines::line::Line;
use outcomes::Outcome;
use wire::unchecked::read_word;

#[derive(Clone, Copy, PartialEq, Eq)]
pub enum BlockCall {
    CheckVector,
    Apply,
    Product,
    Scale,
    Add,
    Subtract,
    AddBlock,
    SubtractBlock,
    Inverse,
    SquareRoot,
}

// How many words a call's two inputs and its output have.
#[derive(Drop)]
struct Shape {
    first: usize,
    second: usize,
    out: usize,
    ghost at_most_a_block: { (first ≤ 9) × (second ≤ 9) × (out ≤ 9) },
}

fn of_words(first: usize, second: usize, out: usize) -> Shape
    requires { (first ≤ 9) × (second ≤ 9) × (out ≤ 9) }
{
    Shape { first, second, out }
}

// How many values a row has, and 1 for what is no N.
fn row(dim: u32) -> usize
    ensures { result ≤ 3 }
{
    match dim {
        2 => 2,
        3 => 3,
        _ => 1,
    }
}

// Nine words as the bytes that an entry point is lent.
fn bytes_from(line: &Line, from: usize) -> [u8; 72] {
    let mut bytes = [0u8; 72];
    for (k, word) in bytes.chunks_exact_mut(8).enumerate() {
        word.copy_from_slice(&line.word(from.saturating_add(k)).to_le_bytes());
    }
    bytes
}

// Whether the bytes are those of the words from a place on.
fn same_words(bytes: &[u8], line: &Line, from: usize) -> bool {
    for (k, word) in bytes.chunks_exact(8).enumerate() {
        if word_of(word) != line.word(from.saturating_add(k)) {
            return false;
        }
    }
    true
}

fn word_of(bytes: &[u8]) -> u64 {
    if bytes.len() < 8 {
        return 0;
    }
    read_word(bytes, 0)
}

fn run_check(dim: u32, n: &[u8], length: &[u8]) -> Outcome {
    let rows = (word_of(n) & 0xffff_ffff) as u32;
    host::pierbramble_check_vector(rows, dim, word_of(length) as usize)
}

fn run_root(x: &[u8], out: &mut [u8]) -> Outcome {
    let root = host::pierbramble_square_root(words::value_of(word_of(x)));
    if out.len() == 8 {
        out.copy_from_slice(&words::bits_of(root).to_le_bytes());
    }
    Outcome { number: 0, row: 0 }
}

fn run_scale(dim: u32, v: &[u8], s: &[u8], out: &mut [u8]) -> Outcome {
    host::pierbramble_scale(dim, v, words::value_of(word_of(s)), out)
}

impl BlockCall {
    pub fn name(self) -> &'static str {
        match self {
            BlockCall::CheckVector => "check_vector",
            BlockCall::Apply => "apply",
            BlockCall::Product => "product",
            BlockCall::Scale => "scale",
            BlockCall::Add => "add",
            BlockCall::Subtract => "subtract",
            BlockCall::AddBlock => "add_block",
            BlockCall::SubtractBlock => "subtract_block",
            BlockCall::Inverse => "inverse",
            BlockCall::SquareRoot => "square_root",
        }
    }

    fn shape(self, dim: u32) -> Shape {
        let n = row(dim);
        let b = n * n;
        match self {
            BlockCall::CheckVector => of_words(1, 1, 0),
            BlockCall::Apply => of_words(b, n, n),
            BlockCall::Product | BlockCall::AddBlock | BlockCall::SubtractBlock => {
                of_words(b, b, b)
            }
            BlockCall::Scale => of_words(n, 1, n),
            BlockCall::Add | BlockCall::Subtract => of_words(n, n, n),
            BlockCall::Inverse => of_words(b, 0, b),
            BlockCall::SquareRoot => of_words(1, 0, 1),
        }
    }

    // How many words a line of the call has.
    pub fn words(self, dim: u32) -> usize {
        let shape = self.shape(dim);
        shape.first + shape.second + 2 + shape.out
    }

    fn run(self, dim: u32, a: &[u8], b: &[u8], out: &mut [u8]) -> Outcome {
        match self {
            BlockCall::CheckVector => run_check(dim, a, b),
            BlockCall::Apply => host::pierbramble_apply(dim, a, b, out),
            BlockCall::Product => host::pierbramble_product(dim, a, b, out),
            BlockCall::Scale => run_scale(dim, a, b, out),
            BlockCall::Add => host::pierbramble_add(dim, a, b, out),
            BlockCall::Subtract => host::pierbramble_subtract(dim, a, b, out),
            BlockCall::AddBlock => host::pierbramble_add_block(dim, a, b, out),
            BlockCall::SubtractBlock => host::pierbramble_subtract_block(dim, a, b, out),
            BlockCall::Inverse => host::pierbramble_inverse(dim, a, out),
            BlockCall::SquareRoot => run_root(a, out),
        }
    }

    // Whether the call answers as the original: the number, the row and every word of the output, which is dirty before.
    pub fn agrees(self, dim: u32, line: &Line) -> bool {
        let shape = self.shape(dim);
        let a = bytes_from(line, 0);
        let b = bytes_from(line, shape.first);
        let mut out = [165u8; 72];
        let out = &mut out[..8 * shape.out];
        let outcome = self.run(dim, &a[..8 * shape.first], &b[..8 * shape.second], out);
        let at = shape.first + shape.second;
        line.word(at) == u64::from(outcome.number)
            && line.word(at + 1) == u64::from(outcome.row)
            && same_words(out, line, at + 2)
    }
}
