// The product of a matrix on lent bytes, with N as a number: 8 bytes to a value and 4 to an index, the low byte first. And the checks of every matrix call on bytes.
// A call whose size, N or bytes are wrong answers 1 or 2 and changes nothing; any other is the call of `matrix` at that N, from bytes to bytes.
#![tactic(auto)]

pub mod unchecked;

ghost use Rattle.std.specs.Prelude.{◌≡◌, ◌++◌, ◌||◌, ◌*◌, ◌/◌, length};
ghost use Rattle.std.specs.Float.{binary64};
ghost use Rattle.answers.specs.Numbers.{number_of};
ghost use Rattle.answers.specs.Checks.{first_of};
ghost use Rattle.answers.specs.Promise.{Ends};
ghost use Rattle.matrix.specs.Checks.{matrix_lengths, vector_lengths, vector_checks};
ghost use Rattle.matrix.specs.Product.{mult_vec};
ghost use Rattle.wire.specs.Bytes.{values_in, bytes_of};
ghost use Rattle.wire.specs.Words.{indexes_in};
ghost use Rattle.pattern_bytes.specs.Checks.{broken, byte_checks, Held};
ghost use Rattle.matrix_bytes.specs.Checks.{misshapen, misshapen_vectors};
ghost use Rattle.matrix_bytes.specs.Rooms.{HeldMatrix, FilledMatrix, is_many};

use answers::Answer;
use numbered::is_no_dim;
use numbered::unchecked::{check_matrix, check_vectors};
use pattern_bytes::unchecked::decode_pattern;
use pattern_bytes::{check_bytes, is_broken_pattern, is_broken_value};
use unchecked::{decode_both, encode_if_done};

// Whether N is none of 1, 2, 3 or the bytes of a matrix make no whole words.
fn is_misshapen(dim: u32, offsets: usize, columns: usize, values: usize, diagonal: usize) -> bool
    ensures { result ≡ misshapen dim offsets columns values diagonal }
{
    if is_no_dim(dim) {
        return true;
    }
    if is_broken_pattern(offsets, columns) {
        return true;
    }
    if is_broken_value(values) {
        return true;
    }
    is_broken_value(diagonal)
}

// What is wrong with a matrix, or with what is lent beside it.
fn either(first: bool, second: bool) -> bool
    ensures { result ≡ first || second }
{
    first || second
}

// Whether either of two slices of values has bytes that make no whole words.
fn is_broken_pair(first: usize, second: usize) -> bool
    ensures { result ≡ broken 8 first || broken 8 second }
{
    if is_broken_value(first) {
        return true;
    }
    is_broken_value(second)
}

// The checks of a matrix by the lengths of its bytes.
pub fn check_matrix_bytes(
    dim: u32,
    offsets: usize,
    columns: usize,
    values: usize,
    diagonal: usize,
) -> Answer
    ensures { number_of result ≡ first_of (byte_checks offsets columns (misshapen dim offsets columns values diagonal)
        ++ matrix_lengths dim (offsets / 4) (columns / 4) (values / 8) (diagonal / 8)) }
{
    let wrong = is_misshapen(dim, offsets, columns, values, diagonal);
    check_bytes(offsets, columns, wrong)?;
    check_matrix(dim, offsets / 4, columns / 4, values / 8, diagonal / 8)
}

// The same with two more slices of `first` and `second` words, where `broken` says whether their bytes make no whole words.
pub fn check_vector_bytes(
    dim: u32,
    offsets: usize,
    columns: usize,
    values: usize,
    diagonal: usize,
    broken: bool,
    first: usize,
    second: usize,
) -> Answer
    ensures { number_of result ≡ first_of (byte_checks offsets columns (misshapen dim offsets columns values diagonal || broken)
        ++ vector_lengths dim (offsets / 4) (columns / 4) (values / 8) (diagonal / 8) first second) }
{
    let wrong = is_misshapen(dim, offsets, columns, values, diagonal);
    check_bytes(offsets, columns, either(wrong, broken))?;
    check_vectors(
        dim,
        offsets / 4,
        columns / 4,
        values / 8,
        diagonal / 8,
        first,
        second,
    )
}

// Whether a pattern has more words than the small rooms, by its bytes.
pub fn is_many(offsets: usize, columns: usize) -> bool
    ensures { result ≡ is_many offsets columns }
{
    if offsets > 68 {
        return true;
    }
    columns > 256
}

// The product from bytes to bytes, in room that is lent for the words.
fn mult_vec_in(
    offs: &mut [u32],
    cols: &mut [u32],
    vals: &mut [f64],
    diag: &mut [f64],
    p: &mut [f64],
    q: &mut [f64],
    y: &mut [u8],
    dim: u32,
    beta: f64,
    alpha: f64,
    offsets: &[u8],
    columns: &[u8],
    values: &[u8],
    diagonal: &[u8],
    x: &[u8],
) -> Answer
    requires { (FilledMatrix dim (length offs.old) (length cols.old) (length vals.old) (length diag.old) (length offsets.now) (length columns.now) (length values.now) (length diagonal.now))
        × (length y.old ≡ 8 * length p.old) × (length x.now ≡ 8 * length q.old) }
    ensures { Ends (vector_checks dim (indexes_in offsets.now) (indexes_in columns.now) (length values.now / 8) (length diagonal.now / 8) (length y.old / 8) (length x.now / 8)) result
        (bytes_of binary64 (mult_vec binary64 dim (indexes_in offsets.now) (indexes_in columns.now) (values_in binary64 values.now) (values_in binary64 diagonal.now) beta alpha (values_in binary64 x.now) (values_in binary64 y.old)))
        y.old y.new }
{
    decode_pattern(offs, cols, offsets, columns);
    decode_both(vals, diag, values, diagonal);
    decode_both(p, q, y, x);
    let answer = numbered::mult_vec(dim, offs, cols, vals, diag, p, beta, alpha, q);
    encode_if_done(y, answer, p);
    answer
}

// The same with room of its own. A call of few words does not pay for the room of the largest matrix.
fn mult_vec_in_small_room(
    y: &mut [u8],
    dim: u32,
    beta: f64,
    alpha: f64,
    offsets: &[u8],
    columns: &[u8],
    values: &[u8],
    diagonal: &[u8],
    x: &[u8],
) -> Answer
    requires { (HeldMatrix 16 64 dim (length offsets.now) (length columns.now) (length values.now) (length diagonal.now)) × (Held 8 48 (length y.old)) × (Held 8 48 (length x.now)) }
    ensures { Ends (vector_checks dim (indexes_in offsets.now) (indexes_in columns.now) (length values.now / 8) (length diagonal.now / 8) (length y.old / 8) (length x.now / 8)) result
        (bytes_of binary64 (mult_vec binary64 dim (indexes_in offsets.now) (indexes_in columns.now) (values_in binary64 values.now) (values_in binary64 diagonal.now) beta alpha (values_in binary64 x.now) (values_in binary64 y.old)))
        y.old y.new }
{
    let mut offs = [0u32; 17];
    let mut cols = [0u32; 64];
    let mut vals = [0.0; 576];
    let mut diag = [0.0; 144];
    let mut p = [0.0; 48];
    let mut q = [0.0; 48];
    mult_vec_in(
        &mut offs[..offsets.len() / 4],
        &mut cols[..columns.len() / 4],
        &mut vals[..values.len() / 8],
        &mut diag[..diagonal.len() / 8],
        &mut p[..y.len() / 8],
        &mut q[..x.len() / 8],
        y,
        dim,
        beta,
        alpha,
        offsets,
        columns,
        values,
        diagonal,
        x,
    )
}

fn mult_vec_in_full_room(
    y: &mut [u8],
    dim: u32,
    beta: f64,
    alpha: f64,
    offsets: &[u8],
    columns: &[u8],
    values: &[u8],
    diagonal: &[u8],
    x: &[u8],
) -> Answer
    requires { (HeldMatrix 4096 65535 dim (length offsets.now) (length columns.now) (length values.now) (length diagonal.now)) × (Held 8 12288 (length y.old)) × (Held 8 12288 (length x.now)) }
    ensures { Ends (vector_checks dim (indexes_in offsets.now) (indexes_in columns.now) (length values.now / 8) (length diagonal.now / 8) (length y.old / 8) (length x.now / 8)) result
        (bytes_of binary64 (mult_vec binary64 dim (indexes_in offsets.now) (indexes_in columns.now) (values_in binary64 values.now) (values_in binary64 diagonal.now) beta alpha (values_in binary64 x.now) (values_in binary64 y.old)))
        y.old y.new }
{
    let mut offs = [0u32; 4097];
    let mut cols = [0u32; 65535];
    let mut vals = [0.0; 589815];
    let mut diag = [0.0; 36864];
    let mut p = [0.0; 12288];
    let mut q = [0.0; 12288];
    mult_vec_in(
        &mut offs[..offsets.len() / 4],
        &mut cols[..columns.len() / 4],
        &mut vals[..values.len() / 8],
        &mut diag[..diagonal.len() / 8],
        &mut p[..y.len() / 8],
        &mut q[..x.len() / 8],
        y,
        dim,
        beta,
        alpha,
        offsets,
        columns,
        values,
        diagonal,
        x,
    )
}

// y scaled by beta, plus alpha times the matrix times x.
pub fn mult_vec(
    dim: u32,
    offsets: &[u8],
    columns: &[u8],
    values: &[u8],
    diagonal: &[u8],
    y: &mut [u8],
    beta: f64,
    alpha: f64,
    x: &[u8],
) -> Answer
    ensures { Ends (byte_checks (length offsets.now) (length columns.now) (misshapen_vectors dim (length offsets.now) (length columns.now) (length values.now) (length diagonal.now) (length y.old) (length x.now))
        ++ vector_checks dim (indexes_in offsets.now) (indexes_in columns.now) (length values.now / 8) (length diagonal.now / 8) (length y.old / 8) (length x.now / 8)) result
        (bytes_of binary64 (mult_vec binary64 dim (indexes_in offsets.now) (indexes_in columns.now) (values_in binary64 values.now) (values_in binary64 diagonal.now) beta alpha (values_in binary64 x.now) (values_in binary64 y.old)))
        y.old y.new }
{
    let broken = is_broken_pair(y.len(), x.len());
    check_vector_bytes(
        dim,
        offsets.len(),
        columns.len(),
        values.len(),
        diagonal.len(),
        broken,
        y.len() / 8,
        x.len() / 8,
    )?;
    if is_many(offsets.len(), columns.len()) {
        return mult_vec_in_full_room(y, dim, beta, alpha, offsets, columns, values, diagonal, x);
    }
    mult_vec_in_small_room(y, dim, beta, alpha, offsets, columns, values, diagonal, x)
}
