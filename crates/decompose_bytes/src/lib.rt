// The decomposition of a factor on lent bytes, with N as a number: 8 bytes to a value and 4 to an index, the low byte first.
// A call whose size, N or bytes are wrong answers 1 or 2 and changes nothing; any other is the call of `decompose` at that N, from bytes to bytes.
#![tactic(auto)]

ghost use Rattle.std.specs.Prelude.{◌≡◌, List, [], ℕ, ◌*◌, length};
ghost use Rattle.std.specs.Float.{binary64};
ghost use Rattle.answers.specs.Numbers.{number_of, row_of};
ghost use Rattle.factors.specs.Factor.{decompose};
ghost use Rattle.reducing.specs.Lent.{pattern_of, factor_of};
ghost use Rattle.numbered_factors.specs.Calls.{Factored};
ghost use Rattle.wire.specs.Bytes.{values_in};
ghost use Rattle.wire.specs.Words.{indexes_in};
ghost use Rattle.pattern_bytes.specs.Checks.{byte_checks};
ghost use Rattle.factor_bytes.specs.Checks.{misshapen_factor};
ghost use Rattle.factor_bytes.specs.Rooms.{HeldFactor, FilledFactor};
ghost use Rattle.decompose_bytes.specs.Left.{factor_bytes, left_over};

use answers::{Answer, Numbered};
use factor_bytes::check_factor_bytes;
use factor_bytes::unchecked::decode_factor;
use matrix_bytes::is_many;
use wire::unchecked::encode;

// What the run left of values, as bytes: after 0, and after 9 as far as it came. Those of any other refused call stay as they are.
fn encode_if_run(bytes: &mut [u8], answer: Answer, values: &[f64])
    requires { length bytes.old ≡ 8 * length values.now }
    ensures { bytes.new ≡ left_over binary64 (number_of answer) values.now bytes.old }
{
    let number = answer.number();
    if number == 0 {
        encode(values, bytes);
        return;
    }
    if number == 9 {
        encode(values, bytes);
    }
}

// The decomposition from bytes to bytes, in room that is lent for the words.
fn decompose_in(
    offs: &mut [u32],
    cols: &mut [u32],
    cuts: &mut [u32],
    diag: &mut [f64],
    vals: &mut [f64],
    diagonal: &mut [u8],
    values: &mut [u8],
    dim: u32,
    offsets: &[u8],
    columns: &[u8],
    splits: &[u8],
) -> Answer
    requires { FilledFactor dim (length offs.old) (length cols.old) (length cuts.old) (length diag.old) (length vals.old) (length offsets.now) (length columns.now) (length splits.now) (length diagonal.old) (length values.old) }
    ensures { Factored {A = List ℕ × List ℕ} binary64 [] dim (pattern_of (indexes_in offsets.now) (indexes_in columns.now) (indexes_in splits.now)) (factor_of (values_in binary64 diagonal.old) (values_in binary64 values.old)) (number_of result) (row_of result)
        (factor_bytes binary64 (decompose binary64 dim (pattern_of (indexes_in offsets.now) (indexes_in columns.now) (indexes_in splits.now)) (factor_of (values_in binary64 diagonal.old) (values_in binary64 values.old))).left)
        (diagonal.old, values.old) (diagonal.new, values.new) }
{
    decode_factor(
        offs, cols, cuts, diag, vals, dim, offsets, columns, splits, diagonal, values,
    );
    let answer = numbered_factors::decompose(dim, offs, cols, cuts, diag, vals);
    encode_if_run(diagonal, answer, diag);
    encode_if_run(values, answer, vals);
    answer
}

// The same with room of its own. A call of few words does not pay for the room of the largest factor.
fn decompose_in_small_room(
    diagonal: &mut [u8],
    values: &mut [u8],
    dim: u32,
    offsets: &[u8],
    columns: &[u8],
    splits: &[u8],
) -> Answer
    requires { HeldFactor 16 64 dim (length offsets.now) (length columns.now) (length splits.now) (length diagonal.old) (length values.old) }
    ensures { Factored {A = List ℕ × List ℕ} binary64 [] dim (pattern_of (indexes_in offsets.now) (indexes_in columns.now) (indexes_in splits.now)) (factor_of (values_in binary64 diagonal.old) (values_in binary64 values.old)) (number_of result) (row_of result)
        (factor_bytes binary64 (decompose binary64 dim (pattern_of (indexes_in offsets.now) (indexes_in columns.now) (indexes_in splits.now)) (factor_of (values_in binary64 diagonal.old) (values_in binary64 values.old))).left)
        (diagonal.old, values.old) (diagonal.new, values.new) }
{
    let mut offs = [0u32; 17];
    let mut cols = [0u32; 64];
    let mut cuts = [0u32; 16];
    let mut diag = [0.0; 144];
    let mut vals = [0.0; 576];
    decompose_in(
        &mut offs[..offsets.len() / 4],
        &mut cols[..columns.len() / 4],
        &mut cuts[..splits.len() / 4],
        &mut diag[..diagonal.len() / 8],
        &mut vals[..values.len() / 8],
        diagonal,
        values,
        dim,
        offsets,
        columns,
        splits,
    )
}

fn decompose_in_full_room(
    diagonal: &mut [u8],
    values: &mut [u8],
    dim: u32,
    offsets: &[u8],
    columns: &[u8],
    splits: &[u8],
) -> Answer
    requires { HeldFactor 4096 65535 dim (length offsets.now) (length columns.now) (length splits.now) (length diagonal.old) (length values.old) }
    ensures { Factored {A = List ℕ × List ℕ} binary64 [] dim (pattern_of (indexes_in offsets.now) (indexes_in columns.now) (indexes_in splits.now)) (factor_of (values_in binary64 diagonal.old) (values_in binary64 values.old)) (number_of result) (row_of result)
        (factor_bytes binary64 (decompose binary64 dim (pattern_of (indexes_in offsets.now) (indexes_in columns.now) (indexes_in splits.now)) (factor_of (values_in binary64 diagonal.old) (values_in binary64 values.old))).left)
        (diagonal.old, values.old) (diagonal.new, values.new) }
{
    let mut offs = [0u32; 4097];
    let mut cols = [0u32; 65535];
    let mut cuts = [0u32; 4096];
    let mut diag = [0.0; 36864];
    let mut vals = [0.0; 589815];
    decompose_in(
        &mut offs[..offsets.len() / 4],
        &mut cols[..columns.len() / 4],
        &mut cuts[..splits.len() / 4],
        &mut diag[..diagonal.len() / 8],
        &mut vals[..values.len() / 8],
        diagonal,
        values,
        dim,
        offsets,
        columns,
        splits,
    )
}

// The factor becomes its decomposition. At a pivot that can't be inverted it stops, and the answer is 9 with that row.
pub fn decompose(
    dim: u32,
    offsets: &[u8],
    columns: &[u8],
    splits: &[u8],
    diagonal: &mut [u8],
    values: &mut [u8],
) -> Answer
    ensures { Factored {A = List ℕ × List ℕ} binary64 (byte_checks (length offsets.now) (length columns.now) (misshapen_factor dim (length offsets.now) (length columns.now) (length splits.now) (length diagonal.old) (length values.old))) dim (pattern_of (indexes_in offsets.now) (indexes_in columns.now) (indexes_in splits.now)) (factor_of (values_in binary64 diagonal.old) (values_in binary64 values.old)) (number_of result) (row_of result)
        (factor_bytes binary64 (decompose binary64 dim (pattern_of (indexes_in offsets.now) (indexes_in columns.now) (indexes_in splits.now)) (factor_of (values_in binary64 diagonal.old) (values_in binary64 values.old))).left)
        (diagonal.old, values.old) (diagonal.new, values.new) }
{
    check_factor_bytes(
        dim,
        offsets.len(),
        columns.len(),
        splits.len(),
        diagonal.len(),
        values.len(),
        false,
    )?;
    if is_many(offsets.len(), columns.len()) {
        return decompose_in_full_room(diagonal, values, dim, offsets, columns, splits);
    }
    decompose_in_small_room(diagonal, values, dim, offsets, columns, splits)
}
