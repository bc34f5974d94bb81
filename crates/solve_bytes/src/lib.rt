// The preconditioner's solve on lent bytes, with N as a number: 8 bytes to a value and 4 to an index, the low byte first.
// A call whose size, N or bytes are wrong answers 1 or 2 and changes nothing; any other is the call of `precondition` at that N, from bytes to bytes.
#![tactic(auto)]

ghost use Rattle.std.specs.Prelude.{◌≡◌, ◌++◌, ◌*◌, ◌/◌, length};
ghost use Rattle.std.specs.Float.{binary64};
ghost use Rattle.answers.specs.Numbers.{number_of};
ghost use Rattle.answers.specs.Checks.{first_of};
ghost use Rattle.answers.specs.Promise.{Ends};
ghost use Rattle.factors.specs.Solve.{solve};
ghost use Rattle.precondition.specs.Checks.{solve_lengths, solve_checks};
ghost use Rattle.wire.specs.Bytes.{values_in, bytes_of};
ghost use Rattle.wire.specs.Words.{indexes_in};
ghost use Rattle.pattern_bytes.specs.Checks.{byte_checks, Held};
ghost use Rattle.factor_bytes.specs.Rooms.{HeldFactor, FilledFactor};
ghost use Rattle.solve_bytes.specs.Checks.{misshapen_solve};

use answers::{Answer, Refusal};
use factor_bytes::check_factor_bytes;
use factor_bytes::unchecked::decode_factor;
use matrix_bytes::is_many;
use matrix_bytes::unchecked::encode_if_done;
use pattern_bytes::is_broken_value;
use wire::unchecked::decode;

// The checks by the lengths of the bytes.
fn check_solve_bytes(
    dim: u32,
    offsets: usize,
    columns: usize,
    splits: usize,
    diagonal: usize,
    values: usize,
    vec: usize,
) -> Answer
    ensures { number_of result ≡ first_of (byte_checks offsets columns (misshapen_solve dim offsets columns splits diagonal values vec)
        ++ solve_lengths dim (offsets / 4) (columns / 4) (splits / 4) (diagonal / 8) (values / 8) (vec / 8)) }
{
    let torn = is_broken_value(vec);
    check_factor_bytes(dim, offsets, columns, splits, diagonal, values, torn)?;
    if vec / 8 != dim as usize * (offsets / 4 - 1) {
        return Err(Refusal::Shape);
    }
    Ok(())
}

// The solve from bytes to bytes, in room that is lent for the words.
fn solve_in(
    offs: &mut [u32],
    cols: &mut [u32],
    cuts: &mut [u32],
    diag: &mut [f64],
    vals: &mut [f64],
    x: &mut [f64],
    vec: &mut [u8],
    dim: u32,
    offsets: &[u8],
    columns: &[u8],
    splits: &[u8],
    diagonal: &[u8],
    values: &[u8],
) -> Answer
    requires { (FilledFactor dim (length offs.old) (length cols.old) (length cuts.old) (length diag.old) (length vals.old) (length offsets.now) (length columns.now) (length splits.now) (length diagonal.now) (length values.now)) × (length vec.old ≡ 8 * length x.old) }
    ensures { Ends (solve_checks dim (indexes_in offsets.now) (indexes_in columns.now) (indexes_in splits.now) (length diagonal.now / 8) (length values.now / 8) (length vec.old / 8)) result
        (bytes_of binary64 (solve binary64 dim (record { offsets = indexes_in offsets.now; columns = indexes_in columns.now; splits = indexes_in splits.now }) (record { diagonal = values_in binary64 diagonal.now; values = values_in binary64 values.now }) (values_in binary64 vec.old)))
        vec.old vec.new }
{
    decode_factor(
        offs, cols, cuts, diag, vals, dim, offsets, columns, splits, diagonal, values,
    );
    decode(vec, x);
    let answer = numbered_factors::solve_preconditioning_vec(dim, x, offs, cols, cuts, diag, vals);
    encode_if_done(vec, answer, x);
    answer
}

// The same with room of its own. A call of few words does not pay for the room of the largest factor.
fn solve_in_small_room(
    vec: &mut [u8],
    dim: u32,
    offsets: &[u8],
    columns: &[u8],
    splits: &[u8],
    diagonal: &[u8],
    values: &[u8],
) -> Answer
    requires { (HeldFactor 16 64 dim (length offsets.now) (length columns.now) (length splits.now) (length diagonal.now) (length values.now)) × (Held 8 48 (length vec.old)) }
    ensures { Ends (solve_checks dim (indexes_in offsets.now) (indexes_in columns.now) (indexes_in splits.now) (length diagonal.now / 8) (length values.now / 8) (length vec.old / 8)) result
        (bytes_of binary64 (solve binary64 dim (record { offsets = indexes_in offsets.now; columns = indexes_in columns.now; splits = indexes_in splits.now }) (record { diagonal = values_in binary64 diagonal.now; values = values_in binary64 values.now }) (values_in binary64 vec.old)))
        vec.old vec.new }
{
    let mut offs = [0u32; 17];
    let mut cols = [0u32; 64];
    let mut cuts = [0u32; 16];
    let mut diag = [0.0; 144];
    let mut vals = [0.0; 576];
    let mut x = [0.0; 48];
    solve_in(
        &mut offs[..offsets.len() / 4],
        &mut cols[..columns.len() / 4],
        &mut cuts[..splits.len() / 4],
        &mut diag[..diagonal.len() / 8],
        &mut vals[..values.len() / 8],
        &mut x[..vec.len() / 8],
        vec,
        dim,
        offsets,
        columns,
        splits,
        diagonal,
        values,
    )
}

fn solve_in_full_room(
    vec: &mut [u8],
    dim: u32,
    offsets: &[u8],
    columns: &[u8],
    splits: &[u8],
    diagonal: &[u8],
    values: &[u8],
) -> Answer
    requires { (HeldFactor 4096 65535 dim (length offsets.now) (length columns.now) (length splits.now) (length diagonal.now) (length values.now)) × (Held 8 12288 (length vec.old)) }
    ensures { Ends (solve_checks dim (indexes_in offsets.now) (indexes_in columns.now) (indexes_in splits.now) (length diagonal.now / 8) (length values.now / 8) (length vec.old / 8)) result
        (bytes_of binary64 (solve binary64 dim (record { offsets = indexes_in offsets.now; columns = indexes_in columns.now; splits = indexes_in splits.now }) (record { diagonal = values_in binary64 diagonal.now; values = values_in binary64 values.now }) (values_in binary64 vec.old)))
        vec.old vec.new }
{
    let mut offs = [0u32; 4097];
    let mut cols = [0u32; 65535];
    let mut cuts = [0u32; 4096];
    let mut diag = [0.0; 36864];
    let mut vals = [0.0; 589815];
    let mut x = [0.0; 12288];
    solve_in(
        &mut offs[..offsets.len() / 4],
        &mut cols[..columns.len() / 4],
        &mut cuts[..splits.len() / 4],
        &mut diag[..diagonal.len() / 8],
        &mut vals[..values.len() / 8],
        &mut x[..vec.len() / 8],
        vec,
        dim,
        offsets,
        columns,
        splits,
        diagonal,
        values,
    )
}

// vec becomes what the factor solves it to.
pub fn solve_preconditioning_vec(
    dim: u32,
    vec: &mut [u8],
    offsets: &[u8],
    columns: &[u8],
    splits: &[u8],
    diagonal: &[u8],
    values: &[u8],
) -> Answer
    ensures { Ends (byte_checks (length offsets.now) (length columns.now) (misshapen_solve dim (length offsets.now) (length columns.now) (length splits.now) (length diagonal.now) (length values.now) (length vec.old))
        ++ solve_checks dim (indexes_in offsets.now) (indexes_in columns.now) (indexes_in splits.now) (length diagonal.now / 8) (length values.now / 8) (length vec.old / 8)) result
        (bytes_of binary64 (solve binary64 dim (record { offsets = indexes_in offsets.now; columns = indexes_in columns.now; splits = indexes_in splits.now }) (record { diagonal = values_in binary64 diagonal.now; values = values_in binary64 values.now }) (values_in binary64 vec.old)))
        vec.old vec.new }
{
    check_solve_bytes(
        dim,
        offsets.len(),
        columns.len(),
        splits.len(),
        diagonal.len(),
        values.len(),
        vec.len(),
    )?;
    if is_many(offsets.len(), columns.len()) {
        return solve_in_full_room(vec, dim, offsets, columns, splits, diagonal, values);
    }
    solve_in_small_room(vec, dim, offsets, columns, splits, diagonal, values)
}
