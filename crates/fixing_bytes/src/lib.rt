// The calls that write a matrix, on lent bytes, with N as a number: 8 bytes to a value and 4 to an index or a flag, the low byte first.
// A call whose size, N or bytes are wrong answers 1 or 2 and changes nothing; any other is the call of `matrix` or `fixing` at that N, from bytes to bytes.
#![tactic(auto)]

ghost use Rattle.std.specs.Prelude.{◌≡◌, List, ◌++◌, false, ℕ, ◌*◌, ◌/◌, length, Float};
ghost use Rattle.std.specs.Float.{binary64};
ghost use Rattle.answers.specs.Limits.{outside_of};
ghost use Rattle.answers.specs.Promise.{Ends};
ghost use Rattle.patterns.specs.Pattern.{rows_of};
ghost use Rattle.vectors.specs.Vectors.{zeroed};
ghost use Rattle.matrix.specs.Checks.{matrix_checks, vector_checks};
ghost use Rattle.fixing.specs.Fixing.{fix_diagonal, fix_values};
ghost use Rattle.wire.specs.Bytes.{values_in, bytes_of};
ghost use Rattle.wire.specs.Words.{indexes_in, flags_in};
ghost use Rattle.pattern_bytes.specs.Checks.{byte_checks, Held};
ghost use Rattle.matrix_bytes.specs.Checks.{misshapen, misshapen_flags};
ghost use Rattle.matrix_bytes.specs.Rooms.{HeldMatrix, FilledMatrix};
ghost use Rattle.fixing_bytes.specs.Operations.{checks_of, new_values, new_diagonal};

use answers::Answer;
use matrix_bytes::unchecked::{decode_both, encode_if_done};
use matrix_bytes::{check_matrix_bytes, check_vector_bytes, is_many};
use pattern_bytes::is_broken_index;
use pattern_bytes::unchecked::decode_pattern;
use wire::unchecked::decode_flags;

// The calls of this crate, so that both share one way from bytes to bytes.
#[derive(Clone, Copy)]
enum Operation {
    SetZero,
    SetFixedBc,
}

// The call at N, on words.
fn write_words(
    values: &mut [f64],
    diagonal: &mut [f64],
    op: Operation,
    dim: u32,
    val_dia: f64,
    flags: &[i32],
    offsets: &[u32],
    columns: &[u32],
) -> Answer
    requires { outside_of 1 3 dim ≡ false }
    ensures { Ends {A = List Float × List Float} (checks_of op dim offsets.now columns.now (length values.old) (length diagonal.old) (length flags.now)) result
        (new_values binary64 op dim flags.now offsets.now columns.now values.old, new_diagonal binary64 op dim val_dia flags.now offsets.now diagonal.old)
        (values.old, diagonal.old) (values.new, diagonal.new) }
{
    match op {
        Operation::SetZero => numbered::set_zero(dim, offsets, columns, values, diagonal),
        Operation::SetFixedBc => {
            numbered::set_fixed_bc(dim, val_dia, flags, diagonal, values, offsets, columns)
        }
    }
}

// The same from bytes to bytes, in room that is lent for the words. Of a refused call no byte is written.
fn write_in(
    offs: &mut [u32],
    cols: &mut [u32],
    vals: &mut [f64],
    diag: &mut [f64],
    marks: &mut [i32],
    values: &mut [u8],
    diagonal: &mut [u8],
    op: Operation,
    dim: u32,
    val_dia: f64,
    flags: &[u8],
    offsets: &[u8],
    columns: &[u8],
) -> Answer
    requires { (FilledMatrix dim (length offs.old) (length cols.old) (length vals.old) (length diag.old) (length offsets.now) (length columns.now) (length values.old) (length diagonal.old)) × (length flags.now ≡ 4 * length marks.old) }
    ensures { Ends {A = List ℕ × List ℕ} (checks_of op dim (indexes_in offsets.now) (indexes_in columns.now) (length values.old / 8) (length diagonal.old / 8) (length flags.now / 4)) result (
      bytes_of binary64 (new_values binary64 op dim (flags_in flags.now) (indexes_in offsets.now) (indexes_in columns.now) (values_in binary64 values.old)),
      bytes_of binary64 (new_diagonal binary64 op dim val_dia (flags_in flags.now) (indexes_in offsets.now) (values_in binary64 diagonal.old)),
    )
        (values.old, diagonal.old) (values.new, diagonal.new) }
{
    decode_pattern(offs, cols, offsets, columns);
    decode_both(vals, diag, values, diagonal);
    decode_flags(flags, marks);
    let answer = write_words(vals, diag, op, dim, val_dia, marks, offs, cols);
    encode_if_done(values, answer, vals);
    encode_if_done(diagonal, answer, diag);
    answer
}

// The same with room of its own. A call of few words does not pay for the room of the largest matrix.
fn write_in_small_room(
    values: &mut [u8],
    diagonal: &mut [u8],
    op: Operation,
    dim: u32,
    val_dia: f64,
    flags: &[u8],
    offsets: &[u8],
    columns: &[u8],
) -> Answer
    requires { (HeldMatrix 16 64 dim (length offsets.now) (length columns.now) (length values.old) (length diagonal.old)) × (Held 4 48 (length flags.now)) }
    ensures { Ends {A = List ℕ × List ℕ} (checks_of op dim (indexes_in offsets.now) (indexes_in columns.now) (length values.old / 8) (length diagonal.old / 8) (length flags.now / 4)) result (
      bytes_of binary64 (new_values binary64 op dim (flags_in flags.now) (indexes_in offsets.now) (indexes_in columns.now) (values_in binary64 values.old)),
      bytes_of binary64 (new_diagonal binary64 op dim val_dia (flags_in flags.now) (indexes_in offsets.now) (values_in binary64 diagonal.old)),
    )
        (values.old, diagonal.old) (values.new, diagonal.new) }
{
    let mut offs = [0u32; 17];
    let mut cols = [0u32; 64];
    let mut vals = [0.0; 576];
    let mut diag = [0.0; 144];
    let mut marks = [0i32; 48];
    write_in(
        &mut offs[..offsets.len() / 4],
        &mut cols[..columns.len() / 4],
        &mut vals[..values.len() / 8],
        &mut diag[..diagonal.len() / 8],
        &mut marks[..flags.len() / 4],
        values,
        diagonal,
        op,
        dim,
        val_dia,
        flags,
        offsets,
        columns,
    )
}

fn write_in_full_room(
    values: &mut [u8],
    diagonal: &mut [u8],
    op: Operation,
    dim: u32,
    val_dia: f64,
    flags: &[u8],
    offsets: &[u8],
    columns: &[u8],
) -> Answer
    requires { (HeldMatrix 4096 65535 dim (length offsets.now) (length columns.now) (length values.old) (length diagonal.old)) × (Held 4 12288 (length flags.now)) }
    ensures { Ends {A = List ℕ × List ℕ} (checks_of op dim (indexes_in offsets.now) (indexes_in columns.now) (length values.old / 8) (length diagonal.old / 8) (length flags.now / 4)) result (
      bytes_of binary64 (new_values binary64 op dim (flags_in flags.now) (indexes_in offsets.now) (indexes_in columns.now) (values_in binary64 values.old)),
      bytes_of binary64 (new_diagonal binary64 op dim val_dia (flags_in flags.now) (indexes_in offsets.now) (values_in binary64 diagonal.old)),
    )
        (values.old, diagonal.old) (values.new, diagonal.new) }
{
    let mut offs = [0u32; 4097];
    let mut cols = [0u32; 65535];
    let mut vals = [0.0; 589815];
    let mut diag = [0.0; 36864];
    let mut marks = [0i32; 12288];
    write_in(
        &mut offs[..offsets.len() / 4],
        &mut cols[..columns.len() / 4],
        &mut vals[..values.len() / 8],
        &mut diag[..diagonal.len() / 8],
        &mut marks[..flags.len() / 4],
        values,
        diagonal,
        op,
        dim,
        val_dia,
        flags,
        offsets,
        columns,
    )
}

// All values become +0. There are no flags.
pub fn set_zero(
    dim: u32,
    offsets: &[u8],
    columns: &[u8],
    values: &mut [u8],
    diagonal: &mut [u8],
) -> Answer
    ensures { Ends {A = List ℕ × List ℕ} (byte_checks (length offsets.now) (length columns.now) (misshapen dim (length offsets.now) (length columns.now) (length values.old) (length diagonal.old))
        ++ matrix_checks dim (indexes_in offsets.now) (indexes_in columns.now) (length values.old / 8) (length diagonal.old / 8)) result
        (bytes_of binary64 (zeroed binary64 (values_in binary64 values.old)), bytes_of binary64 (zeroed binary64 (values_in binary64 diagonal.old)))
        (values.old, diagonal.old) (values.new, diagonal.new) }
{
    check_matrix_bytes(
        dim,
        offsets.len(),
        columns.len(),
        values.len(),
        diagonal.len(),
    )?;
    let none = [0u8; 1];
    let op = Operation::SetZero;
    if is_many(offsets.len(), columns.len()) {
        return write_in_full_room(values, diagonal, op, dim, 0.0, &none[..0], offsets, columns);
    }
    write_in_small_room(values, diagonal, op, dim, 0.0, &none[..0], offsets, columns)
}

// Fixed values leave the matrix, with val_dia on its diagonal.
pub fn set_fixed_bc(
    dim: u32,
    val_dia: f64,
    flags: &[u8],
    diagonal: &mut [u8],
    values: &mut [u8],
    offsets: &[u8],
    columns: &[u8],
) -> Answer
    ensures { Ends {A = List ℕ × List ℕ} (byte_checks (length offsets.now) (length columns.now) (misshapen_flags dim (length offsets.now) (length columns.now) (length values.old) (length diagonal.old) (length flags.now))
        ++ vector_checks dim (indexes_in offsets.now) (indexes_in columns.now) (length values.old / 8) (length diagonal.old / 8) (length flags.now / 4) (length flags.now / 4)) result (
          bytes_of binary64 (fix_diagonal binary64 dim val_dia (flags_in flags.now) (rows_of (indexes_in offsets.now)) (values_in binary64 diagonal.old)),
          bytes_of binary64 (fix_values binary64 dim (flags_in flags.now) (indexes_in offsets.now) (indexes_in columns.now) (values_in binary64 values.old)),
        )
        (diagonal.old, values.old) (diagonal.new, values.new) }
{
    let broken = is_broken_index(flags.len());
    check_vector_bytes(
        dim,
        offsets.len(),
        columns.len(),
        values.len(),
        diagonal.len(),
        broken,
        flags.len() / 4,
        flags.len() / 4,
    )?;
    let op = Operation::SetFixedBc;
    if is_many(offsets.len(), columns.len()) {
        return write_in_full_room(values, diagonal, op, dim, val_dia, flags, offsets, columns);
    }
    write_in_small_room(values, diagonal, op, dim, val_dia, flags, offsets, columns)
}
