// The entry points of the matrix calls, on numbers and lent byte slices, with N as a number: 8 bytes to a value, 4 to an index or a flag.
// All work is in the crates `matrix_bytes` and `fixing_bytes`; here an answer becomes an outcome. None of these calls answers 9, so that no row is ever above 0.
ghost use Rattle.std.specs.Prelude.{◌≡◌, List, ◌++◌, ℕ, ◌/◌, length};
ghost use Rattle.std.specs.Float.{binary64};
ghost use Rattle.patterns.specs.Pattern.{rows_of};
ghost use Rattle.vectors.specs.Vectors.{zeroed};
ghost use Rattle.matrix.specs.Checks.{matrix_checks, vector_checks};
ghost use Rattle.matrix.specs.Product.{mult_vec};
ghost use Rattle.fixing.specs.Fixing.{fix_diagonal, fix_values};
ghost use Rattle.wire.specs.Bytes.{values_in, bytes_of};
ghost use Rattle.wire.specs.Words.{indexes_in, flags_in};
ghost use Rattle.pattern_bytes.specs.Checks.{byte_checks};
ghost use Rattle.matrix_bytes.specs.Checks.{misshapen, misshapen_vectors, misshapen_flags};
ghost use Rattle.outcomes.specs.Calls.{Finished};

use outcomes::{Outcome, rowless};

// y scaled by beta, plus alpha times the matrix times x.
pub fn pierbramble_mult_vec(
    dim: u32,
    offsets: &[u8],
    columns: &[u8],
    values: &[u8],
    diagonal: &[u8],
    y: &mut [u8],
    beta: f64,
    alpha: f64,
    x: &[u8],
) -> Outcome
    ensures { (Finished (byte_checks (length offsets.now) (length columns.now) (misshapen_vectors dim (length offsets.now) (length columns.now) (length values.now) (length diagonal.now) (length y.old) (length x.now))
        ++ vector_checks dim (indexes_in offsets.now) (indexes_in columns.now) (length values.now / 8) (length diagonal.now / 8) (length y.old / 8) (length x.now / 8)) result.number
        (bytes_of binary64 (mult_vec binary64 dim (indexes_in offsets.now) (indexes_in columns.now) (values_in binary64 values.now) (values_in binary64 diagonal.now) beta alpha (values_in binary64 x.now) (values_in binary64 y.old)))
        y.old y.new) × (result.row ≡ 0) }
{
    rowless(matrix_bytes::mult_vec(dim, offsets, columns, values, diagonal, y, beta, alpha, x))
}

// All values become +0.
pub fn pierbramble_matrix_set_zero(
    dim: u32,
    offsets: &[u8],
    columns: &[u8],
    values: &mut [u8],
    diagonal: &mut [u8],
) -> Outcome
    ensures { (Finished {A = List ℕ × List ℕ} (byte_checks (length offsets.now) (length columns.now) (misshapen dim (length offsets.now) (length columns.now) (length values.old) (length diagonal.old))
        ++ matrix_checks dim (indexes_in offsets.now) (indexes_in columns.now) (length values.old / 8) (length diagonal.old / 8)) result.number
        (bytes_of binary64 (zeroed binary64 (values_in binary64 values.old)), bytes_of binary64 (zeroed binary64 (values_in binary64 diagonal.old)))
        (values.old, diagonal.old) (values.new, diagonal.new)) × (result.row ≡ 0) }
{
    rowless(fixing_bytes::set_zero(dim, offsets, columns, values, diagonal))
}

// Fixed values leave the matrix, with val_dia on its diagonal.
pub fn pierbramble_set_fixed_bc(
    dim: u32,
    val_dia: f64,
    flags: &[u8],
    diagonal: &mut [u8],
    values: &mut [u8],
    offsets: &[u8],
    columns: &[u8],
) -> Outcome
    ensures { (Finished {A = List ℕ × List ℕ} (byte_checks (length offsets.now) (length columns.now) (misshapen_flags dim (length offsets.now) (length columns.now) (length values.old) (length diagonal.old) (length flags.now))
        ++ vector_checks dim (indexes_in offsets.now) (indexes_in columns.now) (length values.old / 8) (length diagonal.old / 8) (length flags.now / 4) (length flags.now / 4)) result.number (
          bytes_of binary64 (fix_diagonal binary64 dim val_dia (flags_in flags.now) (rows_of (indexes_in offsets.now)) (values_in binary64 diagonal.old)),
          bytes_of binary64 (fix_values binary64 dim (flags_in flags.now) (indexes_in offsets.now) (indexes_in columns.now) (values_in binary64 values.old)),
        )
        (diagonal.old, values.old) (diagonal.new, values.new)) × (result.row ≡ 0) }
{
    rowless(fixing_bytes::set_fixed_bc(dim, val_dia, flags, diagonal, values, offsets, columns))
}
