// The entry points of the factor's calls, on numbers and lent byte slices, with N as a number: 8 bytes to a value, 4 to an index, the low byte first.
// All work is in the crates below; here an answer becomes an outcome. Only `decompose` answers 9, with its row. A library of its own, to be linked beside that of `host`.
#![tactic(auto)]

pub mod timed;
pub mod unchecked;

ghost use Rattle.std.specs.Prelude.{◌≡◌, List, ◌++◌, ℕ, ◌/◌, length};
ghost use Rattle.std.specs.Float.{binary64};
ghost use Rattle.factors.specs.Copy.{copied_rows};
ghost use Rattle.factors.specs.Factor.{decompose};
ghost use Rattle.factors.specs.Solve.{solve};
ghost use Rattle.reducing.specs.Lent.{pattern_of, factor_of};
ghost use Rattle.copying.specs.Checks.{copy_checks};
ghost use Rattle.precondition.specs.Checks.{solve_checks};
ghost use Rattle.numbered_factors.specs.Calls.{Factored};
ghost use Rattle.wire.specs.Bytes.{values_in, bytes_of};
ghost use Rattle.wire.specs.Words.{indexes_in};
ghost use Rattle.outcomes.specs.Calls.{Finished};
ghost use Rattle.pattern_bytes.specs.Checks.{byte_checks};
ghost use Rattle.factor_bytes.specs.Checks.{misshapen_factor};
ghost use Rattle.copy_bytes.specs.Checks.{misshapen_copy, copy_byte_checks};
ghost use Rattle.solve_bytes.specs.Checks.{misshapen_solve};
ghost use Rattle.decompose_bytes.specs.Left.{factor_bytes};

use outcomes::{Outcome, outcome_of, rowless};

// vec becomes what the factor solves it to.
#[unsafe(no_mangle)]
pub extern "C" fn pierbramble_solve_preconditioning_vec(
    dim: u32,
    vec: &mut [u8],
    offsets: &[u8],
    columns: &[u8],
    splits: &[u8],
    diagonal: &[u8],
    values: &[u8],
) -> Outcome
    ensures { (Finished (byte_checks (length offsets.now) (length columns.now) (misshapen_solve dim (length offsets.now) (length columns.now) (length splits.now) (length diagonal.now) (length values.now) (length vec.old))
        ++ solve_checks dim (indexes_in offsets.now) (indexes_in columns.now) (indexes_in splits.now) (length diagonal.now / 8) (length values.now / 8) (length vec.old / 8)) result.number
        (bytes_of binary64 (solve binary64 dim (pattern_of (indexes_in offsets.now) (indexes_in columns.now) (indexes_in splits.now)) (factor_of (values_in binary64 diagonal.now) (values_in binary64 values.now)) (values_in binary64 vec.old)))
        vec.old vec.new) × (result.row ≡ 0) }
{
    rowless(solve_bytes::solve_preconditioning_vec(
        dim, vec, offsets, columns, splits, diagonal, values,
    ))
}

// The factor becomes its decomposition. At a pivot that can't be inverted it stops, and the outcome is 9 with that row.
#[unsafe(no_mangle)]
pub extern "C" fn pierbramble_decompose(
    dim: u32,
    offsets: &[u8],
    columns: &[u8],
    splits: &[u8],
    diagonal: &mut [u8],
    values: &mut [u8],
) -> Outcome
    ensures { Factored {A = List ℕ × List ℕ} binary64 (byte_checks (length offsets.now) (length columns.now) (misshapen_factor dim (length offsets.now) (length columns.now) (length splits.now) (length diagonal.old) (length values.old)))
        dim (pattern_of (indexes_in offsets.now) (indexes_in columns.now) (indexes_in splits.now)) (factor_of (values_in binary64 diagonal.old) (values_in binary64 values.old)) result.number result.row
        (factor_bytes binary64 (decompose binary64 dim (pattern_of (indexes_in offsets.now) (indexes_in columns.now) (indexes_in splits.now)) (factor_of (values_in binary64 diagonal.old) (values_in binary64 values.old))).left)
        (diagonal.old, values.old) (diagonal.new, values.new) }
{
    outcome_of(decompose_bytes::decompose(dim, offsets, columns, splits, diagonal, values))
}

// The factor's diagonal becomes A's, and each of its entries A's of that column, or +0.
#[unsafe(no_mangle)]
pub extern "C" fn pierbramble_copy_value(
    dim: u32,
    starts: &[u8],
    entries: &[u8],
    a_diagonal: &[u8],
    a_values: &[u8],
    offsets: &[u8],
    columns: &[u8],
    splits: &[u8],
    diagonal: &mut [u8],
    values: &mut [u8],
) -> Outcome
    ensures { (Finished {A = List ℕ × List ℕ} (copy_byte_checks (length starts.now) (length entries.now) (length offsets.now) (length columns.now) (misshapen_copy dim (length starts.now) (length entries.now) (length a_diagonal.now) (length a_values.now) (length offsets.now) (length columns.now) (length splits.now) (length diagonal.old) (length values.old))
        ++ copy_checks dim (indexes_in starts.now) (indexes_in entries.now) (length a_diagonal.now / 8) (length a_values.now / 8) (indexes_in offsets.now) (indexes_in columns.now) (indexes_in splits.now) (length diagonal.old / 8) (length values.old / 8)) result.number
        (bytes_of binary64 (values_in binary64 a_diagonal.now), bytes_of binary64 (copied_rows binary64 dim (indexes_in starts.now) (indexes_in entries.now) (values_in binary64 a_values.now) (indexes_in offsets.now) (indexes_in columns.now)))
        (diagonal.old, values.old) (diagonal.new, values.new)) × (result.row ≡ 0) }
{
    rowless(copy_bytes::copy_value(
        dim, starts, entries, a_diagonal, a_values, offsets, columns, splits, diagonal, values,
    ))
}
