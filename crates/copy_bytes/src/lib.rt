// The copy of a matrix into a factor on lent bytes, with N as a number: 8 bytes to a value and 4 to an index, the low byte first.
// A call whose size, N or bytes are wrong answers 1 or 2 and changes nothing; any other is the call of `copying` at that N, from bytes to bytes.
#![tactic(auto)]

ghost use Rattle.std.specs.Prelude.{◌≡◌, List, ◌++◌, ℕ, ◌/◌, length};
ghost use Rattle.std.specs.Float.{binary64};
ghost use Rattle.answers.specs.Numbers.{number_of};
ghost use Rattle.answers.specs.Checks.{first_of};
ghost use Rattle.answers.specs.Promise.{Ends};
ghost use Rattle.factors.specs.Copy.{copied_rows};
ghost use Rattle.copying.specs.Checks.{copy_lengths, copy_checks};
ghost use Rattle.wire.specs.Bytes.{values_in, bytes_of};
ghost use Rattle.wire.specs.Words.{indexes_in};
ghost use Rattle.copy_bytes.specs.Checks.{misshapen_copy, copy_byte_checks};

use answers::{Answer, Numbered, Refusal};
use copy_room::unchecked::{copy_in_full_room, copy_in_small_room};
use factor_bytes::check_factor_bytes;
use matrix_bytes::{check_matrix_bytes, is_many};
use patterns::is_too_large;

// The checks by the lengths of the bytes. The size of either pattern is 1, and all that is wrong besides is 2.
fn check_copy_bytes(
    dim: u32,
    starts: usize,
    entries: usize,
    a_diagonal: usize,
    a_values: usize,
    offsets: usize,
    columns: usize,
    splits: usize,
    diagonal: usize,
    values: usize,
) -> Answer
    ensures { number_of result ≡ first_of (copy_byte_checks starts entries offsets columns (misshapen_copy dim starts entries a_diagonal a_values offsets columns splits diagonal values)
        ++ copy_lengths dim (starts / 4) (entries / 4) (a_diagonal / 8) (a_values / 8) (offsets / 4) (columns / 4) (splits / 4) (diagonal / 8) (values / 8)) }
{
    if is_too_large(offsets / 4, columns / 4) {
        return Err(Refusal::Size);
    }
    check_matrix_bytes(dim, starts, entries, a_values, a_diagonal)?;
    check_factor_bytes(dim, offsets, columns, splits, diagonal, values, false)?;
    if offsets / 4 != starts / 4 {
        return Err(Refusal::Shape);
    }
    Ok(())
}

// The factor's diagonal becomes A's, and each of its entries A's of that column, or +0.
pub fn copy_value(
    dim: u32,
    starts: &[u8],
    entries: &[u8],
    a_diagonal: &[u8],
    a_values: &[u8],
    offsets: &[u8],
    columns: &[u8],
    splits: &[u8],
    diagonal: &mut [u8],
    values: &mut [u8],
) -> Answer
    ensures { Ends {A = List ℕ × List ℕ} (copy_byte_checks (length starts.now) (length entries.now) (length offsets.now) (length columns.now) (misshapen_copy dim (length starts.now) (length entries.now) (length a_diagonal.now) (length a_values.now) (length offsets.now) (length columns.now) (length splits.now) (length diagonal.old) (length values.old))
        ++ copy_checks dim (indexes_in starts.now) (indexes_in entries.now) (length a_diagonal.now / 8) (length a_values.now / 8) (indexes_in offsets.now) (indexes_in columns.now) (indexes_in splits.now) (length diagonal.old / 8) (length values.old / 8)) result
        (bytes_of binary64 (values_in binary64 a_diagonal.now), bytes_of binary64 (copied_rows binary64 dim (indexes_in starts.now) (indexes_in entries.now) (values_in binary64 a_values.now) (indexes_in offsets.now) (indexes_in columns.now)))
        (diagonal.old, values.old) (diagonal.new, values.new) }
{
    check_copy_bytes(
        dim,
        starts.len(),
        entries.len(),
        a_diagonal.len(),
        a_values.len(),
        offsets.len(),
        columns.len(),
        splits.len(),
        diagonal.len(),
        values.len(),
    )?;
    if is_many(starts.len(), entries.len()) {
        return copy_in_full_room(
            diagonal, values, dim, starts, entries, a_diagonal, a_values, offsets, columns, splits,
        );
    }
    if is_many(offsets.len(), columns.len()) {
        return copy_in_full_room(
            diagonal, values, dim, starts, entries, a_diagonal, a_values, offsets, columns, splits,
        );
    }
    copy_in_small_room(
        diagonal, values, dim, starts, entries, a_diagonal, a_values, offsets, columns, splits,
    )
}
