// The copy of a matrix into a factor from bytes to bytes, with N as a number, in room for its words.
// These functions ask that the lengths of the bytes have been checked, so that no user calls them.
ghost use Rattle.std.specs.Prelude.{List, ℕ, ◌/◌, length};
ghost use Rattle.std.specs.Float.{binary64};
ghost use Rattle.answers.specs.Promise.{Ends};
ghost use Rattle.factors.specs.Copy.{copied_rows};
ghost use Rattle.copying.specs.Checks.{copy_checks};
ghost use Rattle.wire.specs.Bytes.{values_in, bytes_of};
ghost use Rattle.wire.specs.Words.{indexes_in};
ghost use Rattle.matrix_bytes.specs.Rooms.{HeldMatrix, FilledMatrix};
ghost use Rattle.factor_bytes.specs.Rooms.{HeldFactor, FilledFactor};

use answers::Answer;
use factor_bytes::unchecked::decode_factor;
use matrix_bytes::unchecked::{decode_both, encode_if_done};
use pattern_bytes::unchecked::decode_pattern;

// In room that is lent for the words.
fn copy_in(
    heads: &mut [u32],
    cells: &mut [u32],
    pivots: &mut [f64],
    blocks: &mut [f64],
    offs: &mut [u32],
    cols: &mut [u32],
    cuts: &mut [u32],
    diag: &mut [f64],
    vals: &mut [f64],
    diagonal: &mut [u8],
    values: &mut [u8],
    dim: u32,
    starts: &[u8],
    entries: &[u8],
    a_diagonal: &[u8],
    a_values: &[u8],
    offsets: &[u8],
    columns: &[u8],
    splits: &[u8],
) -> Answer
    requires { (FilledMatrix dim (length heads.old) (length cells.old) (length blocks.old) (length pivots.old) (length starts.now) (length entries.now) (length a_values.now) (length a_diagonal.now))
        × (FilledFactor dim (length offs.old) (length cols.old) (length cuts.old) (length diag.old) (length vals.old) (length offsets.now) (length columns.now) (length splits.now) (length diagonal.old) (length values.old)) }
    ensures { Ends {A = List ℕ × List ℕ} (copy_checks dim (indexes_in starts.now) (indexes_in entries.now) (length a_diagonal.now / 8) (length a_values.now / 8) (indexes_in offsets.now) (indexes_in columns.now) (indexes_in splits.now) (length diagonal.old / 8) (length values.old / 8)) result
        (bytes_of binary64 (values_in binary64 a_diagonal.now), bytes_of binary64 (copied_rows binary64 dim (indexes_in starts.now) (indexes_in entries.now) (values_in binary64 a_values.now) (indexes_in offsets.now) (indexes_in columns.now)))
        (diagonal.old, values.old) (diagonal.new, values.new) }
{
    decode_pattern(heads, cells, starts, entries);
    decode_both(pivots, blocks, a_diagonal, a_values);
    decode_factor(
        offs, cols, cuts, diag, vals, dim, offsets, columns, splits, diagonal, values,
    );
    let answer = numbered_factors::copy_value(
        dim, heads, cells, pivots, blocks, offs, cols, cuts, diag, vals,
    );
    encode_if_done(diagonal, answer, diag);
    encode_if_done(values, answer, vals);
    answer
}

// The same with room of its own. A call of few words does not pay for the room of the largest factor.
pub fn copy_in_small_room(
    diagonal: &mut [u8],
    values: &mut [u8],
    dim: u32,
    starts: &[u8],
    entries: &[u8],
    a_diagonal: &[u8],
    a_values: &[u8],
    offsets: &[u8],
    columns: &[u8],
    splits: &[u8],
) -> Answer
    requires { (HeldMatrix 16 64 dim (length starts.now) (length entries.now) (length a_values.now) (length a_diagonal.now)) × (HeldFactor 16 64 dim (length offsets.now) (length columns.now) (length splits.now) (length diagonal.old) (length values.old)) }
    ensures { Ends {A = List ℕ × List ℕ} (copy_checks dim (indexes_in starts.now) (indexes_in entries.now) (length a_diagonal.now / 8) (length a_values.now / 8) (indexes_in offsets.now) (indexes_in columns.now) (indexes_in splits.now) (length diagonal.old / 8) (length values.old / 8)) result
        (bytes_of binary64 (values_in binary64 a_diagonal.now), bytes_of binary64 (copied_rows binary64 dim (indexes_in starts.now) (indexes_in entries.now) (values_in binary64 a_values.now) (indexes_in offsets.now) (indexes_in columns.now)))
        (diagonal.old, values.old) (diagonal.new, values.new) }
{
    let mut heads = [0u32; 17];
    let mut cells = [0u32; 64];
    let mut pivots = [0.0; 144];
    let mut blocks = [0.0; 576];
    let mut offs = [0u32; 17];
    let mut cols = [0u32; 64];
    let mut cuts = [0u32; 16];
    let mut diag = [0.0; 144];
    let mut vals = [0.0; 576];
    copy_in(
        &mut heads[..starts.len() / 4],
        &mut cells[..entries.len() / 4],
        &mut pivots[..a_diagonal.len() / 8],
        &mut blocks[..a_values.len() / 8],
        &mut offs[..offsets.len() / 4],
        &mut cols[..columns.len() / 4],
        &mut cuts[..splits.len() / 4],
        &mut diag[..diagonal.len() / 8],
        &mut vals[..values.len() / 8],
        diagonal,
        values,
        dim,
        starts,
        entries,
        a_diagonal,
        a_values,
        offsets,
        columns,
        splits,
    )
}

pub fn copy_in_full_room(
    diagonal: &mut [u8],
    values: &mut [u8],
    dim: u32,
    starts: &[u8],
    entries: &[u8],
    a_diagonal: &[u8],
    a_values: &[u8],
    offsets: &[u8],
    columns: &[u8],
    splits: &[u8],
) -> Answer
    requires { (HeldMatrix 4096 65535 dim (length starts.now) (length entries.now) (length a_values.now) (length a_diagonal.now)) × (HeldFactor 4096 65535 dim (length offsets.now) (length columns.now) (length splits.now) (length diagonal.old) (length values.old)) }
    ensures { Ends {A = List ℕ × List ℕ} (copy_checks dim (indexes_in starts.now) (indexes_in entries.now) (length a_diagonal.now / 8) (length a_values.now / 8) (indexes_in offsets.now) (indexes_in columns.now) (indexes_in splits.now) (length diagonal.old / 8) (length values.old / 8)) result
        (bytes_of binary64 (values_in binary64 a_diagonal.now), bytes_of binary64 (copied_rows binary64 dim (indexes_in starts.now) (indexes_in entries.now) (values_in binary64 a_values.now) (indexes_in offsets.now) (indexes_in columns.now)))
        (diagonal.old, values.old) (diagonal.new, values.new) }
{
    let mut heads = [0u32; 4097];
    let mut cells = [0u32; 65535];
    let mut pivots = [0.0; 36864];
    let mut blocks = [0.0; 589815];
    let mut offs = [0u32; 4097];
    let mut cols = [0u32; 65535];
    let mut cuts = [0u32; 4096];
    let mut diag = [0.0; 36864];
    let mut vals = [0.0; 589815];
    copy_in(
        &mut heads[..starts.len() / 4],
        &mut cells[..entries.len() / 4],
        &mut pivots[..a_diagonal.len() / 8],
        &mut blocks[..a_values.len() / 8],
        &mut offs[..offsets.len() / 4],
        &mut cols[..columns.len() / 4],
        &mut cuts[..splits.len() / 4],
        &mut diag[..diagonal.len() / 8],
        &mut vals[..values.len() / 8],
        diagonal,
        values,
        dim,
        starts,
        entries,
        a_diagonal,
        a_values,
        offsets,
        columns,
        splits,
    )
}
