// A factor read from its bytes into room that has as many words.
// This function asks that of its caller, whose checks have compared the lengths, so that no user calls it.
ghost use Rattle.std.specs.Prelude.{length};
ghost use Rattle.std.specs.Float.{binary64};
ghost use Rattle.factor_bytes.specs.Rooms.{FilledFactor, Decoded};

use matrix_bytes::unchecked::decode_both;
use pattern_bytes::unchecked::decode_pattern;
use wire::unchecked::decode_indexes;

pub fn decode_factor(
    offs: &mut [u32],
    cols: &mut [u32],
    cuts: &mut [u32],
    diag: &mut [f64],
    vals: &mut [f64],
    dim: u32,
    offsets: &[u8],
    columns: &[u8],
    splits: &[u8],
    diagonal: &[u8],
    values: &[u8],
)
    requires { FilledFactor dim (length offs.old) (length cols.old) (length cuts.old) (length diag.old) (length vals.old) (length offsets.now) (length columns.now) (length splits.now) (length diagonal.now) (length values.now) }
    ensures { Decoded binary64 offs.new cols.new cuts.new diag.new vals.new offsets.now columns.now splits.now diagonal.now values.now }
{
    decode_pattern(offs, cols, offsets, columns);
    decode_indexes(splits, cuts);
    decode_both(diag, vals, diagonal, values);
}
