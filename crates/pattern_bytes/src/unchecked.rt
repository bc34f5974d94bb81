// A pattern read from its bytes into room that has as many words.
// This function asks that of its caller, whose checks have compared the lengths, so that no user calls it.
ghost use Rattle.std.specs.Prelude.{◌≡◌, ◌*◌, length};
ghost use Rattle.wire.specs.Words.{indexes_in};

use wire::unchecked::decode_indexes;

pub fn decode_pattern(offs: &mut [u32], cols: &mut [u32], offsets: &[u8], columns: &[u8])
    requires { (length offsets.now ≡ 4 * length offs.old) × (length columns.now ≡ 4 * length cols.old) }
    ensures { (offs.new ≡ indexes_in offsets.now) × (cols.new ≡ indexes_in columns.now) }
{
    decode_indexes(offsets, offs);
    decode_indexes(columns, cols);
}
