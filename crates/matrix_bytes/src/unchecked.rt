// Values read from their bytes and written back, for the calls whose checks have compared the lengths.
// These functions ask that of their callers, so that no user calls them.
ghost use Rattle.std.specs.Prelude.{◌≡◌, ◌*◌, length};
ghost use Rattle.std.specs.Float.{binary64};
ghost use Rattle.answers.specs.Numbers.{number_of};
ghost use Rattle.wire.specs.Bytes.{values_in};
ghost use Rattle.matrix_bytes.specs.Rooms.{written};

use answers::{Answer, Numbered};
use wire::unchecked::{decode, encode};

// Two slices of values, decoded into room that has as many.
pub fn decode_both(first: &mut [f64], second: &mut [f64], p: &[u8], q: &[u8])
    requires { (length p.now ≡ 8 * length first.old) × (length q.now ≡ 8 * length second.old) }
    ensures { (first.new ≡ values_in binary64 p.now) × (second.new ≡ values_in binary64 q.now) }
{
    decode(p, first);
    decode(q, second);
}

// What a call left of values, as bytes. Those of a refused call stay as they are: a NaN among them would come back as other bytes.
pub fn encode_if_done(bytes: &mut [u8], answer: Answer, values: &[f64])
    requires { length bytes.old ≡ 8 * length values.now }
    ensures { bytes.new ≡ written binary64 (number_of answer) values.now bytes.old }
{
    if answer.number() == 0 {
        encode(values, bytes);
    }
}
