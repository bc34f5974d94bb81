// A factor on lent bytes: 8 bytes to a value and 4 to an index, the low byte first. The checks by the lengths of its bytes, for all its calls.
// A call whose size, N or bytes are wrong answers 1 or 2 and changes nothing; any other is the call on the words that the bytes hold.
#![tactic(auto)]

pub mod unchecked;

ghost use Rattle.std.specs.Prelude.{◌≡◌, ◌++◌, ◌||◌, ◌/◌};
ghost use Rattle.answers.specs.Numbers.{number_of};
ghost use Rattle.answers.specs.Checks.{first_of};
ghost use Rattle.pattern_bytes.specs.Checks.{byte_checks};
ghost use Rattle.factor_bytes.specs.Checks.{misshapen_factor, factor_lengths};

use answers::{Answer, Refusal};
use matrix_bytes::check_matrix_bytes;
use pattern_bytes::is_broken_index;

// The checks of a factor by the lengths of its bytes, where `torn` says whether those of anything else that is lent make no whole words.
pub fn check_factor_bytes(
    dim: u32,
    offsets: usize,
    columns: usize,
    splits: usize,
    diagonal: usize,
    values: usize,
    torn: bool,
) -> Answer
    ensures { number_of result ≡ first_of (byte_checks offsets columns (misshapen_factor dim offsets columns splits diagonal values || torn)
        ++ factor_lengths dim (offsets / 4) (columns / 4) (splits / 4) (diagonal / 8) (values / 8)) }
{
    check_matrix_bytes(dim, offsets, columns, values, diagonal)?;
    if is_broken_index(splits) {
        return Err(Refusal::Shape);
    }
    if torn {
        return Err(Refusal::Shape);
    }
    if splits / 4 != offsets / 4 - 1 {
        return Err(Refusal::Shape);
    }
    Ok(())
}
