// The entry points for a host: every call of the crates below, on numbers and lent byte slices, with N as a number.
// A value is 8 bytes, an index or a flag 4, a level 2, the low byte first. Bytes that are not those of the words that a call has at N are 2, and nothing has changed.
#![tactic(auto)]

pub mod element_calls;
pub mod fill_calls;
pub mod matrix_calls;
pub mod pattern_calls;
pub mod timed;
pub mod timed_elements;
pub mod timed_matrix;
pub mod timed_vectors;
pub mod unchecked;
pub mod vector_calls;

ghost use Rattle.std.specs.Prelude.{◌≡◌, [], ◌∷◌, ◌*◌, length};
ghost use Rattle.std.specs.Float.{binary64};
ghost use Rattle.answers.specs.Checks.{◌when◌};
ghost use Rattle.answers.specs.Limits.{vector_checks};
ghost use Rattle.blocks.specs.Block.{product, applied, scaled, added, subtracted};
ghost use Rattle.blocks.specs.Inverse.{singular};
ghost use Rattle.lent.specs.Steps.{inverse_or};
ghost use Rattle.root.specs.Sqrt.{sqrt};
ghost use Rattle.wire.specs.Bytes.{values_in};
ghost use Rattle.outcomes.specs.Calls.{◌bytes_for◌, Answered, Checked};

use outcomes::{Outcome, outcome_of};

// The root of x.
pub fn pierbramble_square_root(x: f64) -> f64
    ensures { result ≡ sqrt binary64 x }
{
    root::square_root(x)
}

// The checks of a call that is given n and one vector.
pub fn pierbramble_check_vector(n: u32, dim: u32, length: usize) -> Outcome
    ensures { Checked (vector_checks n dim length) result }
{
    outcome_of(answers::check_vector(n, dim, length))
}

// Block times vector.
pub fn pierbramble_apply(dim: u32, a: &[u8], x: &[u8], out: &mut [u8]) -> Outcome
    ensures { Answered binary64 dim ((length a.now bytes_for dim * dim) ∷ (length x.now bytes_for dim) ∷ (length out.old bytes_for dim) ∷ [])
        [] (applied binary64 dim (values_in binary64 a.now) (values_in binary64 x.now))
        out.old out.new result }
{
    block_bytes::apply(dim, a, x, out)
}

// The product of two blocks.
pub fn pierbramble_product(dim: u32, a: &[u8], b: &[u8], out: &mut [u8]) -> Outcome
    ensures { Answered binary64 dim ((length a.now bytes_for dim * dim) ∷ (length b.now bytes_for dim * dim) ∷ (length out.old bytes_for dim * dim) ∷ [])
        [] (product binary64 dim (values_in binary64 a.now) (values_in binary64 b.now))
        out.old out.new result }
{
    block_bytes::product(dim, a, b, out)
}

// A vector, scaled by s.
pub fn pierbramble_scale(dim: u32, v: &[u8], s: f64, out: &mut [u8]) -> Outcome
    ensures { Answered binary64 dim ((length v.now bytes_for dim) ∷ (length out.old bytes_for dim) ∷ [])
        [] (scaled binary64 dim (values_in binary64 v.now) s)
        out.old out.new result }
{
    block_bytes::scale(dim, v, s, out)
}

// The sum of two vectors.
pub fn pierbramble_add(dim: u32, u: &[u8], v: &[u8], out: &mut [u8]) -> Outcome
    ensures { Answered binary64 dim ((length u.now bytes_for dim) ∷ (length v.now bytes_for dim) ∷ (length out.old bytes_for dim) ∷ [])
        [] (added binary64 dim (values_in binary64 u.now) (values_in binary64 v.now))
        out.old out.new result }
{
    block_bytes::add(dim, u, v, out)
}

// The difference of two vectors.
pub fn pierbramble_subtract(dim: u32, u: &[u8], v: &[u8], out: &mut [u8]) -> Outcome
    ensures { Answered binary64 dim ((length u.now bytes_for dim) ∷ (length v.now bytes_for dim) ∷ (length out.old bytes_for dim) ∷ [])
        [] (subtracted binary64 dim (values_in binary64 u.now) (values_in binary64 v.now))
        out.old out.new result }
{
    block_bytes::subtract(dim, u, v, out)
}

// The sum of two blocks.
pub fn pierbramble_add_block(dim: u32, u: &[u8], v: &[u8], out: &mut [u8]) -> Outcome
    ensures { Answered binary64 dim ((length u.now bytes_for dim * dim) ∷ (length v.now bytes_for dim * dim) ∷ (length out.old bytes_for dim * dim) ∷ [])
        [] (added binary64 (dim * dim) (values_in binary64 u.now) (values_in binary64 v.now))
        out.old out.new result }
{
    block_bytes::add_block(dim, u, v, out)
}

// The difference of two blocks.
pub fn pierbramble_subtract_block(dim: u32, u: &[u8], v: &[u8], out: &mut [u8]) -> Outcome
    ensures { Answered binary64 dim ((length u.now bytes_for dim * dim) ∷ (length v.now bytes_for dim * dim) ∷ (length out.old bytes_for dim * dim) ∷ [])
        [] (subtracted binary64 (dim * dim) (values_in binary64 u.now) (values_in binary64 v.now))
        out.old out.new result }
{
    block_bytes::subtract_block(dim, u, v, out)
}

// The inverse of a block, or 9 and the block as given.
pub fn pierbramble_inverse(dim: u32, a: &[u8], out: &mut [u8]) -> Outcome
    ensures { Answered binary64 dim ((length a.now bytes_for dim * dim) ∷ (length out.old bytes_for dim * dim) ∷ [])
        ((9 when singular binary64 dim (values_in binary64 a.now)) ∷ []) (inverse_or binary64 dim (values_in binary64 a.now))
        out.old out.new result }
{
    block_bytes::inverse(dim, a, out)
}
