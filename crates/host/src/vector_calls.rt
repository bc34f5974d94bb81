// The entry points of the vector calls, on numbers and lent byte slices, with N as a number: 8 bytes to a value, 4 to a flag.
// All work is in the crate `vector_bytes`; here an answer becomes an outcome. None of these calls answers 9, so that no row is ever above 0.
ghost use Rattle.std.specs.Prelude.{◌≡◌, [], ◌∷◌, length};
ghost use Rattle.std.specs.Float.{binary64};
ghost use Rattle.vectors.specs.Vectors.{zeroed, copied, add_scaled, scale_add, fixed, dot_to};
ghost use Rattle.wire.specs.Bytes.{values_in, bytes_of};
ghost use Rattle.wire.specs.Words.{flags_in};
ghost use Rattle.vector_bytes.specs.Checks.{words, long_words, call_checks};
ghost use Rattle.outcomes.specs.Calls.{Finished};
ghost use Rattle.outcomes.specs.Sums.{FinishedSum};

use outcomes::{Outcome, Summed, rowless, summed_of};

// Each value becomes +0.
pub fn pierbramble_set_zero(dim: u32, n: u32, p: &mut [u8]) -> Outcome
    ensures { (Finished (call_checks n dim (words 8 (length p.old) ∷ [])) result.number
        (bytes_of binary64 (zeroed binary64 (values_in binary64 p.old))) p.old p.new) × (result.row ≡ 0) }
{
    rowless(vector_bytes::set_zero(dim, n, p))
}

// p becomes u.
pub fn pierbramble_copy(dim: u32, n: u32, p: &mut [u8], u: &[u8]) -> Outcome
    ensures { (Finished (call_checks n dim (words 8 (length p.old) ∷ words 8 (length u.now) ∷ [])) result.number
        (bytes_of binary64 (copied (values_in binary64 u.now) (values_in binary64 p.old))) p.old p.new) × (result.row ≡ 0) }
{
    rowless(vector_bytes::copy(dim, n, p, u))
}

// u becomes u + p * alpha.
pub fn pierbramble_add_scaled_vector(
    dim: u32,
    n: u32,
    u: &mut [u8],
    alpha: f64,
    p: &[u8],
) -> Outcome
    ensures { (Finished (call_checks n dim (words 8 (length u.old) ∷ words 8 (length p.now) ∷ [])) result.number
        (bytes_of binary64 (add_scaled binary64 alpha (values_in binary64 p.now) (values_in binary64 u.old))) u.old u.new) × (result.row ≡ 0) }
{
    rowless(vector_bytes::add_scaled_vector(dim, n, u, alpha, p))
}

// p becomes r + p * beta.
pub fn pierbramble_scale_and_add_vec(dim: u32, n: u32, p: &mut [u8], beta: f64, r: &[u8]) -> Outcome
    ensures { (Finished (call_checks n dim (words 8 (length p.old) ∷ words 8 (length r.now) ∷ [])) result.number
        (bytes_of binary64 (scale_add binary64 beta (values_in binary64 r.now) (values_in binary64 p.old))) p.old p.new) × (result.row ≡ 0) }
{
    rowless(vector_bytes::scale_and_add_vec(dim, n, p, beta, r))
}

// Fixed values become +0.
pub fn pierbramble_set_fixed(dim: u32, n: u32, values: &mut [u8], flags: &[u8]) -> Outcome
    ensures { (Finished (call_checks n dim (words 8 (length values.old) ∷ words 4 (length flags.now) ∷ [])) result.number
        (bytes_of binary64 (fixed binary64 (flags_in flags.now) (values_in binary64 values.old))) values.old values.new) × (result.row ≡ 0) }
{
    rowless(vector_bytes::set_fixed(dim, n, values, flags))
}

// The same on a right side, where flags may be longer.
pub fn pierbramble_set_fix_dof_to_rhs_vector(
    dim: u32,
    n: u32,
    rhs: &mut [u8],
    flags: &[u8],
) -> Outcome
    ensures { (Finished (call_checks n dim (words 8 (length rhs.old) ∷ long_words 4 (length flags.now) ∷ [])) result.number
        (bytes_of binary64 (fixed binary64 (flags_in flags.now) (values_in binary64 rhs.old))) rhs.old rhs.new) × (result.row ≡ 0) }
{
    rowless(vector_bytes::set_fix_dof_to_rhs_vector(dim, n, rhs, flags))
}

// The dot product.
pub fn pierbramble_dot(dim: u32, n: u32, v0: &[u8], v1: &[u8]) -> Summed
    ensures { FinishedSum binary64 (call_checks n dim (words 8 (length v0.now) ∷ words 8 (length v1.now) ∷ []))
        (dot_to binary64 dim (values_in binary64 v0.now) (values_in binary64 v1.now) n) result }
{
    summed_of(vector_bytes::dot(dim, n, v0, v1))
}
