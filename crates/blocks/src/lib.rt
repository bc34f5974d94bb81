// Small blocks by value: products, sums, scaling and inverses for N = 1, 2, 3, as document 01's "Small blocks" has them.
// Element (r,c) of a block stands at r + N*c. Each promise is one definition over N, at the N of the size.
#![tactic(auto)]

mod sizes;
pub mod unchecked;

ghost use Rattle.std.specs.Prelude.{◌≡◌, ℕ, ◌*◌, ◌≤◌, List, Float};
ghost use Rattle.std.specs.Float.{binary64};
ghost use Rattle.blocks.specs.Block.{plus_zero, listed, product, applied, applied_bare, scaled, added, subtracted, no_zero};
ghost use Rattle.blocks.specs.Inverse.{refusal_of, Inverted};
ghost use Rattle.blocks.specs.Size.{SizeLaws};

use answers::Refusal;
pub use sizes::{One, Three, Two};
use unchecked::Lent;

// The values of a row or of a block. Sums, differences and scaling go value by value.
pub trait Values: Copy {
    ghost count: { ℕ };

    ghost list: { Self → List Float };

    // Each value +0.
    fn zero() -> Self
        ensures { list result ≡ listed count (λ _. plus_zero binary64) };

    fn add(self, other: Self) -> Self
        ensures { list result ≡ added binary64 count (list self) (list other) };

    fn subtract(self, other: Self) -> Self
        ensures { list result ≡ subtracted binary64 count (list self) (list other) };

    fn scale(self, s: f64) -> Self
        ensures { list result ≡ scaled binary64 count (list self) s };

    // Whether no value is a zero, of either sign.
    fn has_no_zero(self) -> bool
        ensures { result ≡ no_zero binary64 count (list self) };
}

impl<const L: usize> Values for [f64; L] {
    ghost count = { L };

    ghost list = { λ values. values };

    #[tactic(auto, using(crate::proofs::ListedLaws::replicated))]
    fn zero() -> [f64; L] {
        [0.0; L]
    }

    #[tactic(auto, using(crate::proofs::ListedLaws::is_listed))]
    fn add(self, other: [f64; L]) -> [f64; L] {
        let mut sum = self;
        for k in 0..L {
            sum[k] = self[k] + other[k];
        }
        sum
    }

    #[tactic(auto, using(crate::proofs::ListedLaws::is_listed))]
    fn subtract(self, other: [f64; L]) -> [f64; L] {
        let mut difference = self;
        for k in 0..L {
            difference[k] = self[k] - other[k];
        }
        difference
    }

    #[tactic(auto, using(crate::proofs::ListedLaws::is_listed))]
    fn scale(self, s: f64) -> [f64; L] {
        let mut scaled = self;
        for k in 0..L {
            scaled[k] = self[k] * s;
        }
        scaled
    }

    #[tactic(auto, unfolding(base::specs::All::all_to))]
    fn has_no_zero(self) -> bool {
        let mut none = true;
        for k in 0..L {
            none = none & (self[k] != 0.0);
        }
        none
    }
}

// A size N: the rows of N values, the blocks of N by N, and what is made of them. `One`, `Two` and `Three` are all that there are.
pub trait Size {
    type Row: Lent;

    type Block: Lent;

    ghost DIM: { ℕ };

    const DIM: usize;

    // Block times vector: value r sums a(r,q) * x(q) from +0 on, in rising q.
    fn apply(a: Self::Block, x: Self::Row) -> Self::Row
        ensures { Self.Row.list result ≡ applied binary64 DIM (Self.Block.list a) (Self.Row.list x) };

    // The same with sums that begin with their first term, which may give a zero another sign.
    fn apply_bare(a: Self::Block, x: Self::Row) -> Self::Row
        ensures { Self.Row.list result ≡ applied_bare binary64 DIM (Self.Block.list a) (Self.Row.list x) };

    // The product of two blocks: column c is a times column c of b.
    fn product(a: Self::Block, b: Self::Block) -> Self::Block
        ensures { Self.Block.list result ≡ product binary64 DIM (Self.Block.list a) (Self.Block.list b) };

    // The inverse, with s = 1/d, where the determinant d is no zero.
    fn inverse(a: Self::Block) -> Result<Self::Block, NoInverse<Self::Block>>
        ensures { Inverted binary64 DIM Self.Block.list (Self.Block.list a) result };

    ghost sizes: { SizeLaws DIM Self.Row.count Self.Block.count };
}

// A block that has no inverse, as it was given.
#[derive(Clone, Copy)]
pub struct NoInverse<B> {
    pub block: B,
}

// It is refused with 9, and row 0.
impl<B: Copy> From<NoInverse<B>> for Refusal {
    ghost from_gives = { λ why refusal. refusal ≡ refusal_of why };

    fn from(_why: NoInverse<B>) -> Refusal {
        Refusal::Singular(0)
    }
}

// How many values a block has.
pub fn block_size<S: Size>() -> usize
    ensures square { result ≡ S.DIM * S.DIM }
    ensures small { result ≤ 9 }
{
    S::DIM * S::DIM
}
