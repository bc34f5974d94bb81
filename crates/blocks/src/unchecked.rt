// Rows and blocks read out of a lent slice, and written back: for the crates above, whose checks have shown that they are there.
// These functions ask that of their callers, so that no user calls them.
ghost use Rattle.std.specs.Prelude.{◌≡◌, ℕ, ◌+◌, ◌*◌, ◌<◌, ◌≤◌, length, get_or, Float};
ghost use Rattle.std.specs.Float.{nan};
ghost use Rattle.blocks.specs.Block.{listed};
ghost use Rattle.blocks.specs.Lent.{values_at, block_at, vector_at, put_at};

use crate::{Size, Values};

// Values that stand in a slice part by part, one after the other.
pub trait Lent: Values {
    // Part k, by value.
    fn at(values: &[f64], k: usize) -> Self
        requires { Self.count * k + Self.count ≤ length values.now }
        ensures { Self.list result ≡ values_at Self.count values.now (Self.count * k) };

    // Part k, written back.
    fn put(self, values: &mut [f64], k: usize)
        requires { Self.count * k + Self.count ≤ length values.old }
        ensures whole { length (Self.list self) ≡ Self.count }
        ensures put { values.new ≡ put_at (Self.count * k) (Self.list self) values.old };

    // Each value anew, from its place and itself.
    fn map<F: Fn(usize, f64) -> f64>(self, f: F) -> Self
        requires { (k : ℕ) (x : Float) → k < Self.count → F.pre f k x }
        ensures { (g : ℕ → Float → Float) → ((k : ℕ) (x y : Float) → k < Self.count → F.post f k x y → y ≡ g k x)
            → Self.list result ≡ listed Self.count (λ k. g k (get_or (Self.list self) k nan)) };
}

impl<const L: usize> Lent for [f64; L] {
    #[tactic(auto, using(crate::proofs::ListedLaws::is_listed))]
    fn at(values: &[f64], k: usize) -> [f64; L] {
        let from = L * k;
        let mut part = [0.0; L];
        for i in 0..L {
            part[i] = values[from + i];
        }
        part
    }

    fn put(self, values: &mut [f64], k: usize) {
        let from = L * k;
        for i in 0..L {
            values[from + i] = self[i];
        }
    }

    fn map<F: Fn(usize, f64) -> f64>(self, f: F) -> [f64; L] {
        let mut new = self;
        for k in 0..L {
            new[k] = f(k, self[k]);
        }
        new
    }
}

// Block e of a slice of blocks, by value.
pub fn block_at<S: Size>(values: &[f64], e: usize) -> S::Block
    requires { S.DIM * S.DIM * e + S.DIM * S.DIM ≤ length values.now }
    ensures { S.Block.list result ≡ block_at S.DIM values.now e }
{
    S::Block::at(values, e)
}

// Row i of a vector, by value.
pub fn vector_at<S: Size>(values: &[f64], i: usize) -> S::Row
    requires { S.DIM * i + S.DIM ≤ length values.now }
    ensures { S.Row.list result ≡ vector_at S.DIM values.now i }
{
    S::Row::at(values, i)
}

// Block e, written back.
pub fn put_block<S: Size>(values: &mut [f64], e: usize, new: S::Block)
    requires { S.DIM * S.DIM * e + S.DIM * S.DIM ≤ length values.old }
    ensures { values.new ≡ put_at (S.DIM * S.DIM * e) (S.Block.list new) values.old }
{
    new.put(values, e);
}

// Row i, written back.
pub fn put_row<S: Size>(values: &mut [f64], i: usize, new: S::Row)
    requires { S.DIM * i + S.DIM ≤ length values.old }
    ensures { values.new ≡ put_at (S.DIM * i) (S.Row.list new) values.old }
{
    new.put(values, i);
}

// Any values, put in place `at` and after it. A loop: std's copy would call the C library's `memmove`, which no archive asks for.
pub fn put(values: &mut [f64], at: usize, new: &[f64])
    requires { at + length new.now ≤ length values.old }
    ensures { values.new ≡ put_at at new.now values.old }
{
    for (k, x) in new.iter().enumerate() {
        values[at + k] = *x;
    }
}
