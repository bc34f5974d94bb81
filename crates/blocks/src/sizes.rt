// The sizes 1, 2 and 3, each operation written out.
// A loop over N would have the same values, and the compiler would have to find out that it may be written out.
ghost use Rattle.std.specs.Prelude.{◌≡◌};
ghost use Rattle.std.specs.Float.{binary64};
ghost use Rattle.std.specs.Float.Ieee.{eq};
ghost use Rattle.std.proofs.Common.{rules};
ghost use Rattle.blocks.specs.Block.{plus_zero, block_of};
ghost use Rattle.blocks.specs.Inverse.{cofactor};

use crate::{NoInverse, Size};

pub struct One;

pub struct Two;

pub struct Three;

// Whether a determinant compares equal to zero: either zero does, and a NaN does not.
fn is_zero(d: f64) -> bool
    ensures { result ≡ eq d (plus_zero binary64) }
{
    d == 0.0
}

impl Size for One {
    type Row = [f64; 1];

    type Block = [f64; 1];

    ghost DIM = { 1 };

    const DIM: usize = 1;

    fn apply(a: [f64; 1], x: [f64; 1]) -> [f64; 1] {
        [0.0 + a[0] * x[0]]
    }

    fn apply_bare(a: [f64; 1], x: [f64; 1]) -> [f64; 1] {
        [a[0] * x[0]]
    }

    fn product(a: [f64; 1], b: [f64; 1]) -> [f64; 1] {
        One::apply(a, b)
    }

    fn inverse(a: [f64; 1]) -> Result<[f64; 1], NoInverse<[f64; 1]>> {
        let d = a[0];
        if is_zero(d) {
            return Err(NoInverse { block: a });
        }
        let s = 1.0 / d;
        Ok([s])
    }

    ghost sizes = { Prim.search rules };
}

impl Size for Two {
    type Row = [f64; 2];

    type Block = [f64; 4];

    ghost DIM = { 2 };

    const DIM: usize = 2;

    fn apply(a: [f64; 4], x: [f64; 2]) -> [f64; 2] {
        [
            0.0 + a[0] * x[0] + a[2] * x[1],
            0.0 + a[1] * x[0] + a[3] * x[1],
        ]
    }

    fn apply_bare(a: [f64; 4], x: [f64; 2]) -> [f64; 2] {
        [a[0] * x[0] + a[2] * x[1], a[1] * x[0] + a[3] * x[1]]
    }

    fn product(a: [f64; 4], b: [f64; 4]) -> [f64; 4] {
        let x = Two::apply(a, [b[0], b[1]]);
        let y = Two::apply(a, [b[2], b[3]]);
        [x[0], x[1], y[0], y[1]]
    }

    fn inverse(a: [f64; 4]) -> Result<[f64; 4], NoInverse<[f64; 4]>> {
        let d = a[0] * a[3] - a[2] * a[1];
        if is_zero(d) {
            return Err(NoInverse { block: a });
        }
        let s = 1.0 / d;
        Ok([s * a[3], s * -a[1], s * -a[2], s * a[0]])
    }

    ghost sizes = { Prim.search rules };
}

// The nine K(r,c), at r + 3*c.
fn cofactors(a: [f64; 9]) -> [f64; 9]
    ensures { result ≡ block_of 3 (cofactor binary64 a) }
{
    [
        a[4] * a[8] - a[7] * a[5],
        a[7] * a[2] - a[1] * a[8],
        a[1] * a[5] - a[4] * a[2],
        a[5] * a[6] - a[8] * a[3],
        a[8] * a[0] - a[2] * a[6],
        a[2] * a[3] - a[5] * a[0],
        a[3] * a[7] - a[6] * a[4],
        a[6] * a[1] - a[0] * a[7],
        a[0] * a[4] - a[3] * a[1],
    ]
}

impl Size for Three {
    type Row = [f64; 3];

    type Block = [f64; 9];

    ghost DIM = { 3 };

    const DIM: usize = 3;

    fn apply(a: [f64; 9], x: [f64; 3]) -> [f64; 3] {
        [
            0.0 + a[0] * x[0] + a[3] * x[1] + a[6] * x[2],
            0.0 + a[1] * x[0] + a[4] * x[1] + a[7] * x[2],
            0.0 + a[2] * x[0] + a[5] * x[1] + a[8] * x[2],
        ]
    }

    fn apply_bare(a: [f64; 9], x: [f64; 3]) -> [f64; 3] {
        [
            a[0] * x[0] + a[3] * x[1] + a[6] * x[2],
            a[1] * x[0] + a[4] * x[1] + a[7] * x[2],
            a[2] * x[0] + a[5] * x[1] + a[8] * x[2],
        ]
    }

    fn product(a: [f64; 9], b: [f64; 9]) -> [f64; 9] {
        let x = Three::apply(a, [b[0], b[1], b[2]]);
        let y = Three::apply(a, [b[3], b[4], b[5]]);
        let z = Three::apply(a, [b[6], b[7], b[8]]);
        [x[0], x[1], x[2], y[0], y[1], y[2], z[0], z[1], z[2]]
    }

    fn inverse(a: [f64; 9]) -> Result<[f64; 9], NoInverse<[f64; 9]>> {
        let k = cofactors(a);
        let d = a[0] * k[0] + a[3] * k[1] + a[6] * k[2];
        if is_zero(d) {
            return Err(NoInverse { block: a });
        }
        let s = 1.0 / d;
        Ok([
            s * k[0],
            s * k[1],
            s * k[2],
            s * k[3],
            s * k[4],
            s * k[5],
            s * k[6],
            s * k[7],
            s * k[8],
        ])
    }

    ghost sizes = { Prim.search rules };
}
