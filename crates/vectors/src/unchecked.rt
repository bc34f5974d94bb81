// The vector operations on slices whose lengths fit: for the crates above, whose checks have shown that they do.
// These functions ask that of their callers, so that no user calls them.
ghost use Rattle.std.specs.Prelude.{◌≡◌, ◌*◌, ◌+◌, ◌≤◌, length};
ghost use Rattle.std.specs.Float.{binary64};
ghost use Rattle.vectors.specs.Vectors.{zeroed, copied, add_scaled, scale_add, kept_by, fixed, row_dot, dot_to};

use blocks::Size;

// Each value becomes +0.
#[tactic(auto, using(base::proofs::Each::each_none, base::proofs::Each::each_all), unfolding(crate::specs::Vectors::zeroed))]
pub fn set_zero(p: &mut [f64])
    ensures { p.new ≡ zeroed binary64 p.old }
{
    for x in p.iter_mut() {
        *x = 0.0;
    }
}

// p = u. A loop: std's copy would call the C library's `memmove`, which no archive asks for.
#[tactic(auto, using(base::proofs::Each::each_none, base::proofs::Each::each_all), unfolding(crate::specs::Vectors::copied))]
pub fn copy(p: &mut [f64], u: &[f64])
    requires { length u.now ≡ length p.old }
    ensures { p.new ≡ copied u.now p.old }
{
    for (k, x) in p.iter_mut().enumerate() {
        *x = u[k];
    }
}

// u = u + p * alpha
#[tactic(auto, using(base::proofs::Each::each_none, base::proofs::Each::each_all), unfolding(crate::specs::Vectors::add_scaled))]
pub fn add_scaled_vector(u: &mut [f64], alpha: f64, p: &[f64])
    requires { length p.now ≡ length u.old }
    ensures { u.new ≡ add_scaled binary64 alpha p.now u.old }
{
    for (k, x) in u.iter_mut().enumerate() {
        *x = *x + p[k] * alpha;
    }
}

// p = r + p * beta
#[tactic(auto, using(base::proofs::Each::each_none, base::proofs::Each::each_all), unfolding(crate::specs::Vectors::scale_add))]
pub fn scale_and_add_vec(p: &mut [f64], beta: f64, r: &[f64])
    requires { length r.now ≡ length p.old }
    ensures { p.new ≡ scale_add binary64 beta r.now p.old }
{
    for (k, x) in p.iter_mut().enumerate() {
        *x = r[k] + *x * beta;
    }
}

// What a flag leaves of a value. Both ways give a value, so that the loop below has no branch around its store.
fn kept_by(flag: i32, x: f64) -> f64
    ensures { result ≡ kept_by binary64 flag x }
{
    if flag != 0 {
        return 0.0;
    }
    x
}

// +0 at each fixed value.
#[tactic(auto, using(base::proofs::Each::each_none, base::proofs::Each::each_all), unfolding(crate::specs::Vectors::fixed))]
pub fn set_fixed(values: &mut [f64], flags: &[i32])
    requires { length values.old ≤ length flags.now }
    ensures { values.new ≡ fixed binary64 flags.now values.old }
{
    for (k, x) in values.iter_mut().enumerate() {
        *x = kept_by(flags[k], *x);
    }
}

// The sum of one row's products, from +0 on, in rising index.
fn row_dot<S: Size>(u: &[f64], v: &[f64], i: usize) -> f64
    requires { (S.DIM * i + S.DIM ≤ length u.now) × (S.DIM * i + S.DIM ≤ length v.now) }
    ensures { result ≡ row_dot binary64 S.DIM u.now v.now i }
{
    let first = S::DIM * i;
    let mut sum = 0.0;
    for k in 0..S::DIM {
        sum = sum + u[first + k] * v[first + k];
    }
    sum
}

// The dot product of n rows: each row's own sum is added to the running sum.
#[tactic(auto, using(base::proofs::Sizes::part_fits), unfolding(crate::specs::Vectors::dot_to))]
pub fn dot<S: Size>(n: usize, u: &[f64], v: &[f64]) -> f64
    requires { (S.DIM * n ≤ length u.now) × (S.DIM * n ≤ length v.now) }
    ensures { result ≡ dot_to binary64 S.DIM u.now v.now n }
{
    let mut sum = 0.0;
    for i in 0..n {
        sum = sum + row_dot::<S>(u, v, i);
    }
    sum
}
