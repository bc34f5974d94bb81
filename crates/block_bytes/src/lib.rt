// The block operations on lent bytes, with N as a number: 8 bytes to a value, the low byte first.
// An N other than 1, 2, 3, or bytes that are not those of the values at N, are 2, and out is unchanged. Only an inverse has a later check.
#![tactic(auto)]

pub mod unchecked;

ghost use Rattle.std.specs.Prelude.{◌≡◌, [], ◌∷◌, ◌*◌, ◌≤◌, length};
ghost use Rattle.std.specs.Float.{binary64};
ghost use Rattle.answers.specs.Checks.{◌when◌};
ghost use Rattle.blocks.specs.Block.{product, applied, scaled, added, subtracted};
ghost use Rattle.blocks.specs.Inverse.{singular};
ghost use Rattle.lent.specs.Steps.{inverse_or};
ghost use Rattle.wire.specs.Bytes.{values_in};
ghost use Rattle.outcomes.specs.Calls.{◌bytes_for◌, misshapen, Answered};
ghost use Rattle.block_bytes.specs.Operations.{first_count, second_count, result_of, later_of, lent_of, Shaped, Completed, Written};

use answers::Answer;
use blocks::{One, Size, Three, Two};
use lent::unchecked::{
    add_each, apply_each, inverse_each, product_each, scale_each, subtract_each,
};
use outcomes::{Outcome, outcome_of};
use unchecked::square;
use wire::unchecked::{decode, encode};

// The operations, so that all of them share one way from bytes to bytes.
#[derive(Clone, Copy)]
enum Operation {
    Apply,
    Product,
    Scale,
    Add,
    Subtract,
    AddBlock,
    SubtractBlock,
    Inverse,
}

// How many values an operation has: in the first operand, and in the second and the result.
fn first_count(op: Operation, n: usize) -> usize
    requires { n ≤ 3 }
    ensures { (result ≡ first_count op n) × (result ≤ 9) }
{
    let block = square(n);
    match op {
        Operation::Apply => block,
        Operation::Product => block,
        Operation::Scale => n,
        Operation::Add => n,
        Operation::Subtract => n,
        Operation::AddBlock => block,
        Operation::SubtractBlock => block,
        Operation::Inverse => block,
    }
}

fn second_count(op: Operation, n: usize) -> usize
    requires { n ≤ 3 }
    ensures { (result ≡ second_count op n) × (result ≤ 9) }
{
    let block = square(n);
    match op {
        Operation::Apply => n,
        Operation::Product => block,
        Operation::Scale => n,
        Operation::Add => n,
        Operation::Subtract => n,
        Operation::AddBlock => block,
        Operation::SubtractBlock => block,
        Operation::Inverse => block,
    }
}

// Whether N is none of 1, 2, 3 or a slice of bytes has another length than its values.
fn is_misshapen(op: Operation, dim: u32, a: usize, b: usize, out: usize) -> bool
    ensures { result ≡ misshapen binary64 dim (lent_of op dim a b out) }
{
    if dim < 1 {
        return true;
    }
    if dim > 3 {
        return true;
    }
    let first = first_count(op, dim as usize);
    let second = second_count(op, dim as usize);
    if a != 8 * first {
        return true;
    }
    if b != 8 * second {
        return true;
    }
    out != 8 * second
}

// An operation on values, each slice of the length that it has at N.
fn operate<S: Size>(op: Operation, s: f64, x: &[f64], y: &[f64], z: &mut [f64]) -> Answer
    requires { Shaped op S.DIM 1 (length x.now) (length y.now) (length z.old) }
    ensures { Completed binary64 op S.DIM s x.now y.now z.new result }
{
    match op {
        Operation::Apply => apply_each::<S>(z, x, y, 1),
        Operation::Product => product_each::<S>(z, x, y, 1),
        Operation::Scale => scale_each::<S::Row>(z, x, s, 1),
        Operation::Add => add_each::<S::Row>(z, x, y, 1),
        Operation::Subtract => subtract_each::<S::Row>(z, x, y, 1),
        Operation::AddBlock => add_each::<S::Block>(z, x, y, 1),
        Operation::SubtractBlock => subtract_each::<S::Block>(z, x, y, 1),
        Operation::Inverse => return inverse_each::<S>(z, x, 1),
    }
    Ok(())
}

// The way from bytes to bytes, in room that is lent for the values: the operands are read, and the result is written over out.
#[tactic(auto, using(crate::proofs::OperationLaws::written))]
fn work_in<S: Size>(
    x: &mut [f64],
    y: &mut [f64],
    z: &mut [f64],
    out: &mut [u8],
    op: Operation,
    s: f64,
    a: &[u8],
    b: &[u8],
) -> Answer
    requires { (Shaped op S.DIM 1 (length x.old) (length y.old) (length z.old)) × (Shaped op S.DIM 8 (length a.now) (length b.now) (length out.old)) }
    ensures { Written binary64 op S.DIM s a.now b.now out.new result }
{
    decode(a, x);
    decode(b, y);
    let answer = operate::<S>(op, s, x, y, z);
    encode(z, out);
    answer
}

// The same with room for the values of the largest blocks.
fn work<S: Size>(out: &mut [u8], op: Operation, s: f64, a: &[u8], b: &[u8]) -> Answer
    requires { Shaped op S.DIM 8 (length a.now) (length b.now) (length out.old) }
    ensures { Written binary64 op S.DIM s a.now b.now out.new result }
{
    let n = S::DIM;
    let first = first_count(op, n);
    let second = second_count(op, n);
    let mut x = [0.0; 9];
    let mut y = [0.0; 9];
    let mut z = [0.0; 9];
    work_in::<S>(
        &mut x[..first],
        &mut y[..second],
        &mut z[..second],
        out,
        op,
        s,
        a,
        b,
    )
}

// The size by its number.
fn work_at(out: &mut [u8], op: Operation, dim: u32, s: f64, a: &[u8], b: &[u8]) -> Answer
    requires { Shaped op dim 8 (length a.now) (length b.now) (length out.old) }
    ensures { Written binary64 op dim s a.now b.now out.new result }
{
    match dim {
        1 => work::<One>(out, op, s, a, b),
        2 => work::<Two>(out, op, s, a, b),
        _ => work::<Three>(out, op, s, a, b),
    }
}

// An operation: refused with 2, or worked.
fn run(op: Operation, dim: u32, s: f64, a: &[u8], b: &[u8], out: &mut [u8]) -> Outcome
    ensures { Answered binary64 dim (lent_of op dim (length a.now) (length b.now) (length out.old))
        (later_of binary64 op dim (values_in binary64 a.now))
        (result_of binary64 op dim s (values_in binary64 a.now) (values_in binary64 b.now))
        out.old out.new result }
{
    if is_misshapen(op, dim, a.len(), b.len(), out.len()) {
        return Outcome { number: 2, row: 0 };
    }
    outcome_of(work_at(out, op, dim, s, a, b))
}

// Block times vector.
pub fn apply(dim: u32, a: &[u8], x: &[u8], out: &mut [u8]) -> Outcome
    ensures { Answered binary64 dim ((length a.now bytes_for dim * dim) ∷ (length x.now bytes_for dim) ∷ (length out.old bytes_for dim) ∷ [])
        [] (applied binary64 dim (values_in binary64 a.now) (values_in binary64 x.now))
        out.old out.new result }
{
    run(Operation::Apply, dim, 0.0, a, x, out)
}

// The product of two blocks.
pub fn product(dim: u32, a: &[u8], b: &[u8], out: &mut [u8]) -> Outcome
    ensures { Answered binary64 dim ((length a.now bytes_for dim * dim) ∷ (length b.now bytes_for dim * dim) ∷ (length out.old bytes_for dim * dim) ∷ [])
        [] (product binary64 dim (values_in binary64 a.now) (values_in binary64 b.now))
        out.old out.new result }
{
    run(Operation::Product, dim, 0.0, a, b, out)
}

// A vector, scaled by s.
pub fn scale(dim: u32, v: &[u8], s: f64, out: &mut [u8]) -> Outcome
    ensures { Answered binary64 dim ((length v.now bytes_for dim) ∷ (length out.old bytes_for dim) ∷ [])
        [] (scaled binary64 dim (values_in binary64 v.now) s)
        out.old out.new result }
{
    run(Operation::Scale, dim, s, v, v, out)
}

// The sum of two vectors.
pub fn add(dim: u32, u: &[u8], v: &[u8], out: &mut [u8]) -> Outcome
    ensures { Answered binary64 dim ((length u.now bytes_for dim) ∷ (length v.now bytes_for dim) ∷ (length out.old bytes_for dim) ∷ [])
        [] (added binary64 dim (values_in binary64 u.now) (values_in binary64 v.now))
        out.old out.new result }
{
    run(Operation::Add, dim, 0.0, u, v, out)
}

// The difference of two vectors.
pub fn subtract(dim: u32, u: &[u8], v: &[u8], out: &mut [u8]) -> Outcome
    ensures { Answered binary64 dim ((length u.now bytes_for dim) ∷ (length v.now bytes_for dim) ∷ (length out.old bytes_for dim) ∷ [])
        [] (subtracted binary64 dim (values_in binary64 u.now) (values_in binary64 v.now))
        out.old out.new result }
{
    run(Operation::Subtract, dim, 0.0, u, v, out)
}

// The sum of two blocks.
pub fn add_block(dim: u32, u: &[u8], v: &[u8], out: &mut [u8]) -> Outcome
    ensures { Answered binary64 dim ((length u.now bytes_for dim * dim) ∷ (length v.now bytes_for dim * dim) ∷ (length out.old bytes_for dim * dim) ∷ [])
        [] (added binary64 (dim * dim) (values_in binary64 u.now) (values_in binary64 v.now))
        out.old out.new result }
{
    run(Operation::AddBlock, dim, 0.0, u, v, out)
}

// The difference of two blocks.
pub fn subtract_block(dim: u32, u: &[u8], v: &[u8], out: &mut [u8]) -> Outcome
    ensures { Answered binary64 dim ((length u.now bytes_for dim * dim) ∷ (length v.now bytes_for dim * dim) ∷ (length out.old bytes_for dim * dim) ∷ [])
        [] (subtracted binary64 (dim * dim) (values_in binary64 u.now) (values_in binary64 v.now))
        out.old out.new result }
{
    run(Operation::SubtractBlock, dim, 0.0, u, v, out)
}

// The inverse of a block, or 9 and the block as given.
pub fn inverse(dim: u32, a: &[u8], out: &mut [u8]) -> Outcome
    ensures { Answered binary64 dim ((length a.now bytes_for dim * dim) ∷ (length out.old bytes_for dim * dim) ∷ [])
        ((9 when singular binary64 dim (values_in binary64 a.now)) ∷ []) (inverse_or binary64 dim (values_in binary64 a.now))
        out.old out.new result }
{
    run(Operation::Inverse, dim, 0.0, a, a, out)
}
