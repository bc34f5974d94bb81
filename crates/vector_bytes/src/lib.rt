// The vector calls on lent bytes, with N as a number: 8 bytes to a value and 4 to a flag, the low byte first.
// A call whose rows, N or lengths are wrong answers 1 or 2 and changes nothing; any other is the call of `vectors` at that N, from bytes to bytes.
#![tactic(auto)]

pub mod numbered;

ghost use Rattle.std.specs.Prelude.{◌≡◌, [], ◌∷◌, true, false, ◌||◌, ◌*◌, ◌≤◌, length};
ghost use Rattle.std.specs.Float.{binary64};
ghost use Rattle.answers.specs.Numbers.{number_of};
ghost use Rattle.answers.specs.Checks.{first_of, none_holds};
ghost use Rattle.answers.specs.Limits.{outside_of};
ghost use Rattle.answers.specs.Promise.{Ends};
ghost use Rattle.vectors.specs.Vectors.{zeroed, copied, add_scaled, scale_add, fixed, dot_to};
ghost use Rattle.vectors.specs.DotAnswers.{dot_values, Dotted};
ghost use Rattle.wire.specs.Bytes.{values_in, bytes_of};
ghost use Rattle.wire.specs.Words.{flags_in};
ghost use Rattle.vector_bytes.specs.Checks.{words, long_words, wrong_words, call_checks, Roomy};
ghost use Rattle.vector_bytes.specs.Operations.{second_of, lent_of, made_of, result_of, values_over, flags_over};

use answers::{Answer, Refusal, Rows};
use wire::unchecked::{decode, decode_flags, encode};

// What is lent beside the first vector.
#[derive(Clone, Copy)]
enum Second {
    Nothing,
    Values,
    Flags,
    LongFlags,
}

// The calls that write, so that all of them share one way from bytes to bytes.
#[derive(Clone, Copy)]
enum Operation {
    SetZero,
    Copy,
    AddScaledVector,
    ScaleAndAddVec,
    SetFixed,
    SetFixDofToRhsVector,
}

fn second_of(op: Operation) -> Second
    ensures { result ≡ second_of op }
{
    match op {
        Operation::SetZero => Second::Nothing,
        Operation::Copy => Second::Values,
        Operation::AddScaledVector => Second::Values,
        Operation::ScaleAndAddVec => Second::Values,
        Operation::SetFixed => Second::Flags,
        Operation::SetFixDofToRhsVector => Second::LongFlags,
    }
}

// The words of a vector.
fn count_of(dim: u32, n: u32) -> usize
    requires { (dim ≤ 3) × (n ≤ 4096) }
    ensures { (result ≡ dim * n) × (result ≤ 12288) }
{
    (dim as usize) * (n as usize)
}

// Whether N is none of 1, 2, 3 or a slice of bytes has not those of its words.
fn is_misshapen(second: Second, dim: u32, n: u32, p: usize, b: usize) -> bool
    requires { n ≤ 4096 }
    ensures { result ≡ outside_of 1 3 dim || wrong_words (dim * n) (lent_of binary64 second p b) }
{
    if dim < 1 {
        return true;
    }
    if dim > 3 {
        return true;
    }
    let count = count_of(dim, n);
    if p != 8 * count {
        return true;
    }
    match second {
        Second::Nothing => false,
        Second::Values => b != 8 * count,
        Second::Flags => b != 4 * count,
        Second::LongFlags => {
            if b < 4 * count {
                return true;
            }
            b % 4 != 0
        }
    }
}

// The checks of a call, on the lengths of its bytes.
fn check(second: Second, dim: u32, n: u32, p: usize, b: usize) -> Answer
    ensures { number_of result ≡ first_of (call_checks n dim (lent_of binary64 second p b)) }
{
    if Rows(n as usize).out_of_range() {
        return Err(Refusal::Size);
    }
    if is_misshapen(second, dim, n, p, b) {
        return Err(Refusal::Shape);
    }
    Ok(())
}

// The second slice, decoded into the room for values or for flags, which has as many as a vector of the call.
// Of longer flags only the first ones are decoded: the others have no value, and there is no room for them.
fn decode_second(y: &mut [f64], z: &mut [i32], second: Second, b: &[u8])
    requires { (wrong_words (length y.old) (lent_of binary64 second (8 * length y.old) (length b.now)) ≡ false) × (length z.old ≡ length y.old) }
    ensures { (y.new ≡ values_over binary64 second b.now y.old) × (z.new ≡ flags_over second b.now z.old) }
{
    match second {
        Second::Nothing => (),
        Second::Values => decode(b, y),
        Second::Flags => decode_flags(b, z),
        Second::LongFlags => {
            let first = 4 * z.len();
            decode_flags(&b[..first], z)
        }
    }
}

// The call at N, on values. Its own checks find nothing, since those of the bytes have found nothing.
fn operate(x: &mut [f64], y: &[f64], z: &[i32], op: Operation, dim: u32, n: u32, s: f64) -> Answer
    requires { Roomy n dim (length x.old) (length y.now) (length z.now) }
    ensures { (number_of result ≡ 0) × (x.new ≡ made_of binary64 op s y.now z.now x.old) }
{
    match op {
        Operation::SetZero => numbered::set_zero(dim, n, x),
        Operation::Copy => numbered::copy(dim, n, x, y),
        Operation::AddScaledVector => numbered::add_scaled_vector(dim, n, x, s, y),
        Operation::ScaleAndAddVec => numbered::scale_and_add_vec(dim, n, x, s, y),
        Operation::SetFixed => numbered::set_fixed(dim, n, x, z),
        Operation::SetFixDofToRhsVector => numbered::set_fix_dof_to_rhs_vector(dim, n, x, z),
    }
}

// The way from bytes to bytes, in room that is lent for the words: the slices are read, and the result is written over the first.
fn work_in(
    x: &mut [f64],
    y: &mut [f64],
    z: &mut [i32],
    out: &mut [u8],
    op: Operation,
    dim: u32,
    n: u32,
    s: f64,
    b: &[u8],
) -> Answer
    requires { (Roomy n dim (length x.old) (length y.old) (length z.old)) × (none_holds (call_checks n dim (lent_of binary64 (second_of op) (length out.old) (length b.now))) ≡ true) }
    ensures { (number_of result ≡ 0) × (out.new ≡ bytes_of binary64 (result_of binary64 op s b.now (values_in binary64 out.old))) }
{
    decode(out, x);
    decode_second(y, z, second_of(op), b);
    let answer = operate(x, y, z, op, dim, n, s);
    encode(x, out);
    answer
}

// The same with room of its own. A call of few words does not pay for the room of the largest vectors.
fn work_in_small_room(
    out: &mut [u8],
    op: Operation,
    dim: u32,
    n: u32,
    s: f64,
    b: &[u8],
    count: usize,
) -> Answer
    requires { (none_holds (call_checks n dim (lent_of binary64 (second_of op) (length out.old) (length b.now))) ≡ true) × (count ≡ dim * n) × (count ≤ 96) }
    ensures { (number_of result ≡ 0) × (out.new ≡ bytes_of binary64 (result_of binary64 op s b.now (values_in binary64 out.old))) }
{
    let mut x = [0.0; 96];
    let mut y = [0.0; 96];
    let mut z = [0; 96];
    work_in(
        &mut x[..count],
        &mut y[..count],
        &mut z[..count],
        out,
        op,
        dim,
        n,
        s,
        b,
    )
}

fn work_in_full_room(
    out: &mut [u8],
    op: Operation,
    dim: u32,
    n: u32,
    s: f64,
    b: &[u8],
    count: usize,
) -> Answer
    requires { (none_holds (call_checks n dim (lent_of binary64 (second_of op) (length out.old) (length b.now))) ≡ true) × (count ≡ dim * n) × (count ≤ 12288) }
    ensures { (number_of result ≡ 0) × (out.new ≡ bytes_of binary64 (result_of binary64 op s b.now (values_in binary64 out.old))) }
{
    let mut x = [0.0; 12288];
    let mut y = [0.0; 12288];
    let mut z = [0; 12288];
    work_in(
        &mut x[..count],
        &mut y[..count],
        &mut z[..count],
        out,
        op,
        dim,
        n,
        s,
        b,
    )
}

fn work(out: &mut [u8], op: Operation, dim: u32, n: u32, s: f64, b: &[u8]) -> Answer
    requires { none_holds (call_checks n dim (lent_of binary64 (second_of op) (length out.old) (length b.now))) ≡ true }
    ensures { (number_of result ≡ 0) × (out.new ≡ bytes_of binary64 (result_of binary64 op s b.now (values_in binary64 out.old))) }
{
    let count = count_of(dim, n);
    if count <= 96 {
        return work_in_small_room(out, op, dim, n, s, b, count);
    }
    work_in_full_room(out, op, dim, n, s, b, count)
}

// A call on bytes: refused, or worked.
fn run(op: Operation, dim: u32, n: u32, s: f64, p: &mut [u8], b: &[u8]) -> Answer
    ensures { Ends (call_checks n dim (lent_of binary64 (second_of op) (length p.old) (length b.now))) result
        (bytes_of binary64 (result_of binary64 op s b.now (values_in binary64 p.old))) p.old p.new }
{
    check(second_of(op), dim, n, p.len(), b.len())?;
    work(p, op, dim, n, s, b)
}

// Each value becomes +0. No second slice is looked at.
pub fn set_zero(dim: u32, n: u32, p: &mut [u8]) -> Answer
    ensures { Ends (call_checks n dim (words 8 (length p.old) ∷ [])) result
        (bytes_of binary64 (zeroed binary64 (values_in binary64 p.old))) p.old p.new }
{
    let none = [0u8; 1];
    run(Operation::SetZero, dim, n, 0.0, p, &none)
}

// p becomes u.
pub fn copy(dim: u32, n: u32, p: &mut [u8], u: &[u8]) -> Answer
    ensures { Ends (call_checks n dim (words 8 (length p.old) ∷ words 8 (length u.now) ∷ [])) result
        (bytes_of binary64 (copied (values_in binary64 u.now) (values_in binary64 p.old))) p.old p.new }
{
    run(Operation::Copy, dim, n, 0.0, p, u)
}

// u becomes u + p * alpha.
pub fn add_scaled_vector(dim: u32, n: u32, u: &mut [u8], alpha: f64, p: &[u8]) -> Answer
    ensures { Ends (call_checks n dim (words 8 (length u.old) ∷ words 8 (length p.now) ∷ [])) result
        (bytes_of binary64 (add_scaled binary64 alpha (values_in binary64 p.now) (values_in binary64 u.old))) u.old u.new }
{
    run(Operation::AddScaledVector, dim, n, alpha, u, p)
}

// p becomes r + p * beta.
pub fn scale_and_add_vec(dim: u32, n: u32, p: &mut [u8], beta: f64, r: &[u8]) -> Answer
    ensures { Ends (call_checks n dim (words 8 (length p.old) ∷ words 8 (length r.now) ∷ [])) result
        (bytes_of binary64 (scale_add binary64 beta (values_in binary64 r.now) (values_in binary64 p.old))) p.old p.new }
{
    run(Operation::ScaleAndAddVec, dim, n, beta, p, r)
}

// Fixed values become +0.
pub fn set_fixed(dim: u32, n: u32, values: &mut [u8], flags: &[u8]) -> Answer
    ensures { Ends (call_checks n dim (words 8 (length values.old) ∷ words 4 (length flags.now) ∷ [])) result
        (bytes_of binary64 (fixed binary64 (flags_in flags.now) (values_in binary64 values.old))) values.old values.new }
{
    run(Operation::SetFixed, dim, n, 0.0, values, flags)
}

// The same on a right side, where flags may be longer.
pub fn set_fix_dof_to_rhs_vector(dim: u32, n: u32, rhs: &mut [u8], flags: &[u8]) -> Answer
    ensures { Ends (call_checks n dim (words 8 (length rhs.old) ∷ long_words 4 (length flags.now) ∷ [])) result
        (bytes_of binary64 (fixed binary64 (flags_in flags.now) (values_in binary64 rhs.old))) rhs.old rhs.new }
{
    run(Operation::SetFixDofToRhsVector, dim, n, 0.0, rhs, flags)
}

// The dot product of bytes, in room that is lent for the values.
fn dot_in(x: &mut [f64], y: &mut [f64], dim: u32, n: u32, a: &[u8], b: &[u8]) -> Answer<f64>
    requires { (Roomy n dim (length x.old) (length y.old) (length y.old)) × (none_holds (call_checks n dim (words 8 (length a.now) ∷ words 8 (length b.now) ∷ [])) ≡ true) }
    ensures { (number_of result ≡ 0) × (dot_values result ≡ (dot_to binary64 dim (values_in binary64 a.now) (values_in binary64 b.now) n ∷ [], [])) }
{
    decode(a, x);
    decode(b, y);
    numbered::dot(dim, n, x, y)
}

fn dot_in_small_room(dim: u32, n: u32, a: &[u8], b: &[u8], count: usize) -> Answer<f64>
    requires { (none_holds (call_checks n dim (words 8 (length a.now) ∷ words 8 (length b.now) ∷ [])) ≡ true) × (count ≡ dim * n) × (count ≤ 96) }
    ensures { (number_of result ≡ 0) × (dot_values result ≡ (dot_to binary64 dim (values_in binary64 a.now) (values_in binary64 b.now) n ∷ [], [])) }
{
    let mut x = [0.0; 96];
    let mut y = [0.0; 96];
    dot_in(&mut x[..count], &mut y[..count], dim, n, a, b)
}

fn dot_in_full_room(dim: u32, n: u32, a: &[u8], b: &[u8], count: usize) -> Answer<f64>
    requires { (none_holds (call_checks n dim (words 8 (length a.now) ∷ words 8 (length b.now) ∷ [])) ≡ true) × (count ≡ dim * n) × (count ≤ 12288) }
    ensures { (number_of result ≡ 0) × (dot_values result ≡ (dot_to binary64 dim (values_in binary64 a.now) (values_in binary64 b.now) n ∷ [], [])) }
{
    let mut x = [0.0; 12288];
    let mut y = [0.0; 12288];
    dot_in(&mut x[..count], &mut y[..count], dim, n, a, b)
}

fn dot_of(dim: u32, n: u32, a: &[u8], b: &[u8]) -> Answer<f64>
    requires { none_holds (call_checks n dim (words 8 (length a.now) ∷ words 8 (length b.now) ∷ [])) ≡ true }
    ensures { (number_of result ≡ 0) × (dot_values result ≡ (dot_to binary64 dim (values_in binary64 a.now) (values_in binary64 b.now) n ∷ [], [])) }
{
    let count = count_of(dim, n);
    if count <= 96 {
        return dot_in_small_room(dim, n, a, b, count);
    }
    dot_in_full_room(dim, n, a, b, count)
}

// The dot product.
pub fn dot(dim: u32, n: u32, v0: &[u8], v1: &[u8]) -> Answer<f64>
    ensures { Dotted (call_checks n dim (words 8 (length v0.now) ∷ words 8 (length v1.now) ∷ []))
        (dot_to binary64 dim (values_in binary64 v0.now) (values_in binary64 v1.now) n) result }
{
    check(Second::Values, dim, n, v0.len(), v1.len())?;
    dot_of(dim, n, v0, v1)
}
