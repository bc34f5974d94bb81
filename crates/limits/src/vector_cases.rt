// The vector calls: n of 0, 1, 4,096 and 4,097 in cases 0 to 3, then at n = 5 each of two slices a value short and a value long.
// A call with one slice is done in the last two cases.
ghost use Rattle.std.specs.Prelude.{◌≤◌};

use crate::Seen;
use crate::filled::{fill, is_filled};
use crate::sizes::values_a_row;
use answers::{Answer, Numbered};
use blocks::{One, Three, Two};

fn set_zero(dim: usize, n: u32, p: &mut [f64]) -> u32 {
    match dim {
        1 => vectors::set_zero::<One>(n, p).number(),
        2 => vectors::set_zero::<Two>(n, p).number(),
        _ => vectors::set_zero::<Three>(n, p).number(),
    }
}

fn copy(dim: usize, n: u32, p: &mut [f64], u: &[f64]) -> u32 {
    match dim {
        1 => vectors::copy::<One>(n, p, u).number(),
        2 => vectors::copy::<Two>(n, p, u).number(),
        _ => vectors::copy::<Three>(n, p, u).number(),
    }
}

fn add_scaled(dim: usize, n: u32, u: &mut [f64], p: &[f64]) -> u32 {
    match dim {
        1 => vectors::add_scaled_vector::<One>(n, u, 2.0, p).number(),
        2 => vectors::add_scaled_vector::<Two>(n, u, 2.0, p).number(),
        _ => vectors::add_scaled_vector::<Three>(n, u, 2.0, p).number(),
    }
}

fn scale_and_add(dim: usize, n: u32, p: &mut [f64], r: &[f64]) -> u32 {
    match dim {
        1 => vectors::scale_and_add_vec::<One>(n, p, 2.0, r).number(),
        2 => vectors::scale_and_add_vec::<Two>(n, p, 2.0, r).number(),
        _ => vectors::scale_and_add_vec::<Three>(n, p, 2.0, r).number(),
    }
}

fn set_fixed(dim: usize, n: u32, values: &mut [f64], flags: &[i32]) -> u32 {
    match dim {
        1 => vectors::set_fixed::<One>(n, values, flags).number(),
        2 => vectors::set_fixed::<Two>(n, values, flags).number(),
        _ => vectors::set_fixed::<Three>(n, values, flags).number(),
    }
}

fn set_rhs(dim: usize, n: u32, rhs: &mut [f64], flags: &[i32]) -> u32 {
    match dim {
        1 => vectors::set_fix_dof_to_rhs_vector::<One>(n, rhs, flags).number(),
        2 => vectors::set_fix_dof_to_rhs_vector::<Two>(n, rhs, flags).number(),
        _ => vectors::set_fix_dof_to_rhs_vector::<Three>(n, rhs, flags).number(),
    }
}

fn dot(dim: usize, n: u32, v0: &[f64], v1: &[f64]) -> u32 {
    match dim {
        1 => vectors::dot::<One>(n, v0, v1).number(),
        2 => vectors::dot::<Two>(n, v0, v1).number(),
        _ => vectors::dot::<Three>(n, v0, v1).number(),
    }
}

#[derive(Clone, Copy)]
pub enum VectorCall {
    SetZero,
    Copy,
    AddScaledVector,
    ScaleAndAddVec,
    SetFixed,
    SetFixDofToRhsVector,
    Dot,
}

impl VectorCall {
    pub const ALL: [VectorCall; 7] = [
        VectorCall::SetZero,
        VectorCall::Copy,
        VectorCall::AddScaledVector,
        VectorCall::ScaleAndAddVec,
        VectorCall::SetFixed,
        VectorCall::SetFixDofToRhsVector,
        VectorCall::Dot,
    ];

    // The call's name, up to its N.
    pub fn name(self) -> &'static str {
        match self {
            VectorCall::SetZero => "set_zero_",
            VectorCall::Copy => "copy_",
            VectorCall::AddScaledVector => "add_scaled_vector_",
            VectorCall::ScaleAndAddVec => "scale_and_add_vec_",
            VectorCall::SetFixed => "set_fixed_",
            VectorCall::SetFixDofToRhsVector => "set_fix_dof_to_rhs_vector_",
            VectorCall::Dot => "dot_",
        }
    }

    fn run(self, dim: usize, n: u32, first: &mut [f64], second: &[f64], flags: &[i32]) -> u32 {
        match self {
            VectorCall::SetZero => set_zero(dim, n, first),
            VectorCall::Copy => copy(dim, n, first, second),
            VectorCall::AddScaledVector => add_scaled(dim, n, first, second),
            VectorCall::ScaleAndAddVec => scale_and_add(dim, n, first, second),
            VectorCall::SetFixed => set_fixed(dim, n, first, flags),
            VectorCall::SetFixDofToRhsVector => set_rhs(dim, n, first, flags),
            VectorCall::Dot => dot(dim, n, first, second),
        }
    }
}

fn rows_in(case: usize) -> u32
    ensures { result ≤ 4097 }
{
    match case {
        0 => 0,
        1 => 1,
        2 => 4096,
        3 => 4097,
        _ => 5,
    }
}

// The length of a slice that is a value short in case `short` and a value long in the case after it.
fn length_in(dim: usize, case: usize, short: usize) -> usize
    requires { short ≤ 6 }
    ensures { result ≤ 12291 }
{
    if case == short {
        return 5 * values_a_row(dim) - 1;
    }
    if case == short + 1 {
        return 5 * values_a_row(dim) + 1;
    }
    match case {
        0 => 0,
        1 => values_a_row(dim),
        2 => 4096 * values_a_row(dim),
        3 => 4097 * values_a_row(dim),
        _ => 5 * values_a_row(dim),
    }
}

pub fn try_case(call: VectorCall, dim: usize, case: usize) -> Seen {
    let a = length_in(dim, case, 4);
    let b = length_in(dim, case, 6);
    let mut first = [0.0; 12292];
    fill(&mut first);
    let second = [0.5; 12292];
    let flags = [0i32; 12292];
    let number = call.run(
        dim,
        rows_in(case),
        &mut first[..a],
        &second[..b],
        &flags[..b],
    );
    Seen {
        number,
        kept: is_filled(&first),
    }
}

// A refused product would show as a NaN.
fn sum_of(dot: Answer<f64>) -> f64 {
    match dot {
        Ok(sum) => sum,
        Err(_) => 0.0 / 0.0,
    }
}

// The two inputs of docs/DECISIONS.md: rows summed apart, and one running sum.
pub fn dot_of_rows() -> f64 {
    let small = 1.0 / 67108864.0;
    sum_of(vectors::dot::<Two>(2, &[1.0, 1.0, small, small], &[1.0, 1.0, small, small]))
}

pub fn dot_of_values() -> f64 {
    let small = 1.0 / 67108864.0;
    sum_of(vectors::dot::<One>(4, &[1.0, 1.0, small, small], &[1.0, 1.0, small, small]))
}

// Flags below 0 fix as any other.
pub fn fixed_pair() -> [f64; 4] {
    let mut values = [1.0, 2.0, -3.0, 4.0];
    let _ = vectors::set_fixed::<Two>(2, &mut values, &[0, -1, 1, 0]);
    values
}

pub fn fixed_right_side() -> [f64; 2] {
    let mut rhs = [1.0, 2.0];
    let _ = vectors::set_fix_dof_to_rhs_vector::<One>(2, &mut rhs, &[-2147483648, 0, 1]);
    rhs
}
