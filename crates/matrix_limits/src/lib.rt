// Each call of matrix and fixing at its limits: a function runs one case, by its number, and says what was seen.
// The matrix has two rows that name each other, then as many rows and columns as may be, and one more.
#![tactic(auto)]

ghost use Rattle.std.specs.Prelude.{◌≤◌, ◌+◌};

use answers::Numbered;
use blocks::{One, Three, Two};
use limits::Seen;
use limits::filled::{fill, is_filled};
use limits::ring::{fill_columns, fill_offsets};
use limits::sizes::{values_a_block, values_a_row};

fn mult_vec(
    dim: usize,
    offsets: &[u32],
    columns: &[u32],
    values: &[f64],
    diagonal: &[f64],
    y: &mut [f64],
    x: &[f64],
) -> u32 {
    match dim {
        1 => matrix::mult_vec::<One>(offsets, columns, values, diagonal, y, 0.5, 2.0, x).number(),
        2 => matrix::mult_vec::<Two>(offsets, columns, values, diagonal, y, 0.5, 2.0, x).number(),
        _ => matrix::mult_vec::<Three>(offsets, columns, values, diagonal, y, 0.5, 2.0, x).number(),
    }
}

fn set_zero(
    dim: usize,
    offsets: &[u32],
    columns: &[u32],
    values: &mut [f64],
    diagonal: &mut [f64],
) -> u32 {
    match dim {
        1 => matrix::set_zero::<One>(offsets, columns, values, diagonal).number(),
        2 => matrix::set_zero::<Two>(offsets, columns, values, diagonal).number(),
        _ => matrix::set_zero::<Three>(offsets, columns, values, diagonal).number(),
    }
}

fn set_fixed_bc(
    dim: usize,
    flags: &[i32],
    diagonal: &mut [f64],
    values: &mut [f64],
    offsets: &[u32],
    columns: &[u32],
) -> u32 {
    match dim {
        1 => fixing::set_fixed_bc::<One>(7.0, flags, diagonal, values, offsets, columns).number(),
        2 => fixing::set_fixed_bc::<Two>(7.0, flags, diagonal, values, offsets, columns).number(),
        _ => fixing::set_fixed_bc::<Three>(7.0, flags, diagonal, values, offsets, columns).number(),
    }
}

// Cases: 0 right; 1 to 8 slices 0 to 3 short, long; 9 own columns; 10 those and a wrong length; 11 both and no row;
// 12 and 13 have 4,096 and 4,097 rows without a column; 14 and 15 have 65,535 and 65,536 columns in 257 rows, at N = 1 alone.
fn row_count(case: usize) -> u32
    ensures { result ≤ 4097 }
{
    match case {
        12 => 4096,
        13 => 4097,
        14 | 15 => 257,
        _ => 2,
    }
}

fn offset_count(case: usize) -> usize
    ensures { result ≤ 4098 }
{
    if case == 11 {
        return 1;
    }
    row_count(case) as usize + 1
}

fn column_count(case: usize) -> usize
    ensures { result ≤ 65536 }
{
    match case {
        12 | 13 => 0,
        14 => 65535,
        15 => 65536,
        _ => 2,
    }
}

// How many columns each row has.
fn width(case: usize) -> u32 {
    match case {
        12 | 13 => 0,
        14 | 15 => 255,
        _ => 1,
    }
}

fn start(case: usize) -> u32 {
    match case {
        9 | 10 | 11 => 0,
        _ => 1,
    }
}

fn offsets_of(case: usize) -> [u32; 4098] {
    let mut offsets = [0u32; 4098];
    fill_offsets(&mut offsets, width(case));
    offsets
}

fn columns_of(case: usize) -> [u32; 65536] {
    let mut columns = [0u32; 65536];
    fill_columns(&mut columns, row_count(case), width(case), start(case));
    columns
}

// The right lengths.
fn entry_values(dim: usize, case: usize) -> usize
    ensures { result ≤ 65536 }
{
    if case < 12 {
        return 2 * values_a_block(dim);
    }
    column_count(case)
}

fn diagonal_values(dim: usize, case: usize) -> usize
    ensures { result ≤ 36873 }
{
    match case {
        12 => 4096 * values_a_block(dim),
        13 => 4097 * values_a_block(dim),
        14 | 15 => 257,
        _ => 2 * values_a_block(dim),
    }
}

fn vector_values(dim: usize, case: usize) -> usize
    ensures { result ≤ 12291 }
{
    match case {
        12 => 4096 * values_a_row(dim),
        13 => 4097 * values_a_row(dim),
        14 | 15 => 257,
        _ => 2 * values_a_row(dim),
    }
}

// The length that a slice has in a case: one short, one long, or right. Slice 0 is long in cases 10 and 11.
fn length_in(case: usize, slice: usize, right: usize) -> usize
    requires { (slice ≤ 3) × (right ≤ 65536) }
    ensures { result ≤ right + 1 }
{
    if case == 2 * slice + 1 {
        if right > 0 {
            return right - 1;
        }
    }
    if case == 2 * slice + 2 {
        return right + 1;
    }
    if slice == 0 {
        if case == 10 {
            return right + 1;
        }
        if case == 11 {
            return right + 1;
        }
    }
    right
}

// Slices: values, diagonal, y, x.
fn try_mult_vec(dim: usize, case: usize) -> Seen {
    let a = length_in(case, 0, entry_values(dim, case));
    let b = length_in(case, 1, diagonal_values(dim, case));
    let c = length_in(case, 2, vector_values(dim, case));
    let d = length_in(case, 3, vector_values(dim, case));
    let offsets = offsets_of(case);
    let columns = columns_of(case);
    let values = [1.5; 65537];
    let diagonal = [1.5; 36874];
    let mut y = [0.0; 12292];
    fill(&mut y);
    let x = [1.5; 12292];
    let number = mult_vec(
        dim,
        &offsets[0..offset_count(case)],
        &columns[0..column_count(case)],
        &values[0..a],
        &diagonal[0..b],
        &mut y[0..c],
        &x[0..d],
    );
    Seen {
        number,
        kept: is_filled(&y),
    }
}

// Slices: values, diagonal.
fn try_set_zero(dim: usize, case: usize) -> Seen {
    let a = length_in(case, 0, entry_values(dim, case));
    let b = length_in(case, 1, diagonal_values(dim, case));
    let offsets = offsets_of(case);
    let columns = columns_of(case);
    let mut values = [0.0; 65537];
    let mut diagonal = [0.0; 36874];
    fill(&mut values);
    fill(&mut diagonal);
    let number = set_zero(
        dim,
        &offsets[0..offset_count(case)],
        &columns[0..column_count(case)],
        &mut values[0..a],
        &mut diagonal[0..b],
    );
    Seen {
        number,
        kept: is_filled(&values) && is_filled(&diagonal),
    }
}

// Slices: flags, diagonal, values. Every value is fixed.
fn try_set_fixed_bc(dim: usize, case: usize) -> Seen {
    let a = length_in(case, 0, vector_values(dim, case));
    let b = length_in(case, 1, diagonal_values(dim, case));
    let c = length_in(case, 2, entry_values(dim, case));
    let offsets = offsets_of(case);
    let columns = columns_of(case);
    let flags = [1i32; 12292];
    let mut diagonal = [0.0; 36874];
    let mut values = [0.0; 65537];
    fill(&mut diagonal);
    fill(&mut values);
    let number = set_fixed_bc(
        dim,
        &flags[0..a],
        &mut diagonal[0..b],
        &mut values[0..c],
        &offsets[0..offset_count(case)],
        &columns[0..column_count(case)],
    );
    Seen {
        number,
        kept: is_filled(&values) && is_filled(&diagonal),
    }
}

#[derive(Clone, Copy)]
pub enum MatrixCall {
    MultVec,
    SetZero,
    SetFixedBc,
}

impl MatrixCall {
    pub const ALL: [MatrixCall; 3] = [
        MatrixCall::MultVec,
        MatrixCall::SetZero,
        MatrixCall::SetFixedBc,
    ];

    // The call's name, up to its N.
    pub fn name(self) -> &'static str {
        match self {
            MatrixCall::MultVec => "mult_vec_",
            MatrixCall::SetZero => "set_zero_",
            MatrixCall::SetFixedBc => "set_fixed_bc_",
        }
    }

    // The first case past those of the call's slices.
    pub fn slices_end(self) -> usize {
        match self {
            MatrixCall::MultVec => 9,
            MatrixCall::SetZero => 5,
            MatrixCall::SetFixedBc => 7,
        }
    }

    pub fn try_case(self, dim: usize, case: usize) -> Seen {
        match self {
            MatrixCall::MultVec => try_mult_vec(dim, case),
            MatrixCall::SetZero => try_set_zero(dim, case),
            MatrixCall::SetFixedBc => try_set_fixed_bc(dim, case),
        }
    }
}

// Two rows, (5, 2) and (3, 7), by (1, 10), tripled and added to twice (100, 200): 275 and 619.
pub fn product() -> [f64; 2] {
    let mut y = [100.0, 200.0];
    let _ = matrix::mult_vec::<One>(
        &[0, 1, 2],
        &[1, 0],
        &[2.0, 3.0],
        &[5.0, 7.0],
        &mut y,
        2.0,
        3.0,
        &[1.0, 10.0],
    );
    y
}

// One row of 5 by 1, added to 0 times an infinity.
pub fn product_over_infinity() -> [f64; 1] {
    let mut y = [1.0 / 0.0];
    let _ = matrix::mult_vec::<One>(&[0, 0], &[], &[], &[5.0], &mut y, 0.0, 1.0, &[1.0]);
    y
}

// What set_fixed_bc leaves.
#[derive(Drop)]
pub struct Fixed {
    pub diagonal: [f64; 8],
    pub values: [f64; 8],
}

// Place 1 of row 0 is fixed: in its block, and in the blocks of row 0 and column 0.
pub fn fixed_pair() -> Fixed {
    let mut diagonal = [1.0, 2.0, 3.0, 4.0, 5.0, 6.0, 7.0, 8.0];
    let mut values = [1.0, 2.0, 3.0, 4.0, 5.0, 6.0, 7.0, 8.0];
    let _ = fixing::set_fixed_bc::<Two>(
        7.0,
        &[0, -1, 0, 0],
        &mut diagonal,
        &mut values,
        &[0, 1, 2],
        &[1, 0],
    );
    Fixed { diagonal, values }
}
