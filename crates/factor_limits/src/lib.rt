// The calls on a factor, copy_value, decompose and solve_preconditioning_vec (0, 1, 2), at their limits: a function runs one case, by its number.
// Nothing is printed here, so that nothing is assumed; the program `factor_cases` goes through the numbers.
#![tactic(auto)]

ghost use Rattle.std.specs.Prelude.{◌≤◌, ◌+◌};

use answers::Numbered;
use blocks::{One, Three, Two};
use factor_shapes::{
    at_most, column_count, columns_of, diagonal_length, offset_count, offsets_of, row_count,
    splits_of, values_length, vector_length,
};
use limits::Seen;
use limits::filled::{fill, is_filled};

#[derive(Clone, Copy)]
pub enum FactorCall {
    CopyValue,
    Decompose,
    SolvePreconditioningVec,
}

impl FactorCall {
    pub const ALL: [FactorCall; 3] = [
        FactorCall::CopyValue,
        FactorCall::Decompose,
        FactorCall::SolvePreconditioningVec,
    ];

    // The call's name, up to its N.
    pub fn name(self) -> &'static str {
        match self {
            FactorCall::CopyValue => "copy_value_",
            FactorCall::Decompose => "decompose_",
            FactorCall::SolvePreconditioningVec => "solve_preconditioning_vec_",
        }
    }

    // Cases: 0 right; 1 to 10 slices 0 to 4 short, long (splits, diagonal, values, and what a call has beside these); 11 an own column;
    // 12 that and a wrong length; 13 both and no row; 14 an unsorted row; 15 and 16 a split too low, too high; 17 that and an own column;
    // 18 and 19 have 4,096 and 4,097 rows without a column; 20 and 21 have 65,535 and 65,536 columns in 257 rows, at N = 1 alone.
    // Of copy_value also: 22 an own column in A; 23 A has a row less; 24 the factor lacks an entry of A; 25 that and a wrong split; 26 A has 4,097 rows; 27 A has 65,536 columns, at N = 1 alone.
    pub fn has_case(self, dim: usize, case: usize) -> bool {
        if matches!(case, 20 | 21 | 27) && dim != 1 {
            return false;
        }
        match self {
            FactorCall::CopyValue => case < 28,
            FactorCall::Decompose => case < 22 && (case < 7 || case > 10),
            FactorCall::SolvePreconditioningVec => case < 22 && (case < 9 || case > 10),
        }
    }

    pub fn try_case(self, dim: usize, case: usize) -> Seen {
        match self {
            FactorCall::CopyValue => try_copy_value(dim, case),
            FactorCall::Decompose => try_decompose(dim, case),
            FactorCall::SolvePreconditioningVec => try_solve(dim, case),
        }
    }
}

// The shape of the factor, and that of A.
fn factor_shape(case: usize) -> usize {
    match case {
        11 | 12 => 1,
        13 => 13,
        14 => 2,
        15 => 3,
        16 => 4,
        17 => 5,
        18 => 6,
        19 => 7,
        20 => 8,
        21 => 9,
        24 => 10,
        25 => 11,
        _ => 0,
    }
}

fn a_shape(case: usize) -> usize {
    match case {
        18 => 6,
        19 | 26 => 7,
        20 => 8,
        21 | 27 => 9,
        22 => 1,
        23 => 12,
        _ => 0,
    }
}

// The length that a slice has in a case: one short, one long, or right. Slice 0 is long in cases 12 and 13.
fn length_in(case: usize, slice: usize, right: usize) -> usize
    requires { (slice ≤ 4) × (right ≤ 65536) }
    ensures { result ≤ right + 1 }
{
    if case == 2 * slice + 1 {
        if right > 0 {
            return right - 1;
        }
    }
    if case == 2 * slice + 2 {
        return right + 1;
    }
    if slice == 0 {
        if case == 12 || case == 13 {
            return right + 1;
        }
    }
    right
}

fn copy_value(
    dim: usize,
    starts: &[u32],
    entries: &[u32],
    a_diagonal: &[f64],
    a_values: &[f64],
    offsets: &[u32],
    columns: &[u32],
    splits: &[u32],
    diagonal: &mut [f64],
    values: &mut [f64],
) -> u32 {
    match dim {
        1 => copying::copy_value::<One>(
            starts, entries, a_diagonal, a_values, offsets, columns, splits, diagonal, values,
        )
        .number(),
        2 => copying::copy_value::<Two>(
            starts, entries, a_diagonal, a_values, offsets, columns, splits, diagonal, values,
        )
        .number(),
        _ => copying::copy_value::<Three>(
            starts, entries, a_diagonal, a_values, offsets, columns, splits, diagonal, values,
        )
        .number(),
    }
}

// A copy of A to a factor of some shape, of which these lengths are lent: splits, diagonal, values.
fn copy_to(
    dim: usize,
    starts: &[u32],
    entries: &[u32],
    a_diagonal: &[f64],
    a_values: &[f64],
    shape: usize,
    a: usize,
    b: usize,
    c: usize,
) -> Seen
    requires { (a ≤ 4099) × (b ≤ 36874) × (c ≤ 65537) }
{
    let offsets = offsets_of(shape);
    let columns = columns_of(shape);
    let splits = splits_of(shape);
    let mut diagonal = [0.0; 36874];
    let mut values = [0.0; 65537];
    fill(&mut diagonal);
    fill(&mut values);
    let number = copy_value(
        dim,
        starts,
        entries,
        a_diagonal,
        a_values,
        &offsets[0..offset_count(shape)],
        &columns[0..column_count(shape)],
        &splits[0..a],
        &mut diagonal[0..b],
        &mut values[0..c],
    );
    Seen {
        number,
        kept: is_filled(&values) && is_filled(&diagonal),
    }
}

// Slices: splits, diagonal, values, and the diagonal and values of A.
fn try_copy_value(dim: usize, case: usize) -> Seen {
    let shape = factor_shape(case);
    let from = a_shape(case);
    let d = at_most(length_in(case, 3, diagonal_length(from, dim)), 36874);
    let e = at_most(length_in(case, 4, values_length(from, dim)), 65537);
    let starts = offsets_of(from);
    let entries = columns_of(from);
    let a_diagonal = [1.5; 36874];
    let a_values = [1.5; 65537];
    copy_to(
        dim,
        &starts[0..offset_count(from)],
        &entries[0..column_count(from)],
        &a_diagonal[0..d],
        &a_values[0..e],
        shape,
        at_most(length_in(case, 0, row_count(shape)), 4099),
        at_most(length_in(case, 1, diagonal_length(shape, dim)), 36874),
        at_most(length_in(case, 2, values_length(shape, dim)), 65537),
    )
}

fn decompose_at(
    dim: usize,
    offsets: &[u32],
    columns: &[u32],
    splits: &[u32],
    diagonal: &mut [f64],
    values: &mut [f64],
) -> u32 {
    match dim {
        1 => decompose::decompose::<One>(offsets, columns, splits, diagonal, values).number(),
        2 => decompose::decompose::<Two>(offsets, columns, splits, diagonal, values).number(),
        _ => decompose::decompose::<Three>(offsets, columns, splits, diagonal, values).number(),
    }
}

// Slices: splits, diagonal, values. The values rise by one, so that a pivot may be singular at N = 2 and 3: 9 then says that all checks passed.
fn try_decompose(dim: usize, case: usize) -> Seen {
    let shape = factor_shape(case);
    let a = at_most(length_in(case, 0, row_count(shape)), 4099);
    let b = at_most(length_in(case, 1, diagonal_length(shape, dim)), 36874);
    let c = at_most(length_in(case, 2, values_length(shape, dim)), 65537);
    let offsets = offsets_of(shape);
    let columns = columns_of(shape);
    let splits = splits_of(shape);
    let mut diagonal = [0.0; 36874];
    let mut values = [0.0; 65537];
    fill(&mut diagonal);
    fill(&mut values);
    let number = decompose_at(
        dim,
        &offsets[0..offset_count(shape)],
        &columns[0..column_count(shape)],
        &splits[0..a],
        &mut diagonal[0..b],
        &mut values[0..c],
    );
    Seen {
        number,
        kept: is_filled(&values) && is_filled(&diagonal),
    }
}

fn solve(
    dim: usize,
    vec: &mut [f64],
    offsets: &[u32],
    columns: &[u32],
    splits: &[u32],
    diagonal: &[f64],
    values: &[f64],
) -> u32 {
    match dim {
        1 => precondition::solve_preconditioning_vec::<One>(
            vec, offsets, columns, splits, diagonal, values,
        ).number(),
        2 => precondition::solve_preconditioning_vec::<Two>(
            vec, offsets, columns, splits, diagonal, values,
        ).number(),
        _ => precondition::solve_preconditioning_vec::<Three>(
            vec, offsets, columns, splits, diagonal, values,
        ).number(),
    }
}

// Slices: splits, diagonal, values, vec.
fn try_solve(dim: usize, case: usize) -> Seen {
    let shape = factor_shape(case);
    let a = at_most(length_in(case, 0, row_count(shape)), 4099);
    let b = at_most(length_in(case, 1, diagonal_length(shape, dim)), 36874);
    let c = at_most(length_in(case, 2, values_length(shape, dim)), 65537);
    let d = at_most(length_in(case, 3, vector_length(shape, dim)), 12292);
    let offsets = offsets_of(shape);
    let columns = columns_of(shape);
    let splits = splits_of(shape);
    let diagonal = [1.5; 36874];
    let values = [1.5; 65537];
    let mut vec = [0.0; 12292];
    fill(&mut vec);
    let number = solve(
        dim,
        &mut vec[0..d],
        &offsets[0..offset_count(shape)],
        &columns[0..column_count(shape)],
        &splits[0..a],
        &diagonal[0..b],
        &values[0..c],
    );
    Seen {
        number,
        kept: is_filled(&vec),
    }
}
