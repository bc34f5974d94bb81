// Both solvers, conjugate_gradient and preconditioned_conjugate_gradient at their limits: a function runs one case, by its number.
// Nothing is printed here, so that nothing is assumed; the program `solver_cases` goes through the numbers.
#![tactic(auto)]

ghost use Rattle.std.specs.Prelude.{◌≤◌, ◌+◌};

use answers::Numbered;
use factor_shapes::{
    at_most, column_count, columns_of, diagonal_length, offset_count, offsets_of, row_count,
    splits_of, values_length, vector_length,
};
use limits::Seen;
use limits::filled::{fill, is_filled};
use solver_calls::{SolverCall, plain, preconditioned};

// Cases: 0 right; 1 to 18 slices 0 to 8 short, long (r, u or x, ap or pr, p, A's values and diagonal; splits, diagonal and values of the factor);
// 19 and 20 a history a word short, a word longer; 21 and 22 no offset, one; 23 and 24 have 4,096 and 4,097 rows without a column; 25 and 26 have 65,535 and 65,536 columns in 257 rows, at N = 1 alone;
// 27 and 28 limits of 4,096 and 4,097; 29 an own column; 30 a column twice; 31 an offset that falls; 32 a row that is not sorted; 33 no row and a limit of 4,097; 34 that limit and r short; 35 r short and an own column.
// Of a factor also: 36 no offset; 37 one; 38 4,097 rows; 39 65,536 columns, at N = 1 alone; 40 a row less; 41 an own column; 42 a column twice; 43 an offset that falls; 44 an unsorted row;
// 45 and 46 a split too low, too high; 47 that and an own column; 48 that and an own column in A; 49 that and p short.
pub fn is_case_of(call: SolverCall, dim: usize, case: usize) -> bool {
    if matches!(case, 25 | 26 | 39) && dim != 1 {
        return false;
    }
    if call == SolverCall::Plain {
        return case < 36 && (case < 13 || case > 18);
    }
    case < 50
}

// The shape of A, and that of the factor.
fn a_shape(case: usize) -> usize {
    match case {
        21 | 33 => 16,
        22 => 13,
        23 | 38 => 6,
        24 => 7,
        25 | 39 => 8,
        26 => 9,
        29 | 35 | 48 => 1,
        30 => 14,
        31 => 15,
        32 => 2,
        _ => 0,
    }
}

fn factor_shape(case: usize) -> usize {
    match case {
        23 | 24 => 6,
        25 | 26 => 8,
        36 => 16,
        37 => 13,
        38 => 7,
        39 => 9,
        40 => 12,
        41 => 1,
        42 => 14,
        43 => 15,
        44 => 2,
        45 | 48 | 49 => 3,
        46 => 4,
        47 => 5,
        _ => 0,
    }
}

fn limit_in(case: usize) -> u32
    ensures { (1 ≤ result) × (result ≤ 4097) }
{
    match case {
        27 => 4096,
        28 | 33 | 34 => 4097,
        _ => 3,
    }
}

// The history of a case, where so many words more than the limit are needed.
fn history_in(case: usize, more: usize) -> usize
    requires { more ≤ 2 }
    ensures { result ≤ 12292 }
{
    let needed = limit_in(case) as usize + more;
    match case {
        19 => needed - 1,
        20 => needed + 1,
        _ => needed,
    }
}

// The length that a slice has in a case: one short, one long, or right.
fn length_in(case: usize, slice: usize, right: usize) -> usize
    requires { (slice ≤ 8) × (right ≤ 65536) }
    ensures { result ≤ right + 1 }
{
    if case == 2 * slice + 1 {
        if right > 0 {
            return right - 1;
        }
    }
    if case == 2 * slice + 2 {
        return right + 1;
    }
    right
}

// That of a vector; r and p are also short beside another fault.
fn vector_in(case: usize, slice: usize, dim: usize) -> usize
    requires { slice ≤ 8 }
    ensures { result ≤ 12292 }
{
    let right = vector_length(a_shape(case), dim);
    if case == 34 || case == 35 {
        return at_most(length_in(1, slice, right), 12292);
    }
    if case == 49 {
        return at_most(length_in(7, slice, right), 12292);
    }
    at_most(length_in(case, slice, right), 12292)
}

// A solve with lent vectors whose words rise by one.
fn try_plainly(
    dim: usize,
    case: usize,
    offsets: &[u32],
    columns: &[u32],
    values: &[f64],
    diagonal: &[f64],
) -> Seen {
    let mut r = [0.0; 12292];
    let mut u = [0.0; 12292];
    let mut ap = [0.0; 12292];
    let mut p = [0.0; 12292];
    let mut history = [0.0; 12292];
    fill(&mut r);
    fill(&mut u);
    fill(&mut ap);
    fill(&mut p);
    fill(&mut history);
    let answer = plain(
        dim,
        &mut r[0..vector_in(case, 0, dim)],
        &mut u[0..vector_in(case, 1, dim)],
        &mut ap[0..vector_in(case, 2, dim)],
        &mut p[0..vector_in(case, 3, dim)],
        0.5,
        limit_in(case),
        offsets,
        columns,
        values,
        diagonal,
        &mut history[0..history_in(case, 0)],
    );
    Seen {
        number: answer.number(),
        kept: [&r, &u, &ap, &p, &history]
            .iter()
            .all(|room| is_filled(*room)),
    }
}

fn try_plain(dim: usize, case: usize) -> Seen {
    let shape = a_shape(case);
    let e = at_most(length_in(case, 4, values_length(shape, dim)), 65537);
    let d = at_most(length_in(case, 5, diagonal_length(shape, dim)), 36874);
    let offsets = offsets_of(shape);
    let columns = columns_of(shape);
    let values = [1.5; 65537];
    let diagonal = [1.5; 36874];
    try_plainly(
        dim,
        case,
        &offsets[0..offset_count(shape)],
        &columns[0..column_count(shape)],
        &values[0..e],
        &diagonal[0..d],
    )
}

// A solve with lent vectors whose words rise by one.
fn try_with_factor(
    dim: usize,
    case: usize,
    starts: &[u32],
    entries: &[u32],
    a_values: &[f64],
    a_diagonal: &[f64],
    offsets: &[u32],
    columns: &[u32],
    splits: &[u32],
    diagonal: &[f64],
    values: &[f64],
) -> Seen {
    let mut r = [0.0; 12292];
    let mut x = [0.0; 12292];
    let mut pr = [0.0; 12292];
    let mut p = [0.0; 12292];
    let mut history = [0.0; 12292];
    fill(&mut r);
    fill(&mut x);
    fill(&mut pr);
    fill(&mut p);
    fill(&mut history);
    let answer = preconditioned(
        dim,
        &mut r[0..vector_in(case, 0, dim)],
        &mut x[0..vector_in(case, 1, dim)],
        &mut pr[0..vector_in(case, 2, dim)],
        &mut p[0..vector_in(case, 3, dim)],
        0.5,
        limit_in(case),
        starts,
        entries,
        a_values,
        a_diagonal,
        offsets,
        columns,
        splits,
        diagonal,
        values,
        &mut history[0..history_in(case, 2)],
    );
    Seen {
        number: answer.number(),
        kept: [&r, &x, &pr, &p, &history]
            .iter()
            .all(|room| is_filled(*room)),
    }
}

// With A as it is lent, the factor of the case.
fn try_by_factor(
    dim: usize,
    case: usize,
    starts: &[u32],
    entries: &[u32],
    a_values: &[f64],
    a_diagonal: &[f64],
) -> Seen {
    let shape = factor_shape(case);
    let s = at_most(length_in(case, 6, row_count(shape)), 4099);
    let d = at_most(length_in(case, 7, diagonal_length(shape, dim)), 36874);
    let e = at_most(length_in(case, 8, values_length(shape, dim)), 65537);
    let offsets = offsets_of(shape);
    let columns = columns_of(shape);
    let splits = splits_of(shape);
    let diagonal = [1.5; 36874];
    let values = [1.5; 65537];
    try_with_factor(
        dim,
        case,
        starts,
        entries,
        a_values,
        a_diagonal,
        &offsets[0..offset_count(shape)],
        &columns[0..column_count(shape)],
        &splits[0..s],
        &diagonal[0..d],
        &values[0..e],
    )
}

fn try_preconditioned(dim: usize, case: usize) -> Seen {
    let shape = a_shape(case);
    let e = at_most(length_in(case, 4, values_length(shape, dim)), 65537);
    let d = at_most(length_in(case, 5, diagonal_length(shape, dim)), 36874);
    let starts = offsets_of(shape);
    let entries = columns_of(shape);
    let values = [1.5; 65537];
    let diagonal = [1.5; 36874];
    try_by_factor(
        dim,
        case,
        &starts[0..offset_count(shape)],
        &entries[0..column_count(shape)],
        &values[0..e],
        &diagonal[0..d],
    )
}

pub fn try_case(call: SolverCall, dim: usize, case: usize) -> Seen {
    if call == SolverCall::Plain {
        return try_plain(dim, case);
    }
    try_preconditioned(dim, case)
}
