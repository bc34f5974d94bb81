// The calls that add an element, merge, csrdia and blkcsr (0, 1, 2), at their limits: a function runs one case, by its number.
// The matrix has 8 rows that name all others, for blkcsr also themselves, then as many rows and columns as may be, and one more.
#![tactic(auto)]

ghost use Rattle.std.specs.Prelude.{◌≤◌, ◌+◌};

use answers::Numbered;
use blocks::{One, Three, Two};
use limits::Seen;
use limits::filled::{fill, is_filled};
use limits::ring::{fill_columns, fill_offsets};
use limits::sizes::values_a_block;

#[derive(Clone, Copy, PartialEq, Eq)]
pub enum ElementCall {
    Merge,
    Csrdia,
    Blkcsr,
}

fn merge(
    dim: usize,
    nodes: &[u32],
    element: &[f64],
    offsets: &[u32],
    columns: &[u32],
    diagonal: &mut [f64],
    values: &mut [f64],
) -> u32 {
    match dim {
        1 => elements::merge::<One>(nodes, element, offsets, columns, diagonal, values).number(),
        2 => elements::merge::<Two>(nodes, element, offsets, columns, diagonal, values).number(),
        _ => elements::merge::<Three>(nodes, element, offsets, columns, diagonal, values).number(),
    }
}

fn blkcsr(
    dim: usize,
    rows: &[u32],
    cols: &[u32],
    element: &[f64],
    offsets: &[u32],
    columns: &[u32],
    values: &mut [f64],
) -> u32 {
    match dim {
        1 => elements::blkcsr::<One>(rows, cols, element, offsets, columns, values).number(),
        2 => elements::blkcsr::<Two>(rows, cols, element, offsets, columns, values).number(),
        _ => elements::blkcsr::<Three>(rows, cols, element, offsets, columns, values).number(),
    }
}

fn run(
    call: ElementCall,
    dim: usize,
    rows: &[u32],
    cols: &[u32],
    element: &[f64],
    offsets: &[u32],
    columns: &[u32],
    diagonal: &mut [f64],
    values: &mut [f64],
) -> u32 {
    match call {
        ElementCall::Merge => merge(dim, rows, element, offsets, columns, diagonal, values),
        ElementCall::Csrdia => elements::csrdia(
            rows, cols, element, offsets, columns, diagonal, values,
        ).number(),
        ElementCall::Blkcsr => blkcsr(dim, rows, cols, element, offsets, columns, values),
    }
}

// Cases: 0 to 4 have m = 2, 0, 1, 8, 9; 5 to 10 make element, values and diagonal short, long; 11 and 12 the column nodes short, long;
// 13 and 14 have a row node, a column node that is n; 15 a node twice; 16 a pair without an entry; 17 that and a node that is n;
// 18 own columns; 19 those and a wrong length; 20 both and no row; 21 to 24 have 4,096 and 4,097 rows, 65,535 and 65,536 columns, at N = 1 alone.
// A call has not all of them: merge has one list of nodes, blkcsr no diagonal.
pub fn is_case_of(call: ElementCall, case: usize) -> bool {
    match case {
        9 | 10 => call != ElementCall::Blkcsr,
        11 | 12 | 14 => call != ElementCall::Merge,
        _ => true,
    }
}

fn node_count(case: usize) -> usize
    ensures { result ≤ 9 }
{
    match case {
        1 => 0,
        2 | 21 | 22 | 23 | 24 => 1,
        3 => 8,
        4 => 9,
        17 => 3,
        _ => 2,
    }
}

fn column_node_count(case: usize) -> usize
    ensures { result ≤ 9 }
{
    match case {
        11 => 1,
        12 => 3,
        _ => node_count(case),
    }
}

fn row_nodes(case: usize) -> [u32; 9] {
    match case {
        13 => [0, 8, 0, 0, 0, 0, 0, 0, 0],
        15 => [1, 1, 0, 0, 0, 0, 0, 0, 0],
        17 => [0, 1, 8, 0, 0, 0, 0, 0, 0],
        21 | 22 => [4095, 0, 0, 0, 0, 0, 0, 0, 0],
        23 | 24 => [256, 0, 0, 0, 0, 0, 0, 0, 0],
        _ => [0, 1, 2, 3, 4, 5, 6, 7, 0],
    }
}

fn column_nodes(case: usize) -> [u32; 9] {
    match case {
        13 => [0, 1, 0, 0, 0, 0, 0, 0, 0],
        14 => [0, 8, 0, 0, 0, 0, 0, 0, 0],
        _ => row_nodes(case),
    }
}

// Whether rows name themselves.
fn is_own(call: ElementCall, case: usize) -> bool {
    match case {
        18 | 19 | 20 => true,
        _ => call == ElementCall::Blkcsr,
    }
}

// How many columns each row has. In cases 16 and 17 it lacks the last, so that row 1 does not name column 0.
fn width(call: ElementCall, case: usize) -> u32
    ensures { result ≤ 255 }
{
    match case {
        16 | 17 => {
            if call == ElementCall::Blkcsr {
                return 7;
            }
            6
        }
        21 | 22 => 1,
        23 | 24 => 255,
        _ => {
            if is_own(call, case) {
                return 8;
            }
            7
        }
    }
}

fn start(call: ElementCall, case: usize) -> u32 {
    if is_own(call, case) {
        return 0;
    }
    1
}

fn row_count(case: usize) -> u32
    ensures { result ≤ 4097 }
{
    match case {
        21 => 4096,
        22 => 4097,
        23 | 24 => 257,
        _ => 8,
    }
}

fn offset_count(case: usize) -> usize
    ensures { result ≤ 4098 }
{
    if case == 20 {
        return 1;
    }
    row_count(case) as usize + 1
}

fn column_count(call: ElementCall, case: usize) -> usize
    ensures { result ≤ 65536 }
{
    match case {
        21 => 4096,
        22 => 4097,
        23 => 65535,
        24 => 65536,
        _ => 8 * width(call, case) as usize,
    }
}

fn offsets_of(call: ElementCall, case: usize) -> [u32; 4098] {
    let mut offsets = [0u32; 4098];
    fill_offsets(&mut offsets, width(call, case));
    offsets
}

fn columns_of(call: ElementCall, case: usize) -> [u32; 65536] {
    let mut columns = [0u32; 65536];
    fill_columns(
        &mut columns,
        row_count(case),
        width(call, case),
        start(call, case),
    );
    columns
}

// The length that a slice has: one short in case `short`, one long in the case after it, else right.
fn length_in(case: usize, short: usize, right: usize) -> usize
    requires { (short ≤ 9) × (right ≤ 65536) }
    ensures { result ≤ right + 1 }
{
    if case == short {
        if right > 0 {
            return right - 1;
        }
    }
    if case == short + 1 {
        return right + 1;
    }
    right
}

// In cases 19 and 20 the element is what has the wrong length.
fn element_values(dim: usize, case: usize) -> usize
    ensures { result ≤ 730 }
{
    match case {
        1 => 0,
        2 | 21 | 22 | 23 | 24 => values_a_block(dim),
        3 => 64 * values_a_block(dim),
        4 => 81 * values_a_block(dim),
        17 => 9 * values_a_block(dim),
        19 | 20 => 4 * values_a_block(dim) + 1,
        _ => length_in(case, 5, 4 * values_a_block(dim)),
    }
}

fn entry_values(call: ElementCall, dim: usize, case: usize) -> usize
    ensures { result ≤ 65537 }
{
    if case > 20 {
        return column_count(call, case);
    }
    let columns_a_row = width(call, case) as usize;
    match dim {
        1 => length_in(case, 7, 8 * columns_a_row),
        2 => length_in(case, 7, 32 * columns_a_row),
        _ => length_in(case, 7, 72 * columns_a_row),
    }
}

fn diagonal_values(dim: usize, case: usize) -> usize
    ensures { result ≤ 4097 }
{
    if case > 20 {
        return row_count(case) as usize;
    }
    length_in(case, 9, 8 * values_a_block(dim))
}

pub fn try_case(call: ElementCall, dim: usize, case: usize) -> Seen {
    let a = element_values(dim, case);
    let b = diagonal_values(dim, case);
    let c = entry_values(call, dim, case);
    let rows = row_nodes(case);
    let cols = column_nodes(case);
    let element = [0.5; 730];
    let offsets = offsets_of(call, case);
    let columns = columns_of(call, case);
    let mut diagonal = [0.0; 36874];
    let mut values = [0.0; 65537];
    fill(&mut diagonal);
    fill(&mut values);
    let number = run(
        call,
        dim,
        &rows[0..node_count(case)],
        &cols[0..column_node_count(case)],
        &element[0..a],
        &offsets[0..offset_count(case)],
        &columns[0..column_count(call, case)],
        &mut diagonal[0..b],
        &mut values[0..c],
    );
    Seen {
        number,
        kept: is_filled(&values) && is_filled(&diagonal),
    }
}
