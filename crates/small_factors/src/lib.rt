// Small factors, each by its number: all words that a decomposition leaves, whether or not it stops, and what solves with the finished one come to.
// A block is a number on its diagonal; two of the entries have one more value, so that the order of a product shows at N = 2 and 3.
#![tactic(auto)]

ghost use Rattle.std.specs.Prelude.{◌≤◌};

use answers::Numbered;
use blocks::{One, Three, Two};
use limits::sizes::{values_a_block, values_a_row};

// The number and row of an answer, and the words that are left: blocks of three rows and four entries.
#[derive(Drop)]
pub struct Left {
    pub number: u32,
    pub row: u32,
    pub diagonal: [f64; 27],
    pub values: [f64; 36],
}

// Rows 0-1-2 in a line; or all rows beside row 0, where the product for (1, 2) and the one for (2, 1) find no place.
fn offsets_of(case: usize) -> [u32; 4] {
    if case == 8 {
        [0, 2, 3, 4]
    } else {
        [0, 1, 3, 4]
    }
}

fn columns_of(case: usize) -> [u32; 4] {
    if case == 8 {
        [1, 2, 0, 0]
    } else {
        [1, 0, 2, 1]
    }
}

fn splits_of(case: usize) -> [u32; 3] {
    if case == 8 { [0, 3, 4] } else { [0, 2, 4] }
}

// Cases: 0 all pivots can be inverted; 1, 2, 3 that of row 0, 1, 2 can't; 4 a pivot of -0; 5 of NaN; 6 of infinity; 7 an upper entry of -0; 8 products that are dropped.
fn pivots_of(case: usize) -> [f64; 3] {
    match case {
        1 => [0.0, 8.0, 9.0],
        2 => [2.0, 6.0, 9.0],
        3 => [2.0, 8.0, 4.0],
        4 => [-0.0, 8.0, 9.0],
        5 => [0.0 / 0.0, 8.0, 9.0],
        6 => [1.0 / 0.0, 8.0, 9.0],
        8 => [2.0, 9.0, 9.0],
        _ => [2.0, 8.0, 9.0],
    }
}

fn entries_of(case: usize) -> [f64; 4] {
    if case == 7 {
        [-0.0, 3.0, 4.0, 2.0]
    } else {
        [4.0, 3.0, 4.0, 2.0]
    }
}

// Value (1, 0) of entry 1 and value (0, 1) of entry 2; in case 3 none, so that the last pivot is singular at every N.
fn tilt(case: usize) -> f64 {
    if case == 3 { 0.0 } else { 1.0 }
}

fn put_word(words: &mut [f64], at: usize, x: f64) {
    if let Some(word) = words.get_mut(at) {
        *word = x;
    }
}

// Each number on the diagonal of a block.
fn put_numbers(words: &mut [f64], dim: usize, numbers: &[f64]) {
    for (block, number) in words.chunks_exact_mut(values_a_block(dim)).zip(numbers) {
        for (place, word) in block.iter_mut().enumerate() {
            if place % (values_a_row(dim) + 1) == 0 {
                *word = *number;
            }
        }
    }
}

fn diagonal_of(dim: usize, case: usize) -> [f64; 27] {
    let mut diagonal = [0.0; 27];
    put_numbers(&mut diagonal, dim, &pivots_of(case));
    diagonal
}

fn values_of(dim: usize, case: usize) -> [f64; 36] {
    let mut values = [0.0; 36];
    put_numbers(&mut values, dim, &entries_of(case));
    if dim > 1 {
        put_word(&mut values, values_a_block(dim) + 1, tilt(case));
        put_word(
            &mut values,
            2 * values_a_block(dim) + values_a_row(dim),
            tilt(case),
        );
    }
    values
}

// The decomposition of a case: its pattern, three pivots and four entries.
pub fn decomposed(dim: usize, case: usize) -> Left {
    let offsets = offsets_of(case);
    let columns = columns_of(case);
    let splits = splits_of(case);
    let mut diagonal = diagonal_of(dim, case);
    let mut values = values_of(dim, case);
    let answer = match dim {
        1 => decompose::decompose::<One>(
            &offsets,
            &columns,
            &splits,
            &mut diagonal[0..3],
            &mut values[0..4],
        ),
        2 => decompose::decompose::<Two>(
            &offsets,
            &columns,
            &splits,
            &mut diagonal[0..12],
            &mut values[0..16],
        ),
        _ => decompose::decompose::<Three>(&offsets, &columns, &splits, &mut diagonal, &mut values),
    };
    Left {
        number: answer.number(),
        row: answer.row(),
        diagonal,
        values,
    }
}

// A solve with three rows in a line.
fn solve_with(dim: usize, vec: &mut [f64], diagonal: &[f64], values: &[f64]) {
    let offsets = [0u32, 1, 3, 4];
    let columns = [1u32, 0, 2, 1];
    let splits = [0u32, 2, 4];
    let _ = match dim {
        1 => precondition::solve_preconditioning_vec::<One>(
            vec, &offsets, &columns, &splits, diagonal, values,
        ),
        2 => precondition::solve_preconditioning_vec::<Two>(
            vec, &offsets, &columns, &splits, diagonal, values,
        ),
        _ => precondition::solve_preconditioning_vec::<Three>(
            vec, &offsets, &columns, &splits, diagonal, values,
        ),
    };
}

// The same with the first words of two rooms.
fn solve_first(dim: usize, vec: &mut [f64], diagonal: &[f64], values: &[f64]) {
    let size = values_a_block(dim);
    if 3 * size <= diagonal.len() && 4 * size <= values.len() {
        solve_with(dim, vec, &diagonal[..3 * size], &values[..4 * size]);
    }
}

// What the decomposed case 0 solves the right side 1, 2, 3 and so on to.
pub fn solved(dim: usize) -> [f64; 9] {
    let left = decomposed(dim, 0);
    let diagonal = left.diagonal;
    let values = left.values;
    let mut vec = [1.0, 2.0, 3.0, 4.0, 5.0, 6.0, 7.0, 8.0, 9.0];
    solve_first(dim, &mut vec[0..3 * values_a_row(dim)], &diagonal, &values);
    vec
}

// Document 01's cases 8 and 9, from A on: copied to its own pattern, decomposed, and, in case 8, solved with (8, 12).
#[derive(Drop)]
pub struct Pair {
    pub number: u32,
    pub row: u32,
    pub diagonal: [f64; 2],
    pub values: [f64; 2],
    pub vec: [f64; 2],
}

pub fn case_of_two_rows(pivots: [f64; 2], entry: f64) -> Pair {
    let mut diagonal = [7.0, 7.0];
    let mut values = [7.0, 7.0];
    let mut vec = [8.0, 12.0];
    let _ = copying::copy_value::<One>(
        &[0, 1, 2],
        &[1, 0],
        &pivots,
        &[entry, entry],
        &[0, 1, 2],
        &[1, 0],
        &[0, 2],
        &mut diagonal,
        &mut values,
    );
    let answer = decompose::decompose::<One>(
        &[0, 1, 2],
        &[1, 0],
        &[0, 2],
        &mut diagonal,
        &mut values,
    );
    let _ = precondition::solve_preconditioning_vec::<One>(
        &mut vec,
        &[0, 1, 2],
        &[1, 0],
        &[0, 2],
        &diagonal,
        &values,
    );
    Pair {
        number: answer.number(),
        row: answer.row(),
        diagonal,
        values,
        vec,
    }
}

// Rows of A in any order: row 0 has its columns falling, and the factor has (1, 2) and (2, 1), which A has not.
pub fn copied() -> Left {
    let mut diagonal = [7.0; 27];
    let mut values = [7.0; 36];
    let answer = copying::copy_value::<One>(
        &[0, 2, 3, 4],
        &[2, 1, 0, 0],
        &[1.0, 2.0, 3.0],
        &[4.0, 5.0, 6.0, -0.0],
        &[0, 2, 4, 6],
        &[1, 2, 0, 2, 0, 1],
        &[0, 3, 6],
        &mut diagonal[0..3],
        &mut values[0..6],
    );
    Left {
        number: answer.number(),
        row: answer.row(),
        diagonal,
        values,
    }
}
