// Systems of rows in a ring, of any number of rows and at each N: each row names the row after it and then the row before it, around the end.
// A is symmetric and each of its rows is heavier on the diagonal than beside it, so that both solvers converge.
#![tactic(auto)]

use limits::sizes::{values_a_block, values_a_row};

// The numbers on the diagonal of a row's block go round by four.
fn pivot_of(row: usize) -> f64 {
    match row % 4 {
        0 => 4.0,
        1 => 5.0,
        2 => 6.0,
        _ => 7.0,
    }
}

// Whether a place of a block lies on its diagonal.
fn is_diagonal(dim: usize, place: usize) -> bool {
    place % (values_a_row(dim) + 1) == 0
}

fn diagonal_word(dim: usize, k: usize) -> f64 {
    let size = values_a_block(dim);
    if is_diagonal(dim, k % size) {
        return pivot_of(k / size);
    }
    0.5
}

// What inverts a block but for the values beside its diagonal.
fn inverse_word(dim: usize, k: usize) -> f64 {
    let size = values_a_block(dim);
    if is_diagonal(dim, k % size) {
        return 1.0 / pivot_of(k / size);
    }
    0.0
}

// The place beside the diagonal that an entry has a value at: (0, 1) in an upper one, (1, 0) in a lower one. The first entry of a row is upper but for the last row's; row 0 has two.
fn tilted_place(dim: usize, entry: usize, entries: usize) -> usize {
    if entry == 1 {
        return values_a_row(dim);
    }
    if entry % 2 == 0 && entries.saturating_sub(entry) > 2 {
        return values_a_row(dim);
    }
    1
}

fn entry_word(dim: usize, k: usize, entries: usize) -> f64 {
    let size = values_a_block(dim);
    let place = k % size;
    if is_diagonal(dim, place) {
        return -1.0;
    }
    if place == tilted_place(dim, k / size, entries) {
        return 0.25;
    }
    0.0
}

// The diagonal values of A, times a number.
pub fn fill_diagonal(words: &mut [f64], dim: usize, scale: f64) {
    for (k, word) in words.iter_mut().enumerate() {
        *word = scale * diagonal_word(dim, k);
    }
}

// The diagonal values of a factor without entries.
pub fn fill_inverses(words: &mut [f64], dim: usize) {
    for (k, word) in words.iter_mut().enumerate() {
        *word = inverse_word(dim, k);
    }
}

// The values of so many entries of A, times a number.
pub fn fill_values(words: &mut [f64], dim: usize, entries: usize, scale: f64) {
    for (k, word) in words.iter_mut().enumerate() {
        *word = scale * entry_word(dim, k, entries);
    }
}

// A row's two columns; the first is also the row that comes next.
fn column_after(row: u32, rows: u32) -> u32 {
    match row.checked_add(1) {
        Some(next) if next < rows => next,
        _ => 0,
    }
}

fn column_before(row: u32, rows: u32) -> u32 {
    if row > 0 {
        return row - 1;
    }
    rows.saturating_sub(1)
}

// At an even place stands a row's first column; after an odd one the row ends.
fn column_at(k: usize, row: u32, rows: u32) -> u32 {
    if k % 2 == 0 {
        return column_after(row, rows);
    }
    column_before(row, rows)
}

fn row_after(k: usize, row: u32, rows: u32) -> u32 {
    if k % 2 == 0 {
        return row;
    }
    column_after(row, rows)
}

// The columns of so many rows.
pub fn fill_columns(columns: &mut [u32], rows: u32) {
    let mut row: u32 = 0;
    for (k, column) in columns.iter_mut().enumerate() {
        *column = column_at(k, row, rows);
        row = row_after(k, row, rows);
    }
}
