// Patterns of a factor, by a number: three rows that each name the other two, that with each fault, and patterns of 01's full sizes.
// Shapes: 0 right; 1 an own column; 2 an unsorted row; 3 and 4 a split too low, too high; 5 that and an own column; 6 and 7 have 4,096 and 4,097 rows without a column;
// 8 and 9 have 65,535 and 65,536 columns in 257 rows; 10 lacks an entry of shape 0; 11 that and a wrong split; 12 two rows; 13 an own column and one offset;
// 14 a column twice; 15 an offset that falls; 16 no offset.
#![tactic(auto)]

ghost use Rattle.std.specs.Prelude.{◌≤◌};

use limits::sizes::{values_a_block, values_a_row};

pub fn row_count(shape: usize) -> usize
    ensures { result ≤ 4097 }
{
    match shape {
        6 => 4096,
        7 => 4097,
        8 | 9 => 257,
        12 => 2,
        _ => 3,
    }
}

pub fn offset_count(shape: usize) -> usize
    ensures { result ≤ 4098 }
{
    match shape {
        13 => 1,
        16 => 0,
        _ => row_count(shape) + 1,
    }
}

pub fn column_count(shape: usize) -> usize
    ensures { result ≤ 65536 }
{
    match shape {
        6 | 7 => 0,
        8 => 65535,
        9 => 65536,
        10 | 11 => 5,
        12 => 2,
        _ => 6,
    }
}

// The lengths that a shape asks for. One with more rows or columns than may be is refused by these alone.
fn of_rows(shape: usize, each: usize) -> usize
    requires { each ≤ 9 }
    ensures { result ≤ 36873 }
{
    match shape {
        6 => 4096 * each,
        7 => 4097 * each,
        8 | 9 => 257 * each,
        12 => 2 * each,
        _ => 3 * each,
    }
}

pub fn vector_length(shape: usize, dim: usize) -> usize
    ensures { result ≤ 36873 }
{
    of_rows(shape, values_a_row(dim))
}

pub fn diagonal_length(shape: usize, dim: usize) -> usize
    ensures { result ≤ 36873 }
{
    of_rows(shape, values_a_block(dim))
}

pub fn values_length(shape: usize, dim: usize) -> usize
    ensures { result ≤ 65536 }
{
    match shape {
        6 | 7 => 0,
        8 => 65535,
        9 => 65536,
        10 | 11 => 5 * values_a_block(dim),
        12 => 2 * values_a_block(dim),
        _ => 6 * values_a_block(dim),
    }
}

// A room, which no length here exceeds.
pub fn at_most(x: usize, most: usize) -> usize
    ensures { result ≤ most }
{
    x.min(most)
}

// The first words of a slice.
fn begin(words: &mut [u32], first: [u32; 6]) {
    for (word, x) in words.iter_mut().zip(first) {
        *word = x;
    }
}

// Rows of 255 columns each. A remainder changes no offset up to 65,535: it keeps the sum in its 32 bits.
fn fill_wide_offsets(offsets: &mut [u32]) {
    let mut at: u32 = 0;
    for offset in offsets.iter_mut() {
        *offset = at;
        at = at % 65536 + 255;
    }
}

// Of 257 columns row i has all but its own and the one after it, around the end: so the columns of row i that are below i are its first ones.
fn wide_column(row: u32, place: u32) -> u32 {
    if row == 256 {
        return place % 256 + 1;
    }
    if place < row {
        return place;
    }
    place % 256 + 2
}

// The place after a place, and the row after it: at place 0 a row begins.
fn next_place(place: u32) -> u32 {
    if place < 254 { place + 1 } else { 0 }
}

fn row_at(place: u32, row: u32) -> u32 {
    if place == 0 { row % 1024 + 1 } else { row }
}

fn fill_wide_columns(columns: &mut [u32]) {
    let mut row: u32 = 0;
    let mut place: u32 = 0;
    for column in columns.iter_mut() {
        *column = wide_column(row, place);
        place = next_place(place);
        row = row_at(place, row);
    }
}

// The split of a row: so many of its columns are below the row.
fn wide_split(row: u32) -> u32 {
    if row < 255 {
        return 256 * row;
    }
    255 * (row % 1024) + 255
}

fn fill_wide_splits(splits: &mut [u32]) {
    let mut row: u32 = 0;
    for split in splits.iter_mut() {
        *split = wide_split(row);
        row = row % 1024 + 1;
    }
}

pub fn offsets_of(shape: usize) -> [u32; 4098] {
    let mut offsets = [0u32; 4098];
    match shape {
        6 | 7 => {}
        8 | 9 => fill_wide_offsets(&mut offsets),
        10 | 11 => begin(&mut offsets, [0, 1, 3, 5, 0, 0]),
        12 => begin(&mut offsets, [0, 1, 2, 0, 0, 0]),
        15 => begin(&mut offsets, [0, 4, 2, 6, 0, 0]),
        _ => begin(&mut offsets, [0, 2, 4, 6, 0, 0]),
    }
    offsets
}

pub fn columns_of(shape: usize) -> [u32; 65536] {
    let mut columns = [0u32; 65536];
    match shape {
        1 | 5 | 13 => begin(&mut columns, [0, 2, 0, 2, 0, 1]),
        2 => begin(&mut columns, [2, 1, 0, 2, 0, 1]),
        6 | 7 => {}
        8 | 9 => fill_wide_columns(&mut columns),
        10 | 11 => begin(&mut columns, [1, 0, 2, 0, 1, 0]),
        12 => begin(&mut columns, [1, 0, 0, 0, 0, 0]),
        14 => begin(&mut columns, [1, 1, 0, 2, 0, 1]),
        _ => begin(&mut columns, [1, 2, 0, 2, 0, 1]),
    }
    columns
}

pub fn splits_of(shape: usize) -> [u32; 4099] {
    let mut splits = [0u32; 4099];
    match shape {
        3 | 5 => begin(&mut splits, [0, 2, 6, 0, 0, 0]),
        4 => begin(&mut splits, [0, 4, 6, 0, 0, 0]),
        6 | 7 => {}
        8 | 9 => fill_wide_splits(&mut splits),
        10 => begin(&mut splits, [0, 2, 5, 0, 0, 0]),
        11 => begin(&mut splits, [0, 2, 4, 0, 0, 0]),
        12 => begin(&mut splits, [0, 2, 0, 0, 0, 0]),
        _ => begin(&mut splits, [0, 3, 6, 0, 0, 0]),
    }
    splits
}
