// The checks of lengths of `matrix` and `elements` with N as a number that is 1, 2 or 3: for the calls on bytes, which check N before.
// These functions ask that of their callers, so that no user calls them.
ghost use Rattle.std.specs.Prelude.{◌≡◌};
ghost use Rattle.answers.specs.Numbers.{number_of};
ghost use Rattle.answers.specs.Checks.{first_of};
ghost use Rattle.lent.specs.Steps.{Dim};
ghost use Rattle.matrix.specs.Checks.{matrix_lengths, vector_lengths};
ghost use Rattle.elements.specs.Checks.{entry_lengths, element_lengths};

use answers::Answer;
use blocks::{One, Three, Two};

// The checks of a matrix by its lengths.
pub fn check_matrix(
    dim: u32,
    offsets: usize,
    columns: usize,
    values: usize,
    diagonal: usize,
) -> Answer
    requires { Dim dim }
    ensures { number_of result ≡ first_of (matrix_lengths dim offsets columns values diagonal) }
{
    match dim {
        1 => matrix::unchecked::check_matrix::<One>(offsets, columns, values, diagonal),
        2 => matrix::unchecked::check_matrix::<Two>(offsets, columns, values, diagonal),
        _ => matrix::unchecked::check_matrix::<Three>(offsets, columns, values, diagonal),
    }
}

// The same of a matrix and two slices that have N words to a row.
pub fn check_vectors(
    dim: u32,
    offsets: usize,
    columns: usize,
    values: usize,
    diagonal: usize,
    first: usize,
    second: usize,
) -> Answer
    requires { Dim dim }
    ensures { number_of result ≡ first_of (vector_lengths dim offsets columns values diagonal first second) }
{
    match dim {
        1 => matrix::unchecked::check_vectors::<One>(
            offsets, columns, values, diagonal, first, second,
        ),
        2 => matrix::unchecked::check_vectors::<Two>(
            offsets, columns, values, diagonal, first, second,
        ),
        _ => matrix::unchecked::check_vectors::<Three>(
            offsets, columns, values, diagonal, first, second,
        ),
    }
}

// The checks of an element and a matrix by their lengths, without a diagonal.
pub fn check_entry_lengths(
    dim: u32,
    rows: usize,
    cols: usize,
    element: usize,
    offsets: usize,
    columns: usize,
    values: usize,
) -> Answer
    requires { Dim dim }
    ensures { number_of result ≡ first_of (entry_lengths dim rows cols element offsets columns values) }
{
    match dim {
        1 => elements::unchecked::check_entry_lengths::<One>(
            rows, cols, element, offsets, columns, values,
        ),
        2 => elements::unchecked::check_entry_lengths::<Two>(
            rows, cols, element, offsets, columns, values,
        ),
        _ => elements::unchecked::check_entry_lengths::<Three>(
            rows, cols, element, offsets, columns, values,
        ),
    }
}

// The same with a diagonal.
pub fn check_element_lengths(
    dim: u32,
    rows: usize,
    cols: usize,
    element: usize,
    offsets: usize,
    columns: usize,
    diagonal: usize,
    values: usize,
) -> Answer
    requires { Dim dim }
    ensures { number_of result ≡ first_of (element_lengths dim rows cols element offsets columns diagonal values) }
{
    match dim {
        1 => elements::unchecked::check_element_lengths::<One>(
            rows, cols, element, offsets, columns, diagonal, values,
        ),
        2 => elements::unchecked::check_element_lengths::<Two>(
            rows, cols, element, offsets, columns, diagonal, values,
        ),
        _ => elements::unchecked::check_element_lengths::<Three>(
            rows, cols, element, offsets, columns, diagonal, values,
        ),
    }
}
