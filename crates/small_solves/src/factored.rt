// The factor of the small systems: A copied to its own pattern, with each row sorted, and decomposed.
// Row 1 and row 3 would have each other's column in a full factor, so that this one is incomplete.
use blocks::{One, Three, Two};
use limits::sizes::values_a_block;
use ring_systems::{fill_diagonal, fill_values};

fn copy(
    dim: usize,
    a_diagonal: &[f64],
    a_values: &[f64],
    diagonal: &mut [f64],
    values: &mut [f64],
) {
    let starts = [0u32, 2, 4, 6, 8];
    let entries = [1u32, 3, 2, 0, 3, 1, 0, 2];
    let offsets = [0u32, 2, 4, 6, 8];
    let columns = [1u32, 3, 0, 2, 1, 3, 0, 2];
    let splits = [0u32, 3, 5, 8];
    let _ = match dim {
        1 => copying::copy_value::<One>(
            &starts, &entries, a_diagonal, a_values, &offsets, &columns, &splits, diagonal, values,
        ),
        2 => copying::copy_value::<Two>(
            &starts, &entries, a_diagonal, a_values, &offsets, &columns, &splits, diagonal, values,
        ),
        _ => copying::copy_value::<Three>(
            &starts, &entries, a_diagonal, a_values, &offsets, &columns, &splits, diagonal, values,
        ),
    };
}

fn decompose_at(dim: usize, diagonal: &mut [f64], values: &mut [f64]) {
    let offsets = [0u32, 2, 4, 6, 8];
    let columns = [1u32, 3, 0, 2, 1, 3, 0, 2];
    let splits = [0u32, 3, 5, 8];
    let _ = match dim {
        1 => decompose::decompose::<One>(&offsets, &columns, &splits, diagonal, values),
        2 => decompose::decompose::<Two>(&offsets, &columns, &splits, diagonal, values),
        _ => decompose::decompose::<Three>(&offsets, &columns, &splits, diagonal, values),
    };
}

// The lent values become the factor's.
pub fn factor(dim: usize, diagonal: &mut [f64], values: &mut [f64]) {
    let mut a_diagonal = [0.0; 36];
    let mut a_values = [0.0; 72];
    fill_diagonal(&mut a_diagonal, dim, 1.0);
    fill_values(&mut a_values, dim, 8, 1.0);
    copy(
        dim,
        &a_diagonal[0..4 * values_a_block(dim)],
        &a_values[0..8 * values_a_block(dim)],
        diagonal,
        values,
    );
    decompose_at(dim, diagonal, values);
}
