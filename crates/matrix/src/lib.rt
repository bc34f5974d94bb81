// The sparse block matrix: document 01's product and `set_zero`, each call checked, at each size.
// A matrix is lent as offsets, columns, the values of its entries and those of its diagonal. A call that refuses changes nothing.
#![tactic(auto)]

pub mod unchecked;

ghost use Rattle.std.specs.Prelude.{◌≡◌, length, List, Float};
ghost use Rattle.std.specs.Float.{binary64};
ghost use Rattle.answers.specs.Promise.{Ends};
ghost use Rattle.vectors.specs.Vectors.{zeroed};
ghost use Rattle.matrix.specs.Checks.{matrix_checks, vector_checks};
ghost use Rattle.matrix.specs.Product.{mult_vec};

use answers::{Answer, Refusal};
use blocks::Size;
use patterns::unchecked::is_valid_pattern;
use unchecked::{check_matrix, check_vectors};

// y scaled by beta, plus alpha times the matrix times x.
pub fn mult_vec<S: Size>(
    offsets: &[u32],
    columns: &[u32],
    values: &[f64],
    diagonal: &[f64],
    y: &mut [f64],
    beta: f64,
    alpha: f64,
    x: &[f64],
) -> Answer
    ensures { Ends (vector_checks S.DIM offsets.now columns.now (length values.now) (length diagonal.now) (length y.old) (length x.now)) result
        (mult_vec binary64 S.DIM offsets.now columns.now values.now diagonal.now beta alpha x.now y.old)
        y.old y.new }
{
    check_vectors::<S>(
        offsets.len(),
        columns.len(),
        values.len(),
        diagonal.len(),
        y.len(),
        x.len(),
    )?;
    if !is_valid_pattern(offsets, columns) {
        return Err(Refusal::Pattern);
    }
    unchecked::mult_vec::<S>(y, beta, alpha, offsets, columns, values, diagonal, x);
    Ok(())
}

// All values become +0.
pub fn set_zero<S: Size>(
    offsets: &[u32],
    columns: &[u32],
    values: &mut [f64],
    diagonal: &mut [f64],
) -> Answer
    ensures { Ends {A = List Float × List Float} (matrix_checks S.DIM offsets.now columns.now (length values.old) (length diagonal.old)) result
        (zeroed binary64 values.old, zeroed binary64 diagonal.old)
        (values.old, diagonal.old) (values.new, diagonal.new) }
{
    check_matrix::<S>(offsets.len(), columns.len(), values.len(), diagonal.len())?;
    if !is_valid_pattern(offsets, columns) {
        return Err(Refusal::Pattern);
    }
    vectors::unchecked::set_zero(values);
    vectors::unchecked::set_zero(diagonal);
    Ok(())
}
