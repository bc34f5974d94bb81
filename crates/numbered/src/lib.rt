// The calls of `matrix`, `fixing` and `elements` with N as a number, on words. An N other than 1, 2, 3 is 2 as a wrong length is.
// A call that refuses changes nothing.
#![tactic(auto)]

pub mod unchecked;

ghost use Rattle.std.specs.Prelude.{◌≡◌, List, ◌++◌, cond, length, Float};
ghost use Rattle.std.specs.Float.{binary64};
ghost use Rattle.answers.specs.Numbers.{refusal_number};
ghost use Rattle.answers.specs.Limits.{outside_of};
ghost use Rattle.answers.specs.Promise.{Ends};
ghost use Rattle.patterns.specs.Checks.{too_large};
ghost use Rattle.patterns.specs.Pattern.{rows_of};
ghost use Rattle.vectors.specs.Vectors.{zeroed};
ghost use Rattle.matrix.specs.Checks.{matrix_checks, vector_checks};
ghost use Rattle.matrix.specs.Product.{mult_vec};
ghost use Rattle.fixing.specs.Fixing.{fix_diagonal, fix_values};
ghost use Rattle.elements.specs.Assembly.{Lists, merged, blkcsr_of};
ghost use Rattle.elements.specs.Checks.{merge_checks, blkcsr_checks};
ghost use Rattle.numbered.specs.Checks.{dim_checks};

use answers::{Answer, Refusal};
use blocks::{One, Three, Two};
use patterns::is_too_large;

// Whether N is none of 1, 2, 3.
pub fn is_no_dim(dim: u32) -> bool
    ensures { result ≡ outside_of 1 3 dim }
{
    if dim < 1 {
        return true;
    }
    dim > 3
}

// Why a call at another N refuses: the size of its pattern is checked first.
pub fn refusal(offsets: usize, columns: usize) -> Refusal
    ensures { refusal_number result ≡ cond (too_large offsets columns) 1 2 }
{
    if is_too_large(offsets, columns) {
        return Refusal::Size;
    }
    Refusal::Shape
}

// y scaled by beta, plus alpha times the matrix times x.
pub fn mult_vec(
    dim: u32,
    offsets: &[u32],
    columns: &[u32],
    values: &[f64],
    diagonal: &[f64],
    y: &mut [f64],
    beta: f64,
    alpha: f64,
    x: &[f64],
) -> Answer
    ensures { Ends (dim_checks dim (length offsets.now) (length columns.now)
        ++ vector_checks dim offsets.now columns.now (length values.now) (length diagonal.now) (length y.old) (length x.now)) result
        (mult_vec binary64 dim offsets.now columns.now values.now diagonal.now beta alpha x.now y.old)
        y.old y.new }
{
    match dim {
        1 => matrix::mult_vec::<One>(offsets, columns, values, diagonal, y, beta, alpha, x),
        2 => matrix::mult_vec::<Two>(offsets, columns, values, diagonal, y, beta, alpha, x),
        3 => matrix::mult_vec::<Three>(offsets, columns, values, diagonal, y, beta, alpha, x),
        _ => Err(refusal(offsets.len(), columns.len())),
    }
}

// All values become +0.
pub fn set_zero(
    dim: u32,
    offsets: &[u32],
    columns: &[u32],
    values: &mut [f64],
    diagonal: &mut [f64],
) -> Answer
    ensures { Ends {A = List Float × List Float} (dim_checks dim (length offsets.now) (length columns.now)
        ++ matrix_checks dim offsets.now columns.now (length values.old) (length diagonal.old)) result
        (zeroed binary64 values.old, zeroed binary64 diagonal.old)
        (values.old, diagonal.old) (values.new, diagonal.new) }
{
    match dim {
        1 => matrix::set_zero::<One>(offsets, columns, values, diagonal),
        2 => matrix::set_zero::<Two>(offsets, columns, values, diagonal),
        3 => matrix::set_zero::<Three>(offsets, columns, values, diagonal),
        _ => Err(refusal(offsets.len(), columns.len())),
    }
}

// Fixed values leave the matrix, with val_dia on its diagonal.
pub fn set_fixed_bc(
    dim: u32,
    val_dia: f64,
    flags: &[i32],
    diagonal: &mut [f64],
    values: &mut [f64],
    offsets: &[u32],
    columns: &[u32],
) -> Answer
    ensures { Ends {A = List Float × List Float} (dim_checks dim (length offsets.now) (length columns.now)
        ++ vector_checks dim offsets.now columns.now (length values.old) (length diagonal.old) (length flags.now) (length flags.now)) result
        (fix_diagonal binary64 dim val_dia flags.now (rows_of offsets.now) diagonal.old, fix_values binary64 dim flags.now offsets.now columns.now values.old)
        (diagonal.old, values.old) (diagonal.new, values.new) }
{
    match dim {
        1 => fixing::set_fixed_bc::<One>(val_dia, flags, diagonal, values, offsets, columns),
        2 => fixing::set_fixed_bc::<Two>(val_dia, flags, diagonal, values, offsets, columns),
        3 => fixing::set_fixed_bc::<Three>(val_dia, flags, diagonal, values, offsets, columns),
        _ => Err(refusal(offsets.len(), columns.len())),
    }
}

// The same node place goes to the diagonal, other pairs to the entry.
pub fn merge(
    dim: u32,
    nodes: &[u32],
    element: &[f64],
    offsets: &[u32],
    columns: &[u32],
    diagonal: &mut [f64],
    values: &mut [f64],
) -> Answer
    ensures { Ends {A = Lists}
        (dim_checks dim (length offsets.now) (length columns.now) ++ merge_checks dim nodes.now (length element.now) offsets.now columns.now (length diagonal.old) (length values.old))
        result
        (merged binary64 dim nodes.now element.now offsets.now columns.now (diagonal.old, values.old))
        (diagonal.old, values.old) (diagonal.new, values.new) }
{
    match dim {
        1 => elements::merge::<One>(nodes, element, offsets, columns, diagonal, values),
        2 => elements::merge::<Two>(nodes, element, offsets, columns, diagonal, values),
        3 => elements::merge::<Three>(nodes, element, offsets, columns, diagonal, values),
        _ => Err(refusal(offsets.len(), columns.len())),
    }
}

// Every pair goes to an entry, own column included.
pub fn blkcsr(
    dim: u32,
    rows: &[u32],
    cols: &[u32],
    element: &[f64],
    offsets: &[u32],
    columns: &[u32],
    values: &mut [f64],
) -> Answer
    ensures { Ends
        (dim_checks dim (length offsets.now) (length columns.now) ++ blkcsr_checks dim rows.now cols.now (length element.now) offsets.now columns.now (length values.old))
        result
        (blkcsr_of binary64 dim rows.now cols.now element.now offsets.now columns.now values.old)
        values.old values.new }
{
    match dim {
        1 => elements::blkcsr::<One>(rows, cols, element, offsets, columns, values),
        2 => elements::blkcsr::<Two>(rows, cols, element, offsets, columns, values),
        3 => elements::blkcsr::<Three>(rows, cols, element, offsets, columns, values),
        _ => Err(refusal(offsets.len(), columns.len())),
    }
}
