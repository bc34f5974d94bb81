// The matrix calls on words, for a benchmark: no bytes are coded, so that none are timed. Each is the public call at its N.
// What each answers is its number, 2 for an N other than 1, 2, 3 whose pattern is not too large.
ghost use Rattle.std.specs.Prelude.{List, ◌++◌, length, Float};
ghost use Rattle.std.specs.Float.{binary64};
ghost use Rattle.patterns.specs.Pattern.{rows_of};
ghost use Rattle.matrix.specs.Checks.{vector_checks};
ghost use Rattle.matrix.specs.Product.{mult_vec};
ghost use Rattle.fixing.specs.Fixing.{fix_diagonal, fix_values};
ghost use Rattle.numbered.specs.Checks.{dim_checks};
ghost use Rattle.outcomes.specs.Calls.{Finished};

use answers::Numbered;

pub fn pierbramble_timed_mult_vec(
    dim: u32,
    offsets: &[u32],
    columns: &[u32],
    values: &[f64],
    diagonal: &[f64],
    y: &mut [f64],
    beta: f64,
    alpha: f64,
    x: &[f64],
) -> u32
    ensures { Finished (dim_checks dim (length offsets.now) (length columns.now)
        ++ vector_checks dim offsets.now columns.now (length values.now) (length diagonal.now) (length y.old) (length x.now)) result
        (mult_vec binary64 dim offsets.now columns.now values.now diagonal.now beta alpha x.now y.old)
        y.old y.new }
{
    numbered::mult_vec(dim, offsets, columns, values, diagonal, y, beta, alpha, x).number()
}

pub fn pierbramble_timed_set_fixed_bc(
    dim: u32,
    val_dia: f64,
    flags: &[i32],
    diagonal: &mut [f64],
    values: &mut [f64],
    offsets: &[u32],
    columns: &[u32],
) -> u32
    ensures { Finished {A = List Float × List Float} (dim_checks dim (length offsets.now) (length columns.now)
        ++ vector_checks dim offsets.now columns.now (length values.old) (length diagonal.old) (length flags.now) (length flags.now)) result
        (fix_diagonal binary64 dim val_dia flags.now (rows_of offsets.now) diagonal.old, fix_values binary64 dim flags.now offsets.now columns.now values.old)
        (diagonal.old, values.old) (diagonal.new, values.new) }
{
    numbered::set_fixed_bc(dim, val_dia, flags, diagonal, values, offsets, columns).number()
}
