// The factor's calls without their checks, for a benchmark that sets their time beside that of the checked calls.
// These functions ask of their callers what the checks find, so that no user calls them.
ghost use Rattle.std.specs.Prelude.{◌≡◌, ◌*◌, length};
ghost use Rattle.std.specs.Float.{binary64};
ghost use Rattle.patterns.specs.Pattern.{rows_of};
ghost use Rattle.factors.specs.Copy.{copied_rows};
ghost use Rattle.factors.specs.Factor.{Decomposed, decompose};
ghost use Rattle.factors.specs.Solve.{solve};
ghost use Rattle.reducing.specs.Lent.{pattern_of, factor_of};
ghost use Rattle.factor_check.specs.Fits.{FactorFits};
ghost use Rattle.decompose.specs.Steps.{stopped_at};
ghost use Rattle.copy_rows.specs.Steps.{CopyFits};

use blocks::{One, Three, Two};
use copy_rows::unchecked::copy_value;
use decompose::unchecked::decompose;
use solving::unchecked::solve_preconditioning_vec;

// vec becomes what the factor solves it to.
#[unsafe(no_mangle)]
pub extern "C" fn pierbramble_unchecked_solve_preconditioning_vec(
    dim: u32,
    vec: &mut [f64],
    offsets: &[u32],
    columns: &[u32],
    splits: &[u32],
    diagonal: &[f64],
    values: &[f64],
)
    requires { (FactorFits dim offsets.now columns.now splits.now (length diagonal.now) (length values.now)) × (length vec.old ≡ dim * rows_of offsets.now) }
    ensures { vec.new ≡ solve binary64 dim (pattern_of offsets.now columns.now splits.now) (factor_of diagonal.now values.now) vec.old }
{
    match dim {
        1 => solve_preconditioning_vec::<One>(vec, offsets, columns, splits, diagonal, values),
        2 => solve_preconditioning_vec::<Two>(vec, offsets, columns, splits, diagonal, values),
        _ => solve_preconditioning_vec::<Three>(vec, offsets, columns, splits, diagonal, values),
    }
}

// The row of the first pivot that can't be inverted, or the number of rows if there is none.
#[unsafe(no_mangle)]
pub extern "C" fn pierbramble_unchecked_decompose(
    dim: u32,
    offsets: &[u32],
    columns: &[u32],
    splits: &[u32],
    diagonal: &mut [f64],
    values: &mut [f64],
) -> usize
    requires { FactorFits dim offsets.now columns.now splits.now (length diagonal.old) (length values.old) }
    ensures { ◌≡◌ {A = Decomposed} (record { left = factor_of diagonal.new values.new; stopped = stopped_at (rows_of offsets.now) result }) (decompose binary64 dim (pattern_of offsets.now columns.now splits.now) (factor_of diagonal.old values.old)) }
{
    match dim {
        1 => decompose::<One>(diagonal, values, offsets, columns, splits),
        2 => decompose::<Two>(diagonal, values, offsets, columns, splits),
        _ => decompose::<Three>(diagonal, values, offsets, columns, splits),
    }
}

// Neither the splits nor the places of A's entries are looked at: the caller knows that there is one for each.
#[unsafe(no_mangle)]
pub extern "C" fn pierbramble_unchecked_copy_value(
    dim: u32,
    starts: &[u32],
    entries: &[u32],
    a_diagonal: &[f64],
    a_values: &[f64],
    offsets: &[u32],
    columns: &[u32],
    diagonal: &mut [f64],
    values: &mut [f64],
)
    requires { (CopyFits dim starts.now entries.now offsets.now columns.now (length a_values.now) (length values.old)) × (length a_diagonal.now ≡ length diagonal.old) }
    ensures { (diagonal.new ≡ a_diagonal.now) × (values.new ≡ copied_rows binary64 dim starts.now entries.now a_values.now offsets.now columns.now) }
{
    match dim {
        1 => copy_value::<One>(
            diagonal, values, starts, entries, a_diagonal, a_values, offsets, columns,
        ),
        2 => copy_value::<Two>(
            diagonal, values, starts, entries, a_diagonal, a_values, offsets, columns,
        ),
        _ => copy_value::<Three>(
            diagonal, values, starts, entries, a_diagonal, a_values, offsets, columns,
        ),
    }
}
