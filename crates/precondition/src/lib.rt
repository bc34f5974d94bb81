// The preconditioner's solve: document 01's `solve_preconditioning_vec`, each call checked, at each size.
// A factor is lent as offsets, columns, splits, the values of its diagonal and those of its entries. A call that refuses changes nothing.
#![tactic(auto)]

pub mod unchecked;

ghost use Rattle.std.specs.Prelude.{length};
ghost use Rattle.std.specs.Float.{binary64};
ghost use Rattle.answers.specs.Promise.{Ends};
ghost use Rattle.factors.specs.Solve.{solve};
ghost use Rattle.precondition.specs.Checks.{solve_checks};

use answers::Answer;
use blocks::Size;
use unchecked::check_solve;

// vec becomes what the factor solves it to.
pub fn solve_preconditioning_vec<S: Size>(
    vec: &mut [f64],
    offsets: &[u32],
    columns: &[u32],
    splits: &[u32],
    diagonal: &[f64],
    values: &[f64],
) -> Answer
    ensures { Ends (solve_checks S.DIM offsets.now columns.now splits.now (length diagonal.now) (length values.now) (length vec.old)) result
        (solve binary64 S.DIM (record { offsets = offsets.now; columns = columns.now; splits = splits.now }) (record { diagonal = diagonal.now; values = values.now }) vec.old)
        vec.old vec.new }
{
    check_solve::<S>(
        offsets,
        columns,
        splits,
        diagonal.len(),
        values.len(),
        vec.len(),
    )?;
    solving::unchecked::solve_preconditioning_vec::<S>(
        vec, offsets, columns, splits, diagonal, values,
    );
    Ok(())
}
