// The entry points of the solvers, on numbers and lent byte slices, with N as a number: 8 bytes to a value, 4 to an index, the low byte first.
// All work is in the crates below; here an answer becomes numbers. A library of its own, to be linked beside those of `host` and `factor_host`.
#![tactic(auto)]

pub mod timed;

ghost use Rattle.std.specs.Float.{binary64};
ghost use Rattle.gradient.specs.Answers.{solution_of, plain_run};
ghost use Rattle.preconditioned_gradient.specs.Answers.{solution_of as norms_of, preconditioned_run};
ghost use Rattle.solve_outcomes.specs.Numbers.{FinishedSolve};
ghost use Rattle.solver_bytes.specs.Lent.{LentBytes, bytes_lent, words_lent, matrix_in, bytes_left_by};
ghost use Rattle.gradient_bytes.specs.Checks.{plain_byte_checks};
ghost use Rattle.preconditioned_room.specs.Rooms.{factor_in};
ghost use Rattle.preconditioned_bytes.specs.Checks.{preconditioned_byte_checks};

use solve_outcomes::{Solved, solved_of};

// u becomes what A and the right side r solve to, in at most `limit` steps. The first words of the history become the ratios, as many as the count says.
#[unsafe(no_mangle)]
pub extern "C" fn pierbramble_conjugate_gradient(
    dim: u32,
    r: &mut [u8],
    u: &mut [u8],
    ap: &mut [u8],
    p: &mut [u8],
    tolerance: f64,
    limit: u32,
    offsets: &[u8],
    columns: &[u8],
    values: &[u8],
    diagonal: &[u8],
    history: &mut [u8],
) -> Solved
    ensures { FinishedSolve {A = LentBytes} binary64 (plain_byte_checks dim limit offsets.now columns.now values.now diagonal.now (bytes_lent r.old u.old ap.old p.old history.old))
        (solution_of binary64 tolerance (plain_run dim limit (matrix_in binary64 offsets.now columns.now values.now diagonal.now) tolerance (words_lent binary64 (bytes_lent r.old u.old ap.old p.old history.old))).history) result
        (bytes_left_by binary64 (plain_run dim limit (matrix_in binary64 offsets.now columns.now values.now diagonal.now) tolerance (words_lent binary64 (bytes_lent r.old u.old ap.old p.old history.old))) history.old)
        (bytes_lent r.old u.old ap.old p.old history.old) (bytes_lent r.new u.new ap.new p.new history.new) }
{
    solved_of(gradient_bytes::conjugate_gradient(
        dim, r, u, ap, p, tolerance, limit, offsets, columns, values, diagonal, history,
    ))
}

// x becomes what A and the right side r solve to, in at most `limit` steps, each preconditioned by the factor. The first words of the history become the norms.
#[unsafe(no_mangle)]
pub extern "C" fn pierbramble_preconditioned_conjugate_gradient(
    dim: u32,
    r: &mut [u8],
    x: &mut [u8],
    pr: &mut [u8],
    p: &mut [u8],
    tolerance: f64,
    limit: u32,
    starts: &[u8],
    entries: &[u8],
    a_values: &[u8],
    a_diagonal: &[u8],
    offsets: &[u8],
    columns: &[u8],
    splits: &[u8],
    diagonal: &[u8],
    values: &[u8],
    history: &mut [u8],
) -> Solved
    ensures { FinishedSolve {A = LentBytes} binary64 (preconditioned_byte_checks dim limit starts.now entries.now a_values.now a_diagonal.now offsets.now columns.now splits.now diagonal.now values.now (bytes_lent r.old x.old pr.old p.old history.old))
        (norms_of binary64 limit (preconditioned_run dim limit (matrix_in binary64 starts.now entries.now a_values.now a_diagonal.now) (factor_in binary64 offsets.now columns.now splits.now diagonal.now values.now) tolerance (words_lent binary64 (bytes_lent r.old x.old pr.old p.old history.old))).history) result
        (bytes_left_by binary64 (preconditioned_run dim limit (matrix_in binary64 starts.now entries.now a_values.now a_diagonal.now) (factor_in binary64 offsets.now columns.now splits.now diagonal.now values.now) tolerance (words_lent binary64 (bytes_lent r.old x.old pr.old p.old history.old))) history.old)
        (bytes_lent r.old x.old pr.old p.old history.old) (bytes_lent r.new x.new pr.new p.new history.new) }
{
    solved_of(preconditioned_bytes::preconditioned_conjugate_gradient(
        dim, r, x, pr, p, tolerance, limit, starts, entries, a_values, a_diagonal, offsets,
        columns, splits, diagonal, values, history,
    ))
}
