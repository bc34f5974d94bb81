// The preconditioned solver on lent bytes, with N as a number: 8 bytes to a value and 4 to an index, the low byte first.
// A call whose sizes, limit, N or bytes are wrong answers 1, 10 or 2 and changes nothing; any other is the call of `preconditioned_gradient` at that N, from bytes to bytes.
#![tactic(auto)]

ghost use Rattle.std.specs.Prelude.{◌≡◌, ◌++◌, false, ◌||◌, ◌-◌, ◌/◌};
ghost use Rattle.std.specs.Float.{binary64};
ghost use Rattle.answers.specs.Numbers.{number_of};
ghost use Rattle.answers.specs.Checks.{first_of};
ghost use Rattle.patterns.specs.Checks.{too_large};
ghost use Rattle.solvers.specs.Checks.{wrong_preconditioned, preconditioned_lengths};
ghost use Rattle.preconditioned_gradient.specs.Answers.{solution_of, preconditioned_run};
ghost use Rattle.solve_outcomes.specs.Ends.{early_checks, SolveEnds};
ghost use Rattle.solver_bytes.specs.Lent.{LentBytes, bytes_lent, words_lent, matrix_in, bytes_left_by};
ghost use Rattle.preconditioned_room.specs.Rooms.{factor_in};
ghost use Rattle.preconditioned_bytes.specs.Checks.{misshapen_preconditioned, preconditioned_byte_checks};

use answers::{Answer, Iterations, Refusal};
use factor_bytes::check_factor_bytes;
use matrix_bytes::check_matrix_bytes;
use numbered_preconditioned::is_either_too_large;
use preconditioned_room::unchecked::solve_in_room;
use solver_bytes::are_broken_vectors;
use solver_bytes::unchecked::are_wrong_vectors;
use solvers::Solution;

// Whether 2 applies, by the lengths of the bytes of patterns that are not too large.
fn is_wrong(
    dim: u32,
    limit: u32,
    starts: usize,
    entries: usize,
    a_values: usize,
    a_diagonal: usize,
    offsets: usize,
    columns: usize,
    splits: usize,
    diagonal: usize,
    values: usize,
    r: usize,
    x: usize,
    pr: usize,
    p: usize,
    history: usize,
) -> bool
    requires { (too_large (starts / 4) (entries / 4) ≡ false) × (too_large (offsets / 4) (columns / 4) ≡ false) }
    ensures { result ≡ misshapen_preconditioned dim starts entries a_values a_diagonal offsets columns splits diagonal values r x pr p history
        || wrong_preconditioned dim limit (starts / 4 - 1) (entries / 4) (a_values / 8) (a_diagonal / 8) (offsets / 4 - 1) (columns / 4) (splits / 4) (diagonal / 8) (values / 8) (r / 8) (x / 8) (pr / 8) (p / 8) (history / 8) }
{
    if check_matrix_bytes(dim, starts, entries, a_values, a_diagonal).is_err() {
        return true;
    }
    let torn = are_broken_vectors(r, x, pr, p, history);
    if check_factor_bytes(dim, offsets, columns, splits, diagonal, values, torn).is_err() {
        return true;
    }
    let rows = starts / 4 - 1;
    if offsets / 4 - 1 != rows {
        return true;
    }
    if are_wrong_vectors(dim, rows, r / 8, x / 8, pr / 8, p / 8) {
        return true;
    }
    history / 8 < limit as usize + 2
}

// The checks by the lengths of the bytes: 1, then 10, then 2.
fn check_preconditioned_bytes(
    dim: u32,
    limit: u32,
    starts: usize,
    entries: usize,
    a_values: usize,
    a_diagonal: usize,
    offsets: usize,
    columns: usize,
    splits: usize,
    diagonal: usize,
    values: usize,
    r: usize,
    x: usize,
    pr: usize,
    p: usize,
    history: usize,
) -> Answer
    ensures { number_of result ≡ first_of (early_checks (too_large (starts / 4) (entries / 4) || too_large (offsets / 4) (columns / 4)) limit (misshapen_preconditioned dim starts entries a_values a_diagonal offsets columns splits diagonal values r x pr p history)
        ++ preconditioned_lengths dim limit (starts / 4) (entries / 4) (a_values / 8) (a_diagonal / 8) (offsets / 4) (columns / 4) (splits / 4) (diagonal / 8) (values / 8) (r / 8) (x / 8) (pr / 8) (p / 8) (history / 8)) }
{
    if is_either_too_large(starts / 4, entries / 4, offsets / 4, columns / 4) {
        return Err(Refusal::Size);
    }
    if Iterations(limit as usize).out_of_range() {
        return Err(Refusal::Limit);
    }
    if is_wrong(
        dim, limit, starts, entries, a_values, a_diagonal, offsets, columns, splits, diagonal,
        values, r, x, pr, p, history,
    ) {
        return Err(Refusal::Shape);
    }
    Ok(())
}

// x becomes what A and the right side r solve to, in at most `limit` steps, each preconditioned by the factor: the count of norms, the last of them, and the verdict.
pub fn preconditioned_conjugate_gradient(
    dim: u32,
    r: &mut [u8],
    x: &mut [u8],
    pr: &mut [u8],
    p: &mut [u8],
    tolerance: f64,
    limit: u32,
    starts: &[u8],
    entries: &[u8],
    a_values: &[u8],
    a_diagonal: &[u8],
    offsets: &[u8],
    columns: &[u8],
    splits: &[u8],
    diagonal: &[u8],
    values: &[u8],
    history: &mut [u8],
) -> Answer<Solution>
    ensures { SolveEnds {A = LentBytes} (preconditioned_byte_checks dim limit starts.now entries.now a_values.now a_diagonal.now offsets.now columns.now splits.now diagonal.now values.now (bytes_lent r.old x.old pr.old p.old history.old))
        (solution_of binary64 limit (preconditioned_run dim limit (matrix_in binary64 starts.now entries.now a_values.now a_diagonal.now) (factor_in binary64 offsets.now columns.now splits.now diagonal.now values.now) tolerance (words_lent binary64 (bytes_lent r.old x.old pr.old p.old history.old))).history) result
        (bytes_left_by binary64 (preconditioned_run dim limit (matrix_in binary64 starts.now entries.now a_values.now a_diagonal.now) (factor_in binary64 offsets.now columns.now splits.now diagonal.now values.now) tolerance (words_lent binary64 (bytes_lent r.old x.old pr.old p.old history.old))) history.old)
        (bytes_lent r.old x.old pr.old p.old history.old) (bytes_lent r.new x.new pr.new p.new history.new) }
{
    check_preconditioned_bytes(
        dim,
        limit,
        starts.len(),
        entries.len(),
        a_values.len(),
        a_diagonal.len(),
        offsets.len(),
        columns.len(),
        splits.len(),
        diagonal.len(),
        values.len(),
        r.len(),
        x.len(),
        pr.len(),
        p.len(),
        history.len(),
    )?;
    solve_in_room(
        r, x, pr, p, history, dim, tolerance, limit, starts, entries, a_values, a_diagonal,
        offsets, columns, splits, diagonal, values,
    )
}
