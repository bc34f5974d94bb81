// The plain solver on lent bytes, with N as a number: 8 bytes to a value and 4 to an index, the low byte first.
// A call whose size, limit, N or bytes are wrong answers 1, 10 or 2 and changes nothing; any other is the call of `gradient` at that N, from bytes to bytes.
#![tactic(auto)]

pub mod unchecked;

ghost use Rattle.std.specs.Prelude.{◌≡◌, ◌++◌, false, ◌||◌, ◌-◌, ◌/◌, length};
ghost use Rattle.std.specs.Float.{binary64};
ghost use Rattle.answers.specs.Numbers.{number_of};
ghost use Rattle.answers.specs.Checks.{first_of};
ghost use Rattle.patterns.specs.Checks.{too_large};
ghost use Rattle.solvers.specs.Checks.{wrong_plain, plain_lengths};
ghost use Rattle.gradient.specs.Answers.{solution_of, plain_run};
ghost use Rattle.solve_outcomes.specs.Ends.{early_checks, SolveEnds};
ghost use Rattle.solver_bytes.specs.Lent.{LentBytes, bytes_lent, words_lent, matrix_in, bytes_left_by};
ghost use Rattle.gradient_bytes.specs.Checks.{misshapen_plain, plain_byte_checks};

use answers::{Answer, Iterations, Refusal};
use matrix_bytes::check_matrix_bytes;
use patterns::is_too_large;
use solver_bytes::are_broken_vectors;
use solver_bytes::unchecked::are_wrong_vectors;
use solvers::Solution;
use unchecked::solve_in_room;

// Whether 2 applies, by the lengths of the bytes of a pattern that is not too large.
fn is_wrong(
    dim: u32,
    limit: u32,
    offsets: usize,
    columns: usize,
    values: usize,
    diagonal: usize,
    r: usize,
    u: usize,
    ap: usize,
    p: usize,
    history: usize,
) -> bool
    requires { too_large (offsets / 4) (columns / 4) ≡ false }
    ensures { result ≡ misshapen_plain dim offsets columns values diagonal r u ap p history
        || wrong_plain dim limit (offsets / 4 - 1) (columns / 4) (values / 8) (diagonal / 8) (r / 8) (u / 8) (ap / 8) (p / 8) (history / 8) }
{
    if check_matrix_bytes(dim, offsets, columns, values, diagonal).is_err() {
        return true;
    }
    if are_broken_vectors(r, u, ap, p, history) {
        return true;
    }
    let rows = offsets / 4 - 1;
    if are_wrong_vectors(dim, rows, r / 8, u / 8, ap / 8, p / 8) {
        return true;
    }
    history / 8 < limit as usize
}

// The checks by the lengths of the bytes: 1, then 10, then 2.
fn check_plain_bytes(
    dim: u32,
    limit: u32,
    offsets: usize,
    columns: usize,
    values: usize,
    diagonal: usize,
    r: usize,
    u: usize,
    ap: usize,
    p: usize,
    history: usize,
) -> Answer
    ensures { number_of result ≡ first_of (early_checks (too_large (offsets / 4) (columns / 4)) limit (misshapen_plain dim offsets columns values diagonal r u ap p history)
        ++ plain_lengths dim limit (offsets / 4) (columns / 4) (values / 8) (diagonal / 8) (r / 8) (u / 8) (ap / 8) (p / 8) (history / 8)) }
{
    if is_too_large(offsets / 4, columns / 4) {
        return Err(Refusal::Size);
    }
    if Iterations(limit as usize).out_of_range() {
        return Err(Refusal::Limit);
    }
    if is_wrong(
        dim, limit, offsets, columns, values, diagonal, r, u, ap, p, history,
    ) {
        return Err(Refusal::Shape);
    }
    Ok(())
}

// u becomes what A and the right side r solve to, in at most `limit` steps: the count of ratios, the last of them, and the verdict.
pub fn conjugate_gradient(
    dim: u32,
    r: &mut [u8],
    u: &mut [u8],
    ap: &mut [u8],
    p: &mut [u8],
    tolerance: f64,
    limit: u32,
    offsets: &[u8],
    columns: &[u8],
    values: &[u8],
    diagonal: &[u8],
    history: &mut [u8],
) -> Answer<Solution>
    ensures { SolveEnds {A = LentBytes} (plain_byte_checks dim limit offsets.now columns.now values.now diagonal.now (bytes_lent r.old u.old ap.old p.old history.old))
        (solution_of binary64 tolerance (plain_run dim limit (matrix_in binary64 offsets.now columns.now values.now diagonal.now) tolerance (words_lent binary64 (bytes_lent r.old u.old ap.old p.old history.old))).history) result
        (bytes_left_by binary64 (plain_run dim limit (matrix_in binary64 offsets.now columns.now values.now diagonal.now) tolerance (words_lent binary64 (bytes_lent r.old u.old ap.old p.old history.old))) history.old)
        (bytes_lent r.old u.old ap.old p.old history.old) (bytes_lent r.new u.new ap.new p.new history.new) }
{
    check_plain_bytes(
        dim,
        limit,
        offsets.len(),
        columns.len(),
        values.len(),
        diagonal.len(),
        r.len(),
        u.len(),
        ap.len(),
        p.len(),
        history.len(),
    )?;
    solve_in_room(
        r, u, ap, p, history, dim, tolerance, limit, offsets, columns, values, diagonal,
    )
}
