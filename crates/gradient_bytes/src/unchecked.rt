// The plain solver from bytes to bytes, with N as a number, in room for its words: first the vectors and the history, then the matrix.
// These functions ask that the lengths of the bytes have been checked, so that no user calls them.
ghost use Rattle.std.specs.Prelude.{◌≡◌, ◌/◌, length};
ghost use Rattle.std.specs.Float.{binary64};
ghost use Rattle.solvers.specs.Method.{matrix_of};
ghost use Rattle.gradient.specs.Answers.{solution_of, plain_run};
ghost use Rattle.solve_outcomes.specs.Ends.{SolveEnds};
ghost use Rattle.wire.specs.Words.{indexes_in};
ghost use Rattle.matrix_bytes.specs.Rooms.{HeldMatrix, FilledMatrix};
ghost use Rattle.solver_bytes.specs.Lent.{LentBytes, bytes_lent, words_lent, matrix_in, bytes_left_by};
ghost use Rattle.solver_bytes.specs.Rooms.{HeldVectors, FilledVectors};
ghost use Rattle.gradient_bytes.specs.Rooms.{PlainPassed, pattern_rule};

use answers::Answer;
use matrix_bytes::unchecked::decode_both;
use numbered_gradient::conjugate_gradient;
use pattern_bytes::unchecked::decode_pattern;
use solver_bytes::unchecked::{decode_vectors, write_back};
use solvers::Solution;

// With the words of the matrix, in room that is lent for those of the vectors and for the numbers of the history.
fn solve_vectors(
    residual: &mut [f64],
    solution: &mut [f64],
    product: &mut [f64],
    direction: &mut [f64],
    numbers: &mut [f64],
    r: &mut [u8],
    u: &mut [u8],
    ap: &mut [u8],
    p: &mut [u8],
    history: &mut [u8],
    dim: u32,
    tolerance: f64,
    limit: u32,
    offs: &[u32],
    cols: &[u32],
    vals: &[f64],
    diag: &[f64],
) -> Answer<Solution>
    requires { (HeldVectors dim limit (length r.old) (length u.old) (length ap.old) (length p.old) (length history.old)) × (PlainPassed dim limit (length offs.now) (length cols.now) (length vals.now) (length diag.now) (length r.old) (length u.old) (length ap.old) (length p.old))
        × (FilledVectors (length residual.old) (length solution.old) (length product.old) (length direction.old) (length r.old) (length u.old) (length ap.old) (length p.old)) × (length numbers.old ≡ limit) }
    ensures { SolveEnds {A = LentBytes} (pattern_rule offs.now cols.now) (solution_of binary64 tolerance (plain_run dim limit (matrix_of offs.now cols.now vals.now diag.now) tolerance (words_lent binary64 (bytes_lent r.old u.old ap.old p.old history.old))).history) result
        (bytes_left_by binary64 (plain_run dim limit (matrix_of offs.now cols.now vals.now diag.now) tolerance (words_lent binary64 (bytes_lent r.old u.old ap.old p.old history.old))) history.old)
        (bytes_lent r.old u.old ap.old p.old history.old) (bytes_lent r.new u.new ap.new p.new history.new) }
{
    decode_vectors(residual, solution, product, direction, r, u, ap, p);
    let solve = conjugate_gradient(
        dim, residual, solution, product, direction, tolerance, limit, offs, cols, vals, diag,
        numbers,
    );
    write_back(
        r, u, ap, p, history, solve, residual, solution, product, direction, numbers,
    );
    solve
}

// The same with room of its own for the vectors.
fn solve_words(
    r: &mut [u8],
    u: &mut [u8],
    ap: &mut [u8],
    p: &mut [u8],
    history: &mut [u8],
    dim: u32,
    tolerance: f64,
    limit: u32,
    offs: &[u32],
    cols: &[u32],
    vals: &[f64],
    diag: &[f64],
) -> Answer<Solution>
    requires { (HeldVectors dim limit (length r.old) (length u.old) (length ap.old) (length p.old) (length history.old)) × (PlainPassed dim limit (length offs.now) (length cols.now) (length vals.now) (length diag.now) (length r.old) (length u.old) (length ap.old) (length p.old)) }
    ensures { SolveEnds {A = LentBytes} (pattern_rule offs.now cols.now) (solution_of binary64 tolerance (plain_run dim limit (matrix_of offs.now cols.now vals.now diag.now) tolerance (words_lent binary64 (bytes_lent r.old u.old ap.old p.old history.old))).history) result
        (bytes_left_by binary64 (plain_run dim limit (matrix_of offs.now cols.now vals.now diag.now) tolerance (words_lent binary64 (bytes_lent r.old u.old ap.old p.old history.old))) history.old)
        (bytes_lent r.old u.old ap.old p.old history.old) (bytes_lent r.new u.new ap.new p.new history.new) }
{
    let mut residual = [0.0; 12288];
    let mut solution = [0.0; 12288];
    let mut product = [0.0; 12288];
    let mut direction = [0.0; 12288];
    let mut numbers = [0.0; 4098];
    solve_vectors(
        &mut residual[..r.len() / 8],
        &mut solution[..u.len() / 8],
        &mut product[..ap.len() / 8],
        &mut direction[..p.len() / 8],
        &mut numbers[..limit as usize],
        r,
        u,
        ap,
        p,
        history,
        dim,
        tolerance,
        limit,
        offs,
        cols,
        vals,
        diag,
    )
}

// From the bytes of the matrix, in room that is lent for its words.
fn solve_in(
    offs: &mut [u32],
    cols: &mut [u32],
    vals: &mut [f64],
    diag: &mut [f64],
    r: &mut [u8],
    u: &mut [u8],
    ap: &mut [u8],
    p: &mut [u8],
    history: &mut [u8],
    dim: u32,
    tolerance: f64,
    limit: u32,
    offsets: &[u8],
    columns: &[u8],
    values: &[u8],
    diagonal: &[u8],
) -> Answer<Solution>
    requires { (FilledMatrix dim (length offs.old) (length cols.old) (length vals.old) (length diag.old) (length offsets.now) (length columns.now) (length values.now) (length diagonal.now))
        × (HeldVectors dim limit (length r.old) (length u.old) (length ap.old) (length p.old) (length history.old)) × (PlainPassed dim limit (length offs.old) (length cols.old) (length vals.old) (length diag.old) (length r.old) (length u.old) (length ap.old) (length p.old)) }
    ensures { SolveEnds {A = LentBytes} (pattern_rule (indexes_in offsets.now) (indexes_in columns.now)) (solution_of binary64 tolerance (plain_run dim limit (matrix_in binary64 offsets.now columns.now values.now diagonal.now) tolerance (words_lent binary64 (bytes_lent r.old u.old ap.old p.old history.old))).history) result
        (bytes_left_by binary64 (plain_run dim limit (matrix_in binary64 offsets.now columns.now values.now diagonal.now) tolerance (words_lent binary64 (bytes_lent r.old u.old ap.old p.old history.old))) history.old)
        (bytes_lent r.old u.old ap.old p.old history.old) (bytes_lent r.new u.new ap.new p.new history.new) }
{
    decode_pattern(offs, cols, offsets, columns);
    decode_both(vals, diag, values, diagonal);
    solve_words(
        r, u, ap, p, history, dim, tolerance, limit, offs, cols, vals, diag,
    )
}

// The same with room of its own for the matrix.
pub fn solve_in_room(
    r: &mut [u8],
    u: &mut [u8],
    ap: &mut [u8],
    p: &mut [u8],
    history: &mut [u8],
    dim: u32,
    tolerance: f64,
    limit: u32,
    offsets: &[u8],
    columns: &[u8],
    values: &[u8],
    diagonal: &[u8],
) -> Answer<Solution>
    requires { (HeldMatrix 4096 65535 dim (length offsets.now) (length columns.now) (length values.now) (length diagonal.now))
        × (HeldVectors dim limit (length r.old) (length u.old) (length ap.old) (length p.old) (length history.old)) × (PlainPassed dim limit (length offsets.now / 4) (length columns.now / 4) (length values.now / 8) (length diagonal.now / 8) (length r.old) (length u.old) (length ap.old) (length p.old)) }
    ensures { SolveEnds {A = LentBytes} (pattern_rule (indexes_in offsets.now) (indexes_in columns.now)) (solution_of binary64 tolerance (plain_run dim limit (matrix_in binary64 offsets.now columns.now values.now diagonal.now) tolerance (words_lent binary64 (bytes_lent r.old u.old ap.old p.old history.old))).history) result
        (bytes_left_by binary64 (plain_run dim limit (matrix_in binary64 offsets.now columns.now values.now diagonal.now) tolerance (words_lent binary64 (bytes_lent r.old u.old ap.old p.old history.old))) history.old)
        (bytes_lent r.old u.old ap.old p.old history.old) (bytes_lent r.new u.new ap.new p.new history.new) }
{
    let mut offs = [0u32; 4097];
    let mut cols = [0u32; 65535];
    let mut vals = [0.0; 589815];
    let mut diag = [0.0; 36864];
    solve_in(
        &mut offs[..offsets.len() / 4],
        &mut cols[..columns.len() / 4],
        &mut vals[..values.len() / 8],
        &mut diag[..diagonal.len() / 8],
        r,
        u,
        ap,
        p,
        history,
        dim,
        tolerance,
        limit,
        offsets,
        columns,
        values,
        diagonal,
    )
}
