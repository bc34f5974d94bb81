// The preconditioned solver from bytes to bytes, with N as a number, in room for its words: the vectors and the history, then the factor, then the matrix.
// These functions ask that the lengths of the bytes have been checked, so that no user calls them.
ghost use Rattle.std.specs.Prelude.{◌≡◌, ◌+◌, ◌/◌, length};
ghost use Rattle.std.specs.Float.{binary64};
ghost use Rattle.solvers.specs.Method.{matrix_of};
ghost use Rattle.solvers.specs.Solvers.{factor_as};
ghost use Rattle.solvers.specs.Checks.{preconditioned_rules};
ghost use Rattle.preconditioned_gradient.specs.Answers.{solution_of, preconditioned_run};
ghost use Rattle.solve_outcomes.specs.Ends.{SolveEnds};
ghost use Rattle.wire.specs.Words.{indexes_in};
ghost use Rattle.matrix_bytes.specs.Rooms.{HeldMatrix, FilledMatrix};
ghost use Rattle.factor_bytes.specs.Rooms.{HeldFactor, FilledFactor};
ghost use Rattle.solver_bytes.specs.Lent.{LentBytes, bytes_lent, words_lent, matrix_in, bytes_left_by};
ghost use Rattle.solver_bytes.specs.Rooms.{HeldVectors, FilledVectors};
ghost use Rattle.preconditioned_room.specs.Rooms.{factor_in, PreconditionedPassed};

use answers::Answer;
use factor_bytes::unchecked::decode_factor;
use matrix_bytes::unchecked::decode_both;
use numbered_preconditioned::preconditioned_conjugate_gradient;
use pattern_bytes::unchecked::decode_pattern;
use solver_bytes::unchecked::{decode_vectors, write_back};
use solvers::Solution;

// With the words of the matrix and of the factor, in room that is lent for those of the vectors and for the numbers of the history.
fn solve_vectors(
    residual: &mut [f64],
    solution: &mut [f64],
    product: &mut [f64],
    direction: &mut [f64],
    numbers: &mut [f64],
    r: &mut [u8],
    x: &mut [u8],
    pr: &mut [u8],
    p: &mut [u8],
    history: &mut [u8],
    dim: u32,
    tolerance: f64,
    limit: u32,
    heads: &[u32],
    cells: &[u32],
    blocks: &[f64],
    pivots: &[f64],
    offs: &[u32],
    cols: &[u32],
    cuts: &[u32],
    diag: &[f64],
    vals: &[f64],
) -> Answer<Solution>
    requires { (HeldVectors dim (limit + 2) (length r.old) (length x.old) (length pr.old) (length p.old) (length history.old)) × (PreconditionedPassed dim limit (length heads.now) (length cells.now) (length blocks.now) (length pivots.now) (length offs.now) (length cols.now) (length cuts.now) (length diag.now) (length vals.now) (length r.old) (length x.old) (length pr.old) (length p.old))
        × (FilledVectors (length residual.old) (length solution.old) (length product.old) (length direction.old) (length r.old) (length x.old) (length pr.old) (length p.old)) × (length numbers.old ≡ limit + 2) }
    ensures { SolveEnds {A = LentBytes} (preconditioned_rules heads.now cells.now offs.now cols.now cuts.now) (solution_of binary64 limit (preconditioned_run dim limit (matrix_of heads.now cells.now blocks.now pivots.now) (factor_as offs.now cols.now cuts.now diag.now vals.now) tolerance (words_lent binary64 (bytes_lent r.old x.old pr.old p.old history.old))).history) result
        (bytes_left_by binary64 (preconditioned_run dim limit (matrix_of heads.now cells.now blocks.now pivots.now) (factor_as offs.now cols.now cuts.now diag.now vals.now) tolerance (words_lent binary64 (bytes_lent r.old x.old pr.old p.old history.old))) history.old)
        (bytes_lent r.old x.old pr.old p.old history.old) (bytes_lent r.new x.new pr.new p.new history.new) }
{
    decode_vectors(residual, solution, product, direction, r, x, pr, p);
    let solve = preconditioned_conjugate_gradient(
        dim, residual, solution, product, direction, tolerance, limit, heads, cells, blocks,
        pivots, offs, cols, cuts, diag, vals, numbers,
    );
    write_back(
        r, x, pr, p, history, solve, residual, solution, product, direction, numbers,
    );
    solve
}

// The same with room of its own for the vectors.
fn solve_words(
    r: &mut [u8],
    x: &mut [u8],
    pr: &mut [u8],
    p: &mut [u8],
    history: &mut [u8],
    dim: u32,
    tolerance: f64,
    limit: u32,
    heads: &[u32],
    cells: &[u32],
    blocks: &[f64],
    pivots: &[f64],
    offs: &[u32],
    cols: &[u32],
    cuts: &[u32],
    diag: &[f64],
    vals: &[f64],
) -> Answer<Solution>
    requires { (HeldVectors dim (limit + 2) (length r.old) (length x.old) (length pr.old) (length p.old) (length history.old)) × (PreconditionedPassed dim limit (length heads.now) (length cells.now) (length blocks.now) (length pivots.now) (length offs.now) (length cols.now) (length cuts.now) (length diag.now) (length vals.now) (length r.old) (length x.old) (length pr.old) (length p.old)) }
    ensures { SolveEnds {A = LentBytes} (preconditioned_rules heads.now cells.now offs.now cols.now cuts.now) (solution_of binary64 limit (preconditioned_run dim limit (matrix_of heads.now cells.now blocks.now pivots.now) (factor_as offs.now cols.now cuts.now diag.now vals.now) tolerance (words_lent binary64 (bytes_lent r.old x.old pr.old p.old history.old))).history) result
        (bytes_left_by binary64 (preconditioned_run dim limit (matrix_of heads.now cells.now blocks.now pivots.now) (factor_as offs.now cols.now cuts.now diag.now vals.now) tolerance (words_lent binary64 (bytes_lent r.old x.old pr.old p.old history.old))) history.old)
        (bytes_lent r.old x.old pr.old p.old history.old) (bytes_lent r.new x.new pr.new p.new history.new) }
{
    let mut residual = [0.0; 12288];
    let mut solution = [0.0; 12288];
    let mut product = [0.0; 12288];
    let mut direction = [0.0; 12288];
    let mut numbers = [0.0; 4098];
    let count = limit as usize + 2;
    solve_vectors(
        &mut residual[..r.len() / 8],
        &mut solution[..x.len() / 8],
        &mut product[..pr.len() / 8],
        &mut direction[..p.len() / 8],
        &mut numbers[..count],
        r,
        x,
        pr,
        p,
        history,
        dim,
        tolerance,
        limit,
        heads,
        cells,
        blocks,
        pivots,
        offs,
        cols,
        cuts,
        diag,
        vals,
    )
}

// From the bytes of the factor, in room that is lent for its words.
fn solve_factor(
    offs: &mut [u32],
    cols: &mut [u32],
    cuts: &mut [u32],
    diag: &mut [f64],
    vals: &mut [f64],
    r: &mut [u8],
    x: &mut [u8],
    pr: &mut [u8],
    p: &mut [u8],
    history: &mut [u8],
    dim: u32,
    tolerance: f64,
    limit: u32,
    heads: &[u32],
    cells: &[u32],
    blocks: &[f64],
    pivots: &[f64],
    offsets: &[u8],
    columns: &[u8],
    splits: &[u8],
    diagonal: &[u8],
    values: &[u8],
) -> Answer<Solution>
    requires { (FilledFactor dim (length offs.old) (length cols.old) (length cuts.old) (length diag.old) (length vals.old) (length offsets.now) (length columns.now) (length splits.now) (length diagonal.now) (length values.now))
        × (HeldVectors dim (limit + 2) (length r.old) (length x.old) (length pr.old) (length p.old) (length history.old)) × (PreconditionedPassed dim limit (length heads.now) (length cells.now) (length blocks.now) (length pivots.now) (length offs.old) (length cols.old) (length cuts.old) (length diag.old) (length vals.old) (length r.old) (length x.old) (length pr.old) (length p.old)) }
    ensures { SolveEnds {A = LentBytes} (preconditioned_rules heads.now cells.now (indexes_in offsets.now) (indexes_in columns.now) (indexes_in splits.now)) (solution_of binary64 limit (preconditioned_run dim limit (matrix_of heads.now cells.now blocks.now pivots.now) (factor_in binary64 offsets.now columns.now splits.now diagonal.now values.now) tolerance (words_lent binary64 (bytes_lent r.old x.old pr.old p.old history.old))).history) result
        (bytes_left_by binary64 (preconditioned_run dim limit (matrix_of heads.now cells.now blocks.now pivots.now) (factor_in binary64 offsets.now columns.now splits.now diagonal.now values.now) tolerance (words_lent binary64 (bytes_lent r.old x.old pr.old p.old history.old))) history.old)
        (bytes_lent r.old x.old pr.old p.old history.old) (bytes_lent r.new x.new pr.new p.new history.new) }
{
    decode_factor(
        offs, cols, cuts, diag, vals, dim, offsets, columns, splits, diagonal, values,
    );
    solve_words(
        r, x, pr, p, history, dim, tolerance, limit, heads, cells, blocks, pivots, offs, cols,
        cuts, diag, vals,
    )
}

// The same with room of its own for the factor.
fn solve_bytes(
    r: &mut [u8],
    x: &mut [u8],
    pr: &mut [u8],
    p: &mut [u8],
    history: &mut [u8],
    dim: u32,
    tolerance: f64,
    limit: u32,
    heads: &[u32],
    cells: &[u32],
    blocks: &[f64],
    pivots: &[f64],
    offsets: &[u8],
    columns: &[u8],
    splits: &[u8],
    diagonal: &[u8],
    values: &[u8],
) -> Answer<Solution>
    requires { (HeldFactor 4096 65535 dim (length offsets.now) (length columns.now) (length splits.now) (length diagonal.now) (length values.now))
        × (HeldVectors dim (limit + 2) (length r.old) (length x.old) (length pr.old) (length p.old) (length history.old)) × (PreconditionedPassed dim limit (length heads.now) (length cells.now) (length blocks.now) (length pivots.now) (length offsets.now / 4) (length columns.now / 4) (length splits.now / 4) (length diagonal.now / 8) (length values.now / 8) (length r.old) (length x.old) (length pr.old) (length p.old)) }
    ensures { SolveEnds {A = LentBytes} (preconditioned_rules heads.now cells.now (indexes_in offsets.now) (indexes_in columns.now) (indexes_in splits.now)) (solution_of binary64 limit (preconditioned_run dim limit (matrix_of heads.now cells.now blocks.now pivots.now) (factor_in binary64 offsets.now columns.now splits.now diagonal.now values.now) tolerance (words_lent binary64 (bytes_lent r.old x.old pr.old p.old history.old))).history) result
        (bytes_left_by binary64 (preconditioned_run dim limit (matrix_of heads.now cells.now blocks.now pivots.now) (factor_in binary64 offsets.now columns.now splits.now diagonal.now values.now) tolerance (words_lent binary64 (bytes_lent r.old x.old pr.old p.old history.old))) history.old)
        (bytes_lent r.old x.old pr.old p.old history.old) (bytes_lent r.new x.new pr.new p.new history.new) }
{
    let mut offs = [0u32; 4097];
    let mut cols = [0u32; 65535];
    let mut cuts = [0u32; 4096];
    let mut diag = [0.0; 36864];
    let mut vals = [0.0; 589815];
    solve_factor(
        &mut offs[..offsets.len() / 4],
        &mut cols[..columns.len() / 4],
        &mut cuts[..splits.len() / 4],
        &mut diag[..diagonal.len() / 8],
        &mut vals[..values.len() / 8],
        r,
        x,
        pr,
        p,
        history,
        dim,
        tolerance,
        limit,
        heads,
        cells,
        blocks,
        pivots,
        offsets,
        columns,
        splits,
        diagonal,
        values,
    )
}

// From the bytes of the matrix too, in room that is lent for its words.
fn solve_in(
    heads: &mut [u32],
    cells: &mut [u32],
    blocks: &mut [f64],
    pivots: &mut [f64],
    r: &mut [u8],
    x: &mut [u8],
    pr: &mut [u8],
    p: &mut [u8],
    history: &mut [u8],
    dim: u32,
    tolerance: f64,
    limit: u32,
    starts: &[u8],
    entries: &[u8],
    a_values: &[u8],
    a_diagonal: &[u8],
    offsets: &[u8],
    columns: &[u8],
    splits: &[u8],
    diagonal: &[u8],
    values: &[u8],
) -> Answer<Solution>
    requires { (FilledMatrix dim (length heads.old) (length cells.old) (length blocks.old) (length pivots.old) (length starts.now) (length entries.now) (length a_values.now) (length a_diagonal.now))
        × (HeldFactor 4096 65535 dim (length offsets.now) (length columns.now) (length splits.now) (length diagonal.now) (length values.now))
        × (HeldVectors dim (limit + 2) (length r.old) (length x.old) (length pr.old) (length p.old) (length history.old)) × (PreconditionedPassed dim limit (length heads.old) (length cells.old) (length blocks.old) (length pivots.old) (length offsets.now / 4) (length columns.now / 4) (length splits.now / 4) (length diagonal.now / 8) (length values.now / 8) (length r.old) (length x.old) (length pr.old) (length p.old)) }
    ensures { SolveEnds {A = LentBytes} (preconditioned_rules (indexes_in starts.now) (indexes_in entries.now) (indexes_in offsets.now) (indexes_in columns.now) (indexes_in splits.now)) (solution_of binary64 limit (preconditioned_run dim limit (matrix_in binary64 starts.now entries.now a_values.now a_diagonal.now) (factor_in binary64 offsets.now columns.now splits.now diagonal.now values.now) tolerance (words_lent binary64 (bytes_lent r.old x.old pr.old p.old history.old))).history) result
        (bytes_left_by binary64 (preconditioned_run dim limit (matrix_in binary64 starts.now entries.now a_values.now a_diagonal.now) (factor_in binary64 offsets.now columns.now splits.now diagonal.now values.now) tolerance (words_lent binary64 (bytes_lent r.old x.old pr.old p.old history.old))) history.old)
        (bytes_lent r.old x.old pr.old p.old history.old) (bytes_lent r.new x.new pr.new p.new history.new) }
{
    decode_pattern(heads, cells, starts, entries);
    decode_both(blocks, pivots, a_values, a_diagonal);
    solve_bytes(
        r, x, pr, p, history, dim, tolerance, limit, heads, cells, blocks, pivots, offsets,
        columns, splits, diagonal, values,
    )
}

// The same with room of its own for the matrix.
pub fn solve_in_room(
    r: &mut [u8],
    x: &mut [u8],
    pr: &mut [u8],
    p: &mut [u8],
    history: &mut [u8],
    dim: u32,
    tolerance: f64,
    limit: u32,
    starts: &[u8],
    entries: &[u8],
    a_values: &[u8],
    a_diagonal: &[u8],
    offsets: &[u8],
    columns: &[u8],
    splits: &[u8],
    diagonal: &[u8],
    values: &[u8],
) -> Answer<Solution>
    requires { (HeldMatrix 4096 65535 dim (length starts.now) (length entries.now) (length a_values.now) (length a_diagonal.now))
        × (HeldFactor 4096 65535 dim (length offsets.now) (length columns.now) (length splits.now) (length diagonal.now) (length values.now))
        × (HeldVectors dim (limit + 2) (length r.old) (length x.old) (length pr.old) (length p.old) (length history.old)) × (PreconditionedPassed dim limit (length starts.now / 4) (length entries.now / 4) (length a_values.now / 8) (length a_diagonal.now / 8) (length offsets.now / 4) (length columns.now / 4) (length splits.now / 4) (length diagonal.now / 8) (length values.now / 8) (length r.old) (length x.old) (length pr.old) (length p.old)) }
    ensures { SolveEnds {A = LentBytes} (preconditioned_rules (indexes_in starts.now) (indexes_in entries.now) (indexes_in offsets.now) (indexes_in columns.now) (indexes_in splits.now)) (solution_of binary64 limit (preconditioned_run dim limit (matrix_in binary64 starts.now entries.now a_values.now a_diagonal.now) (factor_in binary64 offsets.now columns.now splits.now diagonal.now values.now) tolerance (words_lent binary64 (bytes_lent r.old x.old pr.old p.old history.old))).history) result
        (bytes_left_by binary64 (preconditioned_run dim limit (matrix_in binary64 starts.now entries.now a_values.now a_diagonal.now) (factor_in binary64 offsets.now columns.now splits.now diagonal.now values.now) tolerance (words_lent binary64 (bytes_lent r.old x.old pr.old p.old history.old))) history.old)
        (bytes_lent r.old x.old pr.old p.old history.old) (bytes_lent r.new x.new pr.new p.new history.new) }
{
    let mut heads = [0u32; 4097];
    let mut cells = [0u32; 65535];
    let mut blocks = [0.0; 589815];
    let mut pivots = [0.0; 36864];
    solve_in(
        &mut heads[..starts.len() / 4],
        &mut cells[..entries.len() / 4],
        &mut blocks[..a_values.len() / 8],
        &mut pivots[..a_diagonal.len() / 8],
        r,
        x,
        pr,
        p,
        history,
        dim,
        tolerance,
        limit,
        starts,
        entries,
        a_values,
        a_diagonal,
        offsets,
        columns,
        splits,
        diagonal,
        values,
    )
}
