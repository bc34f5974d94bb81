// The checks of the preconditioned solver, one after the other.
// Some of these functions ask that the lengths are right, so that no user calls them.
ghost use Rattle.std.specs.Prelude.{◌≡◌, false, ◌≤◌, length};
ghost use Rattle.answers.specs.Checks.{first_of};
ghost use Rattle.answers.specs.Numbers.{number_of};
ghost use Rattle.patterns.specs.Checks.{too_large};
ghost use Rattle.patterns.specs.Pattern.{rows_of};
ghost use Rattle.solvers.specs.Checks.{wrong_preconditioned, preconditioned_lengths, preconditioned_rules, preconditioned_checks};

use advancing::unchecked::are_wrong_vectors;
use answers::{Answer, Iterations, Refusal};
use blocks::Size;
use factor_check::unchecked::{check_rows, is_wrong_factor};
use patterns::is_too_large;
use patterns::unchecked::is_valid_pattern;

// Whether a slice has the wrong length, or the patterns differ in n. A is asked as a factor is that has a split to each row.
fn is_misshapen<S: Size>(
    limit: usize,
    rows: usize,
    entries: usize,
    a_values: usize,
    a_diagonal: usize,
    factor_rows: usize,
    columns: usize,
    splits: usize,
    diagonal: usize,
    values: usize,
    r: usize,
    x: usize,
    pr: usize,
    p: usize,
    history: usize,
) -> bool
    requires { (limit ≤ 4096) × (rows ≤ 4096) × (entries ≤ 65535) × (factor_rows ≤ 4096) × (columns ≤ 65535) }
    ensures { result ≡ wrong_preconditioned S.DIM limit rows entries a_values a_diagonal factor_rows columns splits diagonal values r x pr p history }
{
    if is_wrong_factor::<S>(rows, entries, rows, a_diagonal, a_values) {
        return true;
    }
    if factor_rows != rows {
        return true;
    }
    if is_wrong_factor::<S>(factor_rows, columns, splits, diagonal, values) {
        return true;
    }
    if are_wrong_vectors::<S>(rows, r, x, pr, p) {
        return true;
    }
    history < limit + 2
}

// The checks by the lengths: 1 of both patterns, then 10, then 2.
fn check_lengths<S: Size>(
    limit: usize,
    starts: usize,
    entries: usize,
    a_values: usize,
    a_diagonal: usize,
    offsets: usize,
    columns: usize,
    splits: usize,
    diagonal: usize,
    values: usize,
    r: usize,
    x: usize,
    pr: usize,
    p: usize,
    history: usize,
) -> Answer
    ensures { number_of result ≡ first_of (preconditioned_lengths S.DIM limit starts entries a_values a_diagonal offsets columns splits diagonal values r x pr p history) }
{
    if is_too_large(starts, entries) {
        return Err(Refusal::Size);
    }
    if is_too_large(offsets, columns) {
        return Err(Refusal::Size);
    }
    if Iterations(limit).out_of_range() {
        return Err(Refusal::Limit);
    }
    let rows = starts - 1;
    let factor_rows = offsets - 1;
    if is_misshapen::<S>(
        limit,
        rows,
        entries,
        a_values,
        a_diagonal,
        factor_rows,
        columns,
        splits,
        diagonal,
        values,
        r,
        x,
        pr,
        p,
        history,
    ) {
        return Err(Refusal::Shape);
    }
    Ok(())
}

// The checks by what the patterns hold: 3 of both, then 11 of the factor's.
fn check_rules(
    starts: &[u32],
    entries: &[u32],
    offsets: &[u32],
    columns: &[u32],
    splits: &[u32],
) -> Answer
    requires { (too_large (length starts.now) (length entries.now) ≡ false) × (too_large (length offsets.now) (length columns.now) ≡ false) × (length splits.now ≡ rows_of offsets.now) }
    ensures { number_of result ≡ first_of (preconditioned_rules starts.now entries.now offsets.now columns.now splits.now) }
{
    if !is_valid_pattern(starts, entries) {
        return Err(Refusal::Pattern);
    }
    check_rows(offsets, columns, splits)
}

// All checks.
pub fn check_preconditioned<S: Size>(
    limit: usize,
    starts: &[u32],
    entries: &[u32],
    a_values: usize,
    a_diagonal: usize,
    offsets: &[u32],
    columns: &[u32],
    splits: &[u32],
    diagonal: usize,
    values: usize,
    r: usize,
    x: usize,
    pr: usize,
    p: usize,
    history: usize,
) -> Answer
    ensures { number_of result ≡ first_of (preconditioned_checks S.DIM limit starts.now entries.now a_values a_diagonal offsets.now columns.now splits.now diagonal values r x pr p history) }
{
    check_lengths::<S>(
        limit,
        starts.len(),
        entries.len(),
        a_values,
        a_diagonal,
        offsets.len(),
        columns.len(),
        splits.len(),
        diagonal,
        values,
        r,
        x,
        pr,
        p,
        history,
    )?;
    check_rules(starts, entries, offsets, columns, splits)
}
