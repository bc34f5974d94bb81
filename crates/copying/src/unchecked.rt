// The checks of the calls, at each size: by the lengths, then by what the patterns hold.
// Some of these functions ask that the lengths are right, so that no user calls them.
ghost use Rattle.std.specs.Prelude.{◌≡◌, true, false, ◌≤◌, length};
ghost use Rattle.answers.specs.Checks.{first_of};
ghost use Rattle.answers.specs.Numbers.{number_of};
ghost use Rattle.patterns.specs.Pattern.{rows_of, valid_pattern};
ghost use Rattle.patterns.specs.Checks.{too_large};
ghost use Rattle.matrix.specs.Checks.{wrong_values};
ghost use Rattle.factors.specs.Copy.{all_have_places};
ghost use Rattle.copying.specs.Checks.{copy_lengths, copy_rules, copy_checks};

use answers::{Answer, Refusal};
use blocks::{Size, block_size};
use copy_check::unchecked::{has_all_places, is_surely_placed};
use factor_check::unchecked::check_rows;
use patterns::is_too_large;
use patterns::unchecked::is_valid_pattern;

// Whether entry values are not a block to each entry, or diagonal values not a block to each row.
fn is_wrong_matrix<S: Size>(rows: usize, entries: usize, values: usize, diagonal: usize) -> bool
    requires { (rows ≤ 4096) × (entries ≤ 65535) }
    ensures { result ≡ wrong_values S.DIM rows entries values diagonal }
{
    let size = block_size::<S>();
    if values != size * entries {
        return true;
    }
    diagonal != size * rows
}

// The checks by the lengths: 1, then 2.
fn check_lengths<S: Size>(
    starts: usize,
    entries: usize,
    a_diagonal: usize,
    a_values: usize,
    offsets: usize,
    columns: usize,
    splits: usize,
    diagonal: usize,
    values: usize,
) -> Answer
    ensures { number_of result ≡ first_of (copy_lengths S.DIM starts entries a_diagonal a_values offsets columns splits diagonal values) }
{
    if is_too_large(starts, entries) {
        return Err(Refusal::Size);
    }
    if is_too_large(offsets, columns) {
        return Err(Refusal::Size);
    }
    let rows = starts - 1;
    let factor_rows = offsets - 1;
    if factor_rows != rows {
        return Err(Refusal::Shape);
    }
    if is_wrong_matrix::<S>(rows, entries, a_values, a_diagonal) {
        return Err(Refusal::Shape);
    }
    if is_wrong_matrix::<S>(factor_rows, columns, values, diagonal) {
        return Err(Refusal::Shape);
    }
    if splits != factor_rows {
        return Err(Refusal::Shape);
    }
    Ok(())
}

// Whether the quick way finds A right, where the factor is.
fn is_surely_right(
    factor_is_right: bool,
    starts: &[u32],
    entries: &[u32],
    offsets: &[u32],
    columns: &[u32],
) -> bool
    requires { (too_large (length starts.now) (length entries.now) ≡ false) × (too_large (length offsets.now) (length columns.now) ≡ false) × (rows_of offsets.now ≡ rows_of starts.now) × (factor_is_right ≡ true → valid_pattern offsets.now columns.now ≡ true) }
    ensures { result ≡ true → (factor_is_right ≡ true) × (valid_pattern starts.now entries.now ≡ true) × (all_have_places starts.now entries.now offsets.now columns.now ≡ true) }
{
    if !factor_is_right {
        return false;
    }
    is_surely_placed(starts, entries, offsets, columns)
}

// The checks by what the patterns hold: 3 of both, 11 of the factor's, then 8. What is right is found so by the quick ways; the slow ones find which rule is broken.
fn check_rules(
    starts: &[u32],
    entries: &[u32],
    offsets: &[u32],
    columns: &[u32],
    splits: &[u32],
) -> Answer
    requires { (too_large (length starts.now) (length entries.now) ≡ false) × (too_large (length offsets.now) (length columns.now) ≡ false) × (rows_of offsets.now ≡ rows_of starts.now) × (length splits.now ≡ rows_of offsets.now) }
    ensures { number_of result ≡ first_of (copy_rules starts.now entries.now offsets.now columns.now splits.now) }
{
    let factor = check_rows(offsets, columns, splits);
    if is_surely_right(factor.is_ok(), starts, entries, offsets, columns) {
        return factor;
    }
    if !is_valid_pattern(starts, entries) {
        return Err(Refusal::Pattern);
    }
    factor?;
    if !has_all_places(starts, entries, offsets, columns) {
        return Err(Refusal::NoPlace);
    }
    Ok(())
}

// All checks.
pub fn check_copy<S: Size>(
    starts: &[u32],
    entries: &[u32],
    a_diagonal: usize,
    a_values: usize,
    offsets: &[u32],
    columns: &[u32],
    splits: &[u32],
    diagonal: usize,
    values: usize,
) -> Answer
    ensures { number_of result ≡ first_of (copy_checks S.DIM starts.now entries.now a_diagonal a_values offsets.now columns.now splits.now diagonal values) }
{
    check_lengths::<S>(
        starts.len(),
        entries.len(),
        a_diagonal,
        a_values,
        offsets.len(),
        columns.len(),
        splits.len(),
        diagonal,
        values,
    )?;
    check_rules(starts, entries, offsets, columns, splits)
}
