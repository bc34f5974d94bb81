// Whether a lent pattern is valid, as document 01's "A valid pattern" has it, with the numbers of its refusals.
// A check writes no lent word. The crates above make checks 1 and 2 over all that they are lent, and then call `unchecked`.
#![tactic(auto)]

pub mod unchecked;

ghost use Rattle.std.specs.Prelude.{◌≡◌};
ghost use Rattle.answers.specs.Numbers.{number_of};
ghost use Rattle.answers.specs.Checks.{first_of};
ghost use Rattle.patterns.specs.Checks.{too_large, pattern_checks, entries_checks, factor_checks};

use answers::{Answer, Entries, Refusal, Rows};
use unchecked::{has_valid_splits, is_valid_entries, is_valid_pattern};

// Check 1, of the lengths of a pattern's offsets and columns.
pub fn is_too_large(offsets: usize, columns: usize) -> bool
    ensures { result ≡ too_large offsets columns }
{
    if offsets == 0 {
        return true;
    }
    if Rows(offsets - 1).out_of_range() {
        return true;
    }
    Entries(columns).out_of_range()
}

// A pattern of A.
pub fn check_pattern(offsets: &[u32], columns: &[u32]) -> Answer
    ensures { number_of result ≡ first_of (pattern_checks offsets.now columns.now) }
{
    if is_too_large(offsets.len(), columns.len()) {
        return Err(Refusal::Size);
    }
    if !is_valid_pattern(offsets, columns) {
        return Err(Refusal::Pattern);
    }
    Ok(())
}

// A pattern in which a row's own column may stand.
pub fn check_entries(offsets: &[u32], columns: &[u32]) -> Answer
    ensures { number_of result ≡ first_of (entries_checks offsets.now columns.now) }
{
    if is_too_large(offsets.len(), columns.len()) {
        return Err(Refusal::Size);
    }
    if !is_valid_entries(offsets, columns) {
        return Err(Refusal::Pattern);
    }
    Ok(())
}

// A factor pattern, with a split to each row.
pub fn check_factor(offsets: &[u32], columns: &[u32], splits: &[u32]) -> Answer
    ensures { number_of result ≡ first_of (factor_checks offsets.now columns.now splits.now) }
{
    if is_too_large(offsets.len(), columns.len()) {
        return Err(Refusal::Size);
    }
    if splits.len() != offsets.len() - 1 {
        return Err(Refusal::Shape);
    }
    if !is_valid_pattern(offsets, columns) {
        return Err(Refusal::Pattern);
    }
    if !has_valid_splits(offsets, columns, splits) {
        return Err(Refusal::Split);
    }
    Ok(())
}
