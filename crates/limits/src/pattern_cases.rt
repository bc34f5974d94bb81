// The pattern calls: each rule of a valid pattern broken alone, and the limits of rows and columns.
// A pattern is asked for by check_pattern, or by check_entries, where a row's own column may stand.
ghost use Rattle.std.specs.Prelude.{◌≤◌};

use crate::ring::{fill_columns, fill_offsets};
use answers::Numbered;

// Which of the two asks for a pattern.
#[derive(Clone, Copy)]
pub enum Check {
    Pattern,
    Entries,
}

impl Check {
    fn number(self, offsets: &[u32], columns: &[u32]) -> u32 {
        match self {
            Check::Pattern => patterns::check_pattern(offsets, columns).number(),
            Check::Entries => patterns::check_entries(offsets, columns).number(),
        }
    }
}

// Two rows that name each other; a first offset of 1; an offset that falls in the middle; a last offset below, above the number of columns;
// a column that is n; a column twice, side by side, apart; an own column; rows that are not sorted.
pub fn try_rule(check: Check, case: usize) -> u32 {
    match case {
        0 => check.number(&[0, 1, 2], &[1, 0]),
        1 => check.number(&[1, 1, 2], &[1, 0]),
        2 => check.number(&[0, 2, 1, 3], &[1, 2, 0]),
        3 => check.number(&[0, 1, 1], &[1, 0]),
        4 => check.number(&[0, 1, 3], &[1, 0]),
        5 => check.number(&[0, 1, 2], &[1, 2]),
        6 => check.number(&[0, 2, 2, 2], &[1, 1]),
        7 => check.number(&[0, 3, 3, 3], &[1, 2, 1]),
        8 => check.number(&[0, 1, 2], &[1, 1]),
        _ => check.number(&[0, 2, 4, 6], &[2, 1, 2, 0, 1, 0]),
    }
}

// Document 01's pattern P, whose rows are sorted: right; a split short; a split one off; then a row not sorted; an own column and a wrong split.
pub fn try_factor(case: usize) -> u32 {
    match case {
        0 => of_p(&[0, 2, 6, 7, 8]),
        1 => of_p(&[0, 2, 6, 7]),
        2 => of_p(&[0, 2, 5, 7, 8]),
        3 => patterns::check_factor(&[0, 2, 2, 2], &[2, 1], &[0, 2, 2]).number(),
        _ => patterns::check_factor(&[0, 1, 1], &[0], &[1, 1]).number(),
    }
}

fn of_p(splits: &[u32]) -> u32 {
    patterns::check_factor(&[0, 2, 4, 6, 7, 8], &[2, 3, 2, 4, 0, 1, 0, 1], splits).number()
}

fn offset_count(case: usize) -> usize
    ensures { result ≤ 4098 }
{
    match case {
        0 => 0,
        1 => 1,
        2 => 2,
        3 => 4097,
        _ => 4098,
    }
}

// No offset, one; then 1, 4,096 and 4,097 rows without a column.
pub fn try_rows(check: Check, case: usize) -> u32 {
    let offsets = [0u32; 4098];
    check.number(&offsets[..offset_count(case)], &[])
}

fn column_count(case: usize) -> usize
    ensures { result ≤ 65536 }
{
    if case == 0 {
        return 65535;
    }
    65536
}

// 65,535 and 65,536 columns: 257 rows have 255 each.
pub fn try_columns(check: Check, case: usize) -> u32 {
    let mut offsets = [0u32; 258];
    let mut columns = [0u32; 65536];
    fill_offsets(&mut offsets, 255);
    fill_columns(&mut columns, 257, 255, 1);
    check.number(&offsets, &columns[..column_count(case)])
}
