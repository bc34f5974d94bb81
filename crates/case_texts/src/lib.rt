// What the program `cases` prints beside numbers: the names of cases, and the line above each group.
// A text stands here once, by the number that the program gives it.
#![tactic(auto)]

// The large patterns of the fill calls.
pub fn plate(kind: usize) -> &'static str {
    match kind {
        0 => "no entry",
        1 => "a last row that names all others, falling",
        2 => "an arrow, whose last row and column are dense",
        _ => "a band, 64 nodes wide",
    }
}

// The small patterns of the fill calls, as each is called.
pub fn small_fill(case: usize) -> &'static str {
    match case {
        0 => "case 1, P at k = 0",
        1 => "case 2, P at k = 1",
        2 => "case 3, P at k = 2",
        3 => "P at k = 4294967295",
        4 => "P, initialize_ilu0",
        5 => "case 6, one row at k = 4294967295",
        6 => "one row, initialize_ilu0",
        7 => "one row, initialize_full",
        _ => "case 7, three rows, initialize_full",
    }
}

// The cases of a pattern: its rules, its rows, and those of a factor.
pub fn rule(case: usize) -> &'static str {
    match case {
        0 => "two rows that name each other",
        1 => "first offset 1",
        2 => "an offset that falls in the middle",
        3 => "last offset below the number of columns",
        4 => "last offset above the number of columns",
        5 => "a column that is n",
        6 => "a column twice, side by side",
        7 => "a column twice, apart",
        8 => "an own column",
        _ => "rows that are not sorted",
    }
}

pub fn rows(case: usize) -> &'static str {
    match case {
        0 => "no offset",
        1 => "one offset",
        2 => "1 row",
        3 => "4096 rows",
        _ => "4097 rows",
    }
}

pub fn factor(case: usize) -> &'static str {
    match case {
        0 => "P",
        1 => "P, a split short",
        2 => "P, a split one off",
        3 => "a factor row not sorted",
        _ => "an own column and a wrong split",
    }
}

// The lines above the groups, in the order in which they are printed.
pub fn heading(group: usize) -> &'static str {
    match group {
        0 => "Values are printed as their 64 bits, a NaN as 7ff8000000000000.\n",
        1 =>
            "Vector calls: n = 0, 1, 4096, 4097; first slice a value short, long; second slice or flags short, long (set_zero has one slice).\n",
        2 => "Pattern calls: check_pattern, check_entries; then check_factor.\n",
        3 =>
            "Matrix calls: right; each slice short, long; an own column; that and a wrong length; both and no row.\n",
        4 => "Matrix calls: 4096 rows, 4097 rows; at N = 1 also 65535 columns, 65536 columns.\n",
        5 =>
            "Element calls, a dash where a call has no such slice: m = 2, 0, 1, 8, 9; element short, long; values short, long; diagonal short, long;\n",
        6 =>
            "column nodes short, long; a row node that is n; a column node that is n; a node twice; a pair without an entry; that and a node that is n;\n",
        7 => "own columns; those and a wrong length; both and no row.\n",
        8 =>
            "Element calls of one node at N = 1: 4096 rows, 4097 rows, 65535 columns, 65536 columns.\n",
        9 =>
            "Fill calls, a dash where a call has no such slice: right; offsets short, long; splits short, long; levels short, long; row short, long; room one\n",
        10 =>
            "short; own columns; those and a wrong length; both and no row; room 65535, 65536; no entry and no room; 4096 rows, 4097 rows without an entry;\n",
        11 => "65535 entries, 65536 entries.\n",
        12 =>
            "Fill of 4096 rows, number and entries: initialize_ilu0; initialize_iluk at k = 0, 1, 2, 3, 4294967295.\n",
        13 => "Fill calls on small patterns: number, offsets, columns, splits.\n",
        _ =>
            "Room at k = 0, 1, 2, 3: the entries, then the number in room for them and in room one short.\n",
    }
}
