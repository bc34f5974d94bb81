// Patterns of any size for the fill calls: none of their rows is sorted, where it has more than one column.
// Each begins at its first row; a row is pushed column by column, and the place after the last one is where the next row begins.
ghost use Rattle.std.specs.Prelude.{◌≤◌};

// A column at a place, if there is room; the place after it.
fn push(entries: &mut [u32], at: u32, column: u32) -> u32 {
    let place = at as usize;
    if place < entries.len() {
        if at < 65536 {
            entries[place] = column;
            return at + 1;
        }
    }
    at
}

// The same of a column below n.
fn push_below(entries: &mut [u32], at: u32, column: u32, n: u32) -> u32 {
    if column < n {
        return push(entries, at, column);
    }
    at
}

// The columns below `count`, falling.
fn push_falling(entries: &mut [u32], at: u32, count: u32) -> u32 {
    let mut next = at;
    for column in (0..count).rev() {
        next = push(entries, next, column);
    }
    next
}

// The last row names all others.
fn push_dense(entries: &mut [u32], at: u32, i: u32, n: u32) -> u32
    requires { i ≤ 4096 }
{
    if i + 1 == n {
        return push_falling(entries, at, i);
    }
    at
}

// The last row names all others, and each of them names it.
fn push_arrow(entries: &mut [u32], at: u32, i: u32, n: u32) -> u32
    requires { i ≤ 4096 }
{
    if i + 1 < n {
        return push(entries, at, n - 1);
    }
    push_dense(entries, at, i, n)
}

// The column of a row of a band at a place: the nodes 64 and 1 after, 64 and 1 before, or n where there is none.
fn band_column(place: u32, i: u32, n: u32) -> u32
    requires { i ≤ 4096 }
{
    match place {
        0 => i + 64,
        1 => i + 1,
        2 => { if i >= 64 { i - 64 } else { n } }
        _ => { if i >= 1 { i - 1 } else { n } }
    }
}

// The nodes around a node of a plate that is 64 nodes wide.
fn push_band(entries: &mut [u32], at: u32, i: u32, n: u32) -> u32
    requires { i ≤ 4096 }
{
    let mut next = at;
    for place in 0..4 {
        next = push_below(entries, next, band_column(place, i, n), n);
    }
    next
}

// Kind 0 has no entry, 1 a dense last row, 2 is an arrow, 3 a band. There is nothing from row n on.
fn push_row(entries: &mut [u32], at: u32, kind: usize, i: u32, n: u32) -> u32
    requires { i ≤ 4096 }
{
    if i >= n {
        return at;
    }
    match kind {
        0 => at,
        1 => push_dense(entries, at, i, n),
        2 => push_arrow(entries, at, i, n),
        _ => push_band(entries, at, i, n),
    }
}

// Where the row after i begins.
fn put_start(starts: &mut [u32], i: u32, at: u32)
    requires { i ≤ 4096 }
{
    let place = (i + 1) as usize;
    if place < starts.len() {
        starts[place] = at;
    }
}

// The pattern of a kind with n rows, at most 4,096, into offsets whose first is 0; answers how many entries it has.
pub fn fill_pattern(starts: &mut [u32], entries: &mut [u32], kind: usize, n: u32) -> u32 {
    let mut at = 0;
    for i in 0..4096 {
        at = push_row(entries, at, kind, i, n);
        put_start(starts, i, at);
    }
    at
}
