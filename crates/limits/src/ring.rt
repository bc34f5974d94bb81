// Patterns of any size: each row names as many columns, those that follow one another around the end.
// Row i begins with column i + start: with start 1 no row has its own column, with start 0 each has.

// The number after x, around the end.
fn next(x: u32, count: u32) -> u32 {
    match x.checked_add(1) {
        Some(y) if y < count => y,
        _ => 0,
    }
}

// A remainder changes no offset up to 65,535 and no width up to 255: it keeps the sum in its 32 bits.
pub fn fill_offsets(offsets: &mut [u32], width: u32) {
    let mut at: u32 = 0;
    for offset in offsets.iter_mut() {
        *offset = at;
        at = at % 65536 + width % 256;
    }
}

// At place 0 a row begins, with the column after the first one of the row before.
pub fn fill_columns(columns: &mut [u32], rows: u32, width: u32, start: u32) {
    let mut place: u32 = 0;
    let mut first = start;
    let mut next_column = start;
    for column in columns.iter_mut() {
        *column = next_column;
        place = next(place, width);
        if place == 0 {
            first = next(first, rows);
            next_column = first;
        } else {
            next_column = next(next_column, rows);
        }
    }
}
