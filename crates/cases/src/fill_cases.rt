// The calls that write the pattern of a factor: a line of numbers for each call at its limits, then large patterns, then document 01's cases 1 to 7.
// The cases are those of crate fill_limits.
use case_texts::{heading, plate, small_fill};
use fill_limits::small::Written;
use fill_limits::{FillCall, Filled, is_case_of, small, try_full, try_limit, try_plate};
use std::io;

fn print_case(rt: &impl Print, call: FillCall, case: usize) -> io::Result<()> {
    if is_case_of(call, case) {
        print!(rt; "{}", try_limit(call, case))
    } else {
        print!(rt; " -")
    }
}

fn print_limits(rt: &impl Print, call: FillCall) -> io::Result<()> {
    print!(rt; "{}", call.name())?;
    print!(rt; ":")?;
    for case in 0..20 {
        print_case(rt, call, case)?;
    }
    println!(rt)
}

fn limits(rt: &impl Print) -> io::Result<()> {
    print!(rt; "{}", heading(9))?;
    print!(rt; "{}", heading(10))?;
    print!(rt; "{}", heading(11))?;
    print_limits(rt, FillCall::Ilu0)?;
    print_limits(rt, FillCall::Full)?;
    print_limits(rt, FillCall::Iluk)
}

// The number and the entries that were written.
fn print_filled(rt: &impl Print, seen: Filled) -> io::Result<()> {
    print!(rt; "{seen} {};", seen.entries)
}

fn print_plate(rt: &impl Print, kind: usize) -> io::Result<()> {
    print!(rt; "{}", plate(kind))?;
    print!(rt; ":")?;
    print_filled(rt, try_plate(FillCall::Ilu0, kind, 0))?;
    for k in [0, 1, 2, 3, 4294967295] {
        print_filled(rt, try_plate(FillCall::Iluk, kind, k))?;
    }
    println!(rt)
}

fn plates(rt: &impl Print) -> io::Result<()> {
    print!(rt; "{}", heading(12))?;
    for kind in 0..4 {
        print_plate(rt, kind)?;
    }
    print!(rt; "initialize_full of 256 rows:")?;
    print_filled(rt, try_full(0))?;
    print!(rt; " of 257 rows:")?;
    print_filled(rt, try_full(1))?;
    println!(rt)
}

fn print_words(rt: &impl Print, before: &str, words: &[u32], count: usize) -> io::Result<()> {
    print!(rt; "{before}")?;
    for x in words.iter().take(count) {
        print!(rt; " {x}")?;
    }
    Ok(())
}

// Where the last row ends.
fn count_of(offsets: &[u32], rows: usize) -> usize {
    offsets.get(rows).map_or(0, |end| *end as usize)
}

// One more than the rows, of which there are at most five.
fn offset_count(rows: usize) -> usize {
    rows.min(5) + 1
}

fn print_pattern(
    rt: &impl Print,
    rows: usize,
    offsets: &[u32; 6],
    columns: &[u32; 20],
    splits: &[u32; 5],
) -> io::Result<()> {
    print_words(rt, ", offsets", offsets, offset_count(rows))?;
    print_words(rt, ", columns", columns, count_of(offsets, rows))?;
    print_words(rt, ", splits", splits, rows)?;
    println!(rt)
}

fn print_written(rt: &impl Print, case: usize, written: Written) -> io::Result<()> {
    print!(rt; "{}", small_fill(case))?;
    print!(rt; ": {}", written.number)?;
    let offsets = written.offsets;
    let columns = written.columns;
    let splits = written.splits;
    print_pattern(rt, written.rows, &offsets, &columns, &splits)
}

fn small_patterns(rt: &impl Print) -> io::Result<()> {
    print!(rt; "{}", heading(13))?;
    print_written(rt, 0, small::try_iluk(0, 0, 20))?;
    print_written(rt, 1, small::try_iluk(0, 1, 20))?;
    print_written(rt, 2, small::try_iluk(0, 2, 20))?;
    print_written(rt, 3, small::try_iluk(0, 4294967295, 20))?;
    print_written(rt, 4, small::try_ilu0(0))?;
    print_written(rt, 5, small::try_iluk(2, 4294967295, 0))?;
    print_written(rt, 6, small::try_ilu0(2))?;
    print_written(rt, 7, small::try_full(0))?;
    print_written(rt, 8, small::try_full(1))
}

// In room for all, then in room for one less.
fn print_room(rt: &impl Print, which: usize, k: u32) -> io::Result<()> {
    let written = small::try_iluk(which, k, 20);
    let offsets = written.offsets;
    let entries = count_of(&offsets, 5);
    print!(rt;
        " {entries}: {} ",
        small::try_iluk(which, k, entries).number
    )?;
    if entries > 0 {
        print!(rt; "{}", small::try_iluk(which, k, entries - 1).number)?;
    }
    print!(rt; ";")
}

fn print_rooms(rt: &impl Print, which: usize) -> io::Result<()> {
    for k in 0..4 {
        print_room(rt, which, k)?;
    }
    println!(rt)
}

fn rooms(rt: &impl Print) -> io::Result<()> {
    print!(rt; "{}", heading(14))?;
    print!(rt; "P:")?;
    print_rooms(rt, 0)?;
    print!(rt; "case 5:")?;
    print_rooms(rt, 1)
}

pub fn run(rt: &impl Print) -> io::Result<()> {
    limits(rt)?;
    plates(rt)?;
    small_patterns(rt)?;
    rooms(rt)
}
