// The pattern calls: a line has the numbers of check_pattern and check_entries, or of check_factor.
// The cases are those of limits::pattern_cases.
use case_texts::heading;
use limits::pattern_cases::{Check, try_columns, try_factor, try_rows, try_rule};
use std::io;

fn print_numbers(rt: &impl Print, pattern: u32, entries: u32) -> io::Result<()> {
    println!(rt; ": {pattern} {entries}")
}

fn rules(rt: &impl Print) -> io::Result<()> {
    for case in 0..10 {
        print!(rt; "{}", case_texts::rule(case))?;
        print_numbers(
            rt,
            try_rule(Check::Pattern, case),
            try_rule(Check::Entries, case),
        )?;
    }
    Ok(())
}

fn rows(rt: &impl Print) -> io::Result<()> {
    for case in 0..5 {
        print!(rt; "{}", case_texts::rows(case))?;
        print_numbers(
            rt,
            try_rows(Check::Pattern, case),
            try_rows(Check::Entries, case),
        )?;
    }
    Ok(())
}

fn columns(rt: &impl Print) -> io::Result<()> {
    print!(rt; "65535 columns")?;
    print_numbers(
        rt,
        try_columns(Check::Pattern, 0),
        try_columns(Check::Entries, 0),
    )?;
    print!(rt; "65536 columns")?;
    print_numbers(
        rt,
        try_columns(Check::Pattern, 1),
        try_columns(Check::Entries, 1),
    )
}

fn factors(rt: &impl Print) -> io::Result<()> {
    for case in 0..5 {
        print!(rt; "{}", case_texts::factor(case))?;
        println!(rt; ": {}", try_factor(case))?;
    }
    Ok(())
}

pub fn run(rt: &impl Print) -> io::Result<()> {
    print!(rt; "{}", heading(2))?;
    rules(rt)?;
    rows(rt)?;
    columns(rt)?;
    factors(rt)
}
