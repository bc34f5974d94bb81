// The calls that add an element: a line of numbers for each call at each N, then the limits of rows and columns.
// The cases are those of crate element_limits.
use case_texts::heading;
use element_limits::{ElementCall, is_case_of, try_case};
use std::io;

// csrdia has no N.
fn print_name(rt: &impl Print, call: ElementCall, dim: usize) -> io::Result<()> {
    match call {
        ElementCall::Merge => print!(rt; "merge_{dim}:"),
        ElementCall::Csrdia => print!(rt; "csrdia:"),
        ElementCall::Blkcsr => print!(rt; "blkcsr_{dim}:"),
    }
}

fn print_case(rt: &impl Print, call: ElementCall, dim: usize, case: usize) -> io::Result<()> {
    if is_case_of(call, case) {
        print!(rt; "{}", try_case(call, dim, case))
    } else {
        print!(rt; " -")
    }
}

// The cases from one number to below another.
fn print_line(
    rt: &impl Print,
    call: ElementCall,
    dim: usize,
    from: usize,
    to: usize,
) -> io::Result<()> {
    print_name(rt, call, dim)?;
    for case in from..to {
        print_case(rt, call, dim, case)?;
    }
    println!(rt)
}

fn refusals(rt: &impl Print) -> io::Result<()> {
    print!(rt; "{}", heading(5))?;
    print!(rt; "{}", heading(6))?;
    print!(rt; "{}", heading(7))?;
    for dim in 1..4 {
        print_line(rt, ElementCall::Merge, dim, 0, 21)?;
    }
    print_line(rt, ElementCall::Csrdia, 1, 0, 21)?;
    for dim in 1..4 {
        print_line(rt, ElementCall::Blkcsr, dim, 0, 21)?;
    }
    Ok(())
}

fn sizes(rt: &impl Print) -> io::Result<()> {
    print!(rt; "{}", heading(8))?;
    print_line(rt, ElementCall::Merge, 1, 21, 25)?;
    print_line(rt, ElementCall::Csrdia, 1, 21, 25)?;
    print_line(rt, ElementCall::Blkcsr, 1, 21, 25)
}

pub fn run(rt: &impl Print) -> io::Result<()> {
    refusals(rt)?;
    sizes(rt)
}
