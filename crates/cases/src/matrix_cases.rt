// The calls on a matrix: a line of numbers for each call at each N, then the limits of rows and columns, then values.
// The cases are those of crate matrix_limits.
use crate::print_values;
use case_texts::heading;
use matrix_limits::{MatrixCall, fixed_pair, product, product_over_infinity};
use std::io;

fn print_name(rt: &impl Print, call: MatrixCall, dim: usize) -> io::Result<()> {
    print!(rt; "{}{dim}:", call.name())
}

// The cases from one number to below another.
fn print_cases(
    rt: &impl Print,
    call: MatrixCall,
    dim: usize,
    from: usize,
    to: usize,
) -> io::Result<()> {
    for case in from..to {
        print!(rt; "{}", call.try_case(dim, case))?;
    }
    Ok(())
}

fn print_refusals(rt: &impl Print, call: MatrixCall, dim: usize) -> io::Result<()> {
    print_name(rt, call, dim)?;
    print_cases(rt, call, dim, 0, call.slices_end())?;
    print_cases(rt, call, dim, 9, 12)?;
    println!(rt)
}

fn print_sizes(rt: &impl Print, call: MatrixCall, dim: usize) -> io::Result<()> {
    print_name(rt, call, dim)?;
    print_cases(rt, call, dim, 12, 14)?;
    if dim == 1 {
        print_cases(rt, call, dim, 14, 16)?;
    }
    println!(rt)
}

fn refusals(rt: &impl Print) -> io::Result<()> {
    print!(rt; "{}", heading(3))?;
    for call in MatrixCall::ALL {
        for dim in 1..4 {
            print_refusals(rt, call, dim)?;
        }
    }
    Ok(())
}

fn sizes(rt: &impl Print) -> io::Result<()> {
    print!(rt; "{}", heading(4))?;
    for call in MatrixCall::ALL {
        for dim in 1..4 {
            print_sizes(rt, call, dim)?;
        }
    }
    Ok(())
}

fn values(rt: &impl Print) -> io::Result<()> {
    print_values(rt, "mult_vec_1 of two rows:", &product())?;
    print_values(
        rt,
        "mult_vec_1, beta 0 over an infinity:",
        &product_over_infinity(),
    )
}

fn fixed(rt: &impl Print) -> io::Result<()> {
    let pair = fixed_pair();
    let diagonal = pair.diagonal;
    let values = pair.values;
    print_values(
        rt,
        "set_fixed_bc_2 of two rows by flags 0, -1, 0, 0, diagonal:",
        &diagonal,
    )?;
    print_values(rt, "its entries:", &values)
}

pub fn run(rt: &impl Print) -> io::Result<()> {
    refusals(rt)?;
    sizes(rt)?;
    values(rt)?;
    fixed(rt)
}
