// The vector calls: a line of numbers for each call at each N, then values where a wrong order, a sign or a flag shows.
// The cases are those of limits::vector_cases.
use crate::print_values;
use case_texts::heading;
use limits::vector_cases::{
    VectorCall, dot_of_rows, dot_of_values, fixed_pair, fixed_right_side, try_case,
};
use std::io;

fn print_line(rt: &impl Print, call: VectorCall, dim: usize) -> io::Result<()> {
    print!(rt; "{}{dim}:", call.name())?;
    for case in 0..8 {
        print!(rt; "{}", try_case(call, dim, case))?;
    }
    println!(rt)
}

fn print_lines(rt: &impl Print) -> io::Result<()> {
    for call in VectorCall::ALL {
        for dim in 1..4 {
            print_line(rt, call, dim)?;
        }
    }
    Ok(())
}

fn values(rt: &impl Print) -> io::Result<()> {
    print_values(
        rt,
        "dot_2 of (1, 1), (2^-26, 2^-26) with itself:",
        &[dot_of_rows()],
    )?;
    print_values(
        rt,
        "dot_1 of the same four values, one running sum:",
        &[dot_of_values()],
    )?;
    print_values(
        rt,
        "set_fixed_2 of 1, 2, -3, 4 by flags 0, -1, 1, 0:",
        &fixed_pair(),
    )?;
    print_values(
        rt,
        "set_fix_dof_to_rhs_vector_1 of 1, 2 by flags -2^31, 0 and one more:",
        &fixed_right_side(),
    )
}

pub fn run(rt: &impl Print) -> io::Result<()> {
    print!(rt; "{}", heading(1))?;
    print_lines(rt)?;
    values(rt)
}
