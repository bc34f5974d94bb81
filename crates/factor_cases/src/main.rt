// Runs the calls on a factor, copy_value, decompose and solve_preconditioning_vec, and prints what each answers: the number, then values as their 64 bits.
// Document 01's cases 8 and 9 come first, then small factors at each N, then every refusal at its limits.
#![tactic(auto)]

use factor_limits::FactorCall;
use limits::sizes::{values_a_block, values_a_row};
use small_factors::{Left, Pair, case_of_two_rows, copied, decomposed, solved};
use std::io;
use texts::Values;

// The first values of a room, after what stands before them.
fn print_first<const ROOM: usize>(
    rt: &impl Print,
    before: &str,
    values: &[f64; ROOM],
    count: usize,
) -> io::Result<()> {
    print!(rt; "{before}{}", Values(&values[..count.min(ROOM)]))
}

fn print_answer(rt: &impl Print, number: u32, row: u32) -> io::Result<()> {
    print!(rt; ": number {number}")?;
    if number == 9 {
        print!(rt; " row {row}")?;
    }
    Ok(())
}

fn print_pair(rt: &impl Print, name: &str, pair: Pair) -> io::Result<()> {
    print!(rt; "{name}")?;
    print_answer(rt, pair.number, pair.row)?;
    let diagonal = pair.diagonal;
    let values = pair.values;
    let vec = pair.vec;
    print_first(rt, ", diagonal", &diagonal, 2)?;
    print_first(rt, ", entries", &values, 2)?;
    if pair.number == 0 {
        print_first(rt, ", (8, 12) solves to", &vec, 2)?;
    }
    println!(rt)
}

fn print_copied(rt: &impl Print, left: Left) -> io::Result<()> {
    print!(rt; "copy_value_1 of an unsorted A")?;
    print_answer(rt, left.number, left.row)?;
    let diagonal = left.diagonal;
    let values = left.values;
    print_first(rt, ", diagonal", &diagonal, 3)?;
    print_first(rt, ", entries", &values, 6)?;
    println!(rt)
}

fn case_name(case: usize) -> &'static str {
    match case {
        0 => "all pivots can be inverted",
        1 => "singular at row 0",
        2 => "singular at row 1",
        3 => "singular at row 2",
        4 => "a pivot of -0",
        5 => "a pivot of NaN",
        6 => "a pivot of infinity",
        7 => "an upper entry of -0",
        _ => "products that are dropped",
    }
}

fn print_decomposed(rt: &impl Print, dim: usize, case: usize) -> io::Result<()> {
    print!(rt; "decompose_{dim}, {}", case_name(case))?;
    let left = decomposed(dim, case);
    print_answer(rt, left.number, left.row)?;
    let diagonal = left.diagonal;
    let values = left.values;
    print_first(rt, ", diagonal", &diagonal, 3 * values_a_block(dim))?;
    print_first(rt, ", entries", &values, 4 * values_a_block(dim))?;
    println!(rt)
}

fn print_solved(rt: &impl Print, dim: usize) -> io::Result<()> {
    print!(rt; "solve_preconditioning_vec_{dim}")?;
    let vec = solved(dim);
    print_first(rt, " with the first of these:", &vec, 3 * values_a_row(dim))?;
    println!(rt)
}

fn small_factors(rt: &impl Print, dim: usize) -> io::Result<()> {
    for case in 0..9 {
        print_decomposed(rt, dim, case)?;
    }
    print_solved(rt, dim)
}

fn print_limits(rt: &impl Print, call: FactorCall, dim: usize) -> io::Result<()> {
    print!(rt; "{}{dim}:", call.name())?;
    for case in 0..28 {
        if call.has_case(dim, case) {
            print!(rt; "{}", call.try_case(dim, case))?;
        } else {
            print!(rt; " -")?;
        }
    }
    println!(rt)
}

fn print_headings(rt: &impl Print) -> io::Result<()> {
    println!(rt;
        "Limits: right; splits a word short, long; diagonal; values; A's diagonal or vec; A's values; an own column; that and a wrong length; both and no row;"
    )?;
    println!(rt;
        "an unsorted row; a split too low, too high; that and an own column; 4096, 4097 rows; 65535, 65536 columns at N = 1;"
    )?;
    println!(rt;
        "an own column in A; A a row less; an entry of A absent; that and a wrong split; A of 4097 rows; of 65536 columns. - where there is no such case."
    )
}

fn main(rt: HostRuntime) -> io::Result<()> {
    println!(rt; "Values are printed as their 64 bits, a NaN as 7ff8000000000000.")?;
    print_pair(&rt, "case 8", case_of_two_rows([4.0, 5.0], 2.0))?;
    print_pair(&rt, "case 9", case_of_two_rows([1.0, 1.0], 1.0))?;
    print_copied(&rt, copied())?;
    for dim in 1..4 {
        small_factors(&rt, dim)?;
    }
    print_headings(&rt)?;
    for dim in 1..4 {
        for call in FactorCall::ALL {
            print_limits(&rt, call, dim)?;
        }
    }
    Ok(())
}
