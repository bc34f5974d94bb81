// Runs document 01's cases by calls of the library, and prints what each answers: the number, then values as their 64 bits.
// Today: the pivots of cases 8 and 9, inverses and products at their edges, cases 1 to 7 and 12, and every refusal of the vector, pattern, matrix, element and fill calls.
#![tactic(auto)]

pub mod element_cases;
pub mod fill_cases;
pub mod matrix_cases;
pub mod pattern_cases;
pub mod vector_cases;

use answers::Numbered;
use block_cases::{Shown, inverse, pivot, product, root, update};
use case_texts::heading;
use std::io;
use texts::Values;

pub fn print_values(rt: &impl Print, name: &str, values: &[f64]) -> io::Result<()> {
    println!(rt; "{name}{}", Values(values))
}

fn print_shown(rt: &impl Print, shown: Shown) -> io::Result<()> {
    print_values(rt, shown.name, shown.values())
}

fn print_inverse(rt: &impl Print, shown: Shown) -> io::Result<()> {
    let answer = shown.answer;
    print!(rt; "{}: number {}", shown.name, answer.number())?;
    if answer.number() == 9 {
        print!(rt; " row {}", answer.row())?;
    }
    print_values(rt, ",", shown.values())
}

fn pivots(rt: &impl Print) -> io::Result<()> {
    print_inverse(rt, pivot(0))?;
    print_shown(rt, update(0))?;
    print_shown(rt, update(1))?;
    print_inverse(rt, pivot(1))?;
    print_inverse(rt, pivot(2))
}

fn inverses(rt: &impl Print) -> io::Result<()> {
    for case in 0..9 {
        print_inverse(rt, inverse(case))?;
    }
    Ok(())
}

fn products_and_roots(rt: &impl Print) -> io::Result<()> {
    for case in 0..4 {
        print_shown(rt, product(case))?;
    }
    print_shown(rt, root(0))?;
    print_shown(rt, root(1))
}

fn main(rt: HostRuntime) -> io::Result<()> {
    print!(rt; "{}", heading(0))?;
    pivots(&rt)?;
    inverses(&rt)?;
    products_and_roots(&rt)?;
    vector_cases::run(&rt)?;
    pattern_cases::run(&rt)?;
    matrix_cases::run(&rt)?;
    element_cases::run(&rt)?;
    fill_cases::run(&rt)
}
