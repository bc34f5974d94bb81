// Runs both solvers, conjugate_gradient and preconditioned_conjugate_gradient, and prints what each answers and leaves: the number, the count, the verdict, then values as their 64 bits.
// Document 01's cases 10 and 11 come first, then four rows in a ring at each N, 4,096 rows, and every refusal at its limits.
#![tactic(auto)]

use answers::{Answer, Numbered};
use large_solves::Folded;
use limits::sizes::values_a_row;
use small_solves::{Left, one_row};
use solver_calls::SolverCall;
use solver_limits::{is_case_of, try_case};
use solvers::{Solution, Verdict};
use std::io;
use texts::{Bits, Values};

// The first values of a room, after what stands before them.
fn print_first<const ROOM: usize>(
    rt: &impl Print,
    before: &str,
    values: &[f64; ROOM],
    count: usize,
) -> io::Result<()> {
    print!(rt; "{before}{}", Values(&values[..count.min(ROOM)]))
}

fn print_verdict(rt: &impl Print, verdict: Verdict) -> io::Result<()> {
    match verdict {
        Verdict::Empty => print!(rt; ", Empty"),
        Verdict::Settled => print!(rt; ", Settled"),
        Verdict::Unsettled => print!(rt; ", Unsettled"),
    }
}

fn print_solution(rt: &impl Print, solution: Solution) -> io::Result<()> {
    print!(rt; ", count {}", solution.count)?;
    let verdict = solution.verdict;
    print_verdict(rt, verdict)?;
    print!(rt; ", last {}", Bits(solution.last))
}

fn print_answer(rt: &impl Print, answer: Answer<Solution>) -> io::Result<()> {
    print!(rt; ": number {}", answer.number())?;
    match answer {
        Ok(solution) => print_solution(rt, solution),
        Err(_) => Ok(()),
    }
}

fn print_vectors(rt: &impl Print, call: SolverCall, left: Left, count: usize) -> io::Result<()> {
    let r = left.r;
    let x = left.x;
    let q = left.q;
    let p = left.p;
    print!(rt; ", {}", call.solution())?;
    print_first(rt, "", &x, count)?;
    print_first(rt, ", r", &r, count)?;
    print_first(rt, ", p", &p, count)?;
    print!(rt; ", {}", call.product())?;
    print_first(rt, "", &q, count)
}

fn print_left(rt: &impl Print, call: SolverCall, left: Left, count: usize) -> io::Result<()> {
    let answer = left.answer;
    print_answer(rt, answer)?;
    print_vectors(rt, call, left, count)?;
    let history = left.history;
    print_first(rt, ", history", &history, 12)?;
    println!(rt)
}

fn print_one_row(rt: &impl Print, name: &str, call: SolverCall, left: Left) -> io::Result<()> {
    print!(rt; "{}{name}", call.name())?;
    print_left(rt, call, left, 1)
}

fn cases_of_one_row(rt: &impl Print, call: SolverCall) -> io::Result<()> {
    print_one_row(rt, ", case 10", call, one_row(call, 4.0, 0.5, 5))?;
    print_one_row(
        rt,
        ", case 10 with limit 0",
        call,
        one_row(call, 4.0, 0.5, 0),
    )?;
    print_one_row(
        rt,
        ", case 10 with tolerance 0",
        call,
        one_row(call, 4.0, 0.0, 5),
    )?;
    print_one_row(
        rt,
        ", case 11, 2^-27",
        call,
        one_row(call, 1.0 / 134217728.0, 0.5, 5),
    )?;
    print_one_row(
        rt,
        ", case 11, 2^-26",
        call,
        one_row(call, 1.0 / 67108864.0, 0.5, 5),
    )
}

fn run_name(case: usize) -> &'static str {
    match case {
        0 => "settled within the limit",
        1 => "settled at the last step",
        2 => "a step short of that",
        3 => "limit 0",
        4 => "limit 1",
        5 => "tolerance 0",
        6 => "tolerance infinite",
        7 => "tolerance NaN",
        8 => "right side 0",
        9 => "right side -0",
        10 => "right side subnormal",
        11 => "just below epsilon",
        12 => "at epsilon",
        13 => "A of zeros",
        14 => "an infinity in the product as lent",
        15 => "a NaN in the right side",
        16 => "a square that overflows",
        _ => "rows summed apart",
    }
}

fn print_run(rt: &impl Print, call: SolverCall, dim: usize, case: usize) -> io::Result<()> {
    print!(rt; "{}_{dim}, {}", call.name(), run_name(case))?;
    print_left(
        rt,
        call,
        small_solves::solved(call, dim, case),
        4 * values_a_row(dim),
    )
}

fn small_runs(rt: &impl Print, call: SolverCall, dim: usize) -> io::Result<()> {
    for case in 0..18 {
        print_run(rt, call, dim, case)?;
    }
    Ok(())
}

fn print_folded(rt: &impl Print, call: SolverCall, folded: Folded) -> io::Result<()> {
    let answer = folded.answer;
    print_answer(rt, answer)?;
    print!(rt; ", {} {:016x}", call.solution(), folded.x)?;
    print!(rt; ", r {:016x}, p {:016x}", folded.r, folded.p)?;
    print!(rt; ", {} {:016x}", call.product(), folded.q)?;
    let history = folded.history;
    print_first(rt, ", history", &history, 24)?;
    println!(rt)
}

fn large_run(rt: &impl Print, call: SolverCall, dim: usize) -> io::Result<()> {
    print!(rt; "{}_{dim}, 4096 rows", call.name())?;
    print_folded(rt, call, large_solves::solved(call, dim))
}

fn print_limits(rt: &impl Print, call: SolverCall, dim: usize) -> io::Result<()> {
    print!(rt; "{}_{dim}:", call.name())?;
    for case in 0..50 {
        if is_case_of(call, dim, case) {
            print!(rt; "{}", try_case(call, dim, case))?;
        } else {
            print!(rt; " -")?;
        }
    }
    println!(rt)
}

fn print_headings(rt: &impl Print) -> io::Result<()> {
    println!(rt;
        "Limits: right; r a word short, long; u or x; ap or pr; p; A's values; A's diagonal; the factor's splits; its diagonal; its values; history short, longer;"
    )?;
    println!(rt;
        "no offset, one; 4096, 4097 rows; 65535, 65536 columns at N = 1; limits 4096, 4097; an own column; a column twice; an offset that falls; an unsorted row;"
    )?;
    println!(rt;
        "no row and limit 4097; that limit and r short; r short and an own column; of the factor: no offset, one; 4097 rows; 65536 columns; a row less;"
    )?;
    println!(rt;
        "an own column; a column twice; an offset that falls; an unsorted row; a split too low, too high; a wrong split and an own column, and one in A, and p short. - where there is no such case."
    )
}

fn main(rt: HostRuntime) -> io::Result<()> {
    println!(rt; "Values are printed as their 64 bits, a NaN as 7ff8000000000000.")?;
    cases_of_one_row(&rt, SolverCall::Preconditioned)?;
    cases_of_one_row(&rt, SolverCall::Plain)?;
    for dim in 1..4 {
        for call in SolverCall::ALL {
            small_runs(&rt, call, dim)?;
        }
    }
    println!(rt;
        "Vectors of 4096 rows are folded: a word turned by one bit, and the next value's bits added."
    )?;
    for dim in 1..4 {
        for call in SolverCall::ALL {
            large_run(&rt, call, dim)?;
        }
    }
    print_headings(&rt)?;
    for dim in 1..4 {
        for call in SolverCall::ALL {
            print_limits(&rt, call, dim)?;
        }
    }
    Ok(())
}
