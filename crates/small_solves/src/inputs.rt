// What each case lends: the right side, the tolerance, the limit, the history's length, and what else is not as in the others.
// Cases: 0 settled within the limit; 1 settled at the last step that is allowed, with no word of the history to spare; 2 a step less allowed; 3 and 4 limits of 0 and 1;
// 5, 6, 7 a tolerance of 0, infinite, NaN; 8 to 12 a right side of 0, of -0, subnormal, just below epsilon, at epsilon; 13 A of zeros, so that p·Ap is 0;
// 14 an infinity in ap or pr; 15 a NaN in the right side; 16 a right side whose square overflows; 17 one whose square is below epsilon unless rows are summed apart, at N = 2.
ghost use Rattle.std.specs.Prelude.{◌≤◌};

use solver_calls::SolverCall;

// How many steps case 0 takes.
fn steps_of(call: SolverCall, dim: usize) -> u32
    ensures { (1 ≤ result) × (result ≤ 6) }
{
    if call == SolverCall::Preconditioned {
        return 2;
    }
    if dim == 1 { 4 } else { 6 }
}

pub fn limit_of(call: SolverCall, dim: usize, case: usize) -> u32
    ensures { result ≤ 8 }
{
    match case {
        1 => steps_of(call, dim),
        2 => steps_of(call, dim) - 1,
        3 => 0,
        4 => 1,
        _ => 8,
    }
}

pub fn history_of(call: SolverCall, dim: usize, case: usize) -> usize
    ensures { result ≤ 12 }
{
    if case != 1 {
        return 12;
    }
    let steps = steps_of(call, dim) as usize;
    if call == SolverCall::Preconditioned {
        steps + 2
    } else {
        steps
    }
}

pub fn tolerance_of(case: usize) -> f64 {
    match case {
        5 => 0.0,
        6 => 1.0 / 0.0,
        7 => 0.0 / 0.0,
        _ => 1.0 / 1024.0,
    }
}

// What A is multiplied by.
pub fn scale_of(case: usize) -> f64 {
    if case == 13 { 0.0 } else { 1.0 }
}

pub fn rising() -> [f64; 12] {
    [
        1.0, 2.0, 3.0, 4.0, 5.0, 6.0, 7.0, 8.0, 9.0, 10.0, 11.0, 12.0,
    ]
}

// The smallest doubles.
fn subnormals() -> [f64; 12] {
    [
        5.0e-324, 1.0e-323, 1.5e-323, 2.0e-323, 2.5e-323, 3.0e-323, 3.5e-323, 4.0e-323, 4.4e-323,
        5.0e-323, 5.4e-323, 6.0e-323,
    ]
}

fn beginning(a: f64, b: f64, c: f64, d: f64) -> [f64; 12] {
    [a, b, c, d, 0.0, 0.0, 0.0, 0.0, 0.0, 0.0, 0.0, 0.0]
}

fn with_second(x: f64) -> [f64; 12] {
    let mut words = rising();
    words[1] = x;
    words
}

pub fn right_side_of(case: usize) -> [f64; 12] {
    match case {
        8 => [0.0; 12],
        9 => [-0.0; 12],
        10 => subnormals(),
        11 => beginning(0.9999999999999999 / 67108864.0, 0.0, 0.0, 0.0),
        12 => beginning(1.0 / 67108864.0, 0.0, 0.0, 0.0),
        15 => with_second(0.0 / 0.0),
        16 => with_second(1.0e200),
        17 => beginning(
            1.1005372847165302e-08,
            1.004621189403787e-08,
            8.770761894538737e-17,
            8.770761894538737e-17,
        ),
        _ => rising(),
    }
}

// ap or pr as it is lent.
pub fn product_of(case: usize) -> [f64; 12] {
    let mut words = rising();
    if case == 14 {
        words[0] = 1.0 / 0.0;
    }
    words
}
