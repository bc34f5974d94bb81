// What the entry points of the solvers answer: document 01's number, and of a solve its count, verdict and last history number.
// An answer of a solve becomes such numbers here, and `specs/` says what a call with N as a number and an entry point promise by them.
#![tactic(auto)]

ghost use Rattle.std.specs.Prelude.{◌≡◌};
ghost use Rattle.std.specs.Float.{binary64};
ghost use Rattle.solve_outcomes.specs.Numbers.{verdict_number, solved_of};

use answers::{Answer, Numbered};
use solvers::{Solution, Verdict};

// The verdict is 1 of Empty, 2 of Settled and 3 of Unsettled. After a refusal the count and the verdict are 0, and the last number is +0.0.
#[repr(C)]
#[derive(Clone, Copy)]
pub struct Solved {
    pub number: u32,
    pub count: u32,
    pub verdict: u32,
    pub last: f64,
}

// A verdict as a number.
fn verdict_number(verdict: Verdict) -> u32
    ensures { result ≡ verdict_number verdict }
{
    match verdict {
        Verdict::Empty => 1,
        Verdict::Settled => 2,
        Verdict::Unsettled => 3,
    }
}

// An answer of a solve as numbers.
pub fn solved_of(solve: Answer<Solution>) -> Solved
    ensures { result ≡ solved_of binary64 solve }
{
    match solve {
        Ok(solution) => {
            let verdict = solution.verdict;
            Solved {
                number: 0,
                count: solution.count,
                verdict: verdict_number(verdict),
                last: solution.last,
            }
        }
        Err(why) => Solved {
            number: why.number(),
            count: 0,
            verdict: 0,
            last: 0.0,
        },
    }
}
