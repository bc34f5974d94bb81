// What a solve answers: document 01's count, last history number and pan verdict, or a refusal.
// The definitions and theorems of both solvers stand here; the crates above have the loops.
#![tactic(auto)]

ghost use Rattle.std.specs.Prelude.{◌≡◌};
ghost use Rattle.solvers.specs.Verdict.{preconditioned_verdict, plain_verdict};

// What a solve says of the pan: the right side was too small to solve for, a step's ratio fell below the tolerance, or none did.
#[derive(Clone, Copy)]
pub enum Verdict {
    Empty,
    Settled,
    Unsettled,
}

// The answer of a solve that was not refused.
#[derive(Clone, Copy)]
pub struct Solution {
    pub count: u32,
    pub last: f64,
    pub verdict: Verdict,
}

// The tolerance of a ratio.
#[derive(Clone, Copy)]
pub struct Tolerance(pub f64);

impl Tolerance {
    // 2^-52: a right side whose squared norm is below it is not solved for.
    pub const EPSILON: f64 = 2.220446049250313e-16;
}

impl Verdict {
    // The count of a preconditioned history that is empty but for its first norm.
    pub const EMPTY: u32 = 1;
    // By how much the count of one that no step ended passes the limit.
    pub const PAST_LIMIT: u32 = 2;

    // By the count alone: a last norm that comes twice is no sign of a steady pan.
    pub fn of_preconditioned(limit: u32, count: u32) -> Verdict
        ensures { result ≡ preconditioned_verdict limit count }
    {
        if count == Verdict::EMPTY {
            return Verdict::Empty;
        }
        if count < Verdict::PAST_LIMIT {
            return Verdict::Settled;
        }
        if count - Verdict::PAST_LIMIT == limit {
            return Verdict::Unsettled;
        }
        Verdict::Settled
    }

    pub fn of_plain(tolerance: f64, count: u32, last: f64) -> Verdict
        ensures { result ≡ plain_verdict tolerance count last }
    {
        if count == 0 {
            return Verdict::Empty;
        }
        if last < tolerance {
            return Verdict::Settled;
        }
        Verdict::Unsettled
    }
}
