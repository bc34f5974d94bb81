// What the entry points for a host answer: document 01's number, the row that 9 carries, and the sum of a dot product.
// An answer of a call becomes an outcome here, and `specs/` says what an entry point promises by it.
#![tactic(auto)]

ghost use Rattle.std.specs.Prelude.{◌≡◌};
ghost use Rattle.std.specs.Float.{binary64};
ghost use Rattle.answers.specs.Numbers.{number_of, row_of};
ghost use Rattle.outcomes.specs.Sums.{sum_of};

use answers::{Answer, Numbered};

// What every entry point answers: document 01's number, and the row that 9 carries.
#[repr(C)]
#[derive(Clone, Copy)]
pub struct Outcome {
    pub number: u32,
    pub row: u32,
}

// What the entry point of a dot product answers: an outcome, and the sum, which is +0.0 if the call is refused.
#[repr(C)]
#[derive(Clone, Copy)]
pub struct Summed {
    pub number: u32,
    pub row: u32,
    pub sum: f64,
}

// An answer as the numbers of an outcome.
pub fn outcome_of(answer: Answer) -> Outcome
    ensures { (result.number ≡ number_of answer) × (result.row ≡ row_of answer) }
{
    Outcome {
        number: answer.number(),
        row: answer.row(),
    }
}

// An answer as an outcome without a row.
pub fn rowless(answer: Answer) -> Outcome
    ensures { (result.number ≡ number_of answer) × (result.row ≡ 0) }
{
    Outcome {
        number: answer.number(),
        row: 0,
    }
}

// The same of a dot product.
pub fn summed_of(dot: Answer<f64>) -> Summed
    ensures { (result.number ≡ number_of dot) × (result.row ≡ 0) × (result.sum ≡ sum_of binary64 dot) }
{
    match dot {
        Ok(sum) => Summed {
            number: 0,
            row: 0,
            sum,
        },
        Err(why) => Summed {
            number: why.number(),
            row: 0,
            sum: 0.0,
        },
    }
}
