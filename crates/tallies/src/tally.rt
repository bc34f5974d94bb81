// Counts of cases and of wrong ones, call by call.
// Only the first wrong line is kept: the list is short, and the case stands in it.
use crate::calls::Call;
use std::fmt;

#[derive(Clone, Copy, Default)]
pub struct Count {
    cases: u64,
    wrong: u64,
}

impl fmt::Display for Count {
    fn fmt<W: fmt::Write>(&self, f: &mut fmt::Formatter<W>) -> fmt::Result {
        write!(f, "{} cases, {} wrong", self.cases, self.wrong)
    }
}

// The counts stand in the order of the calls, and lines are named by their numbers.
#[derive(Drop)]
pub struct Tally {
    pub counts: [Count; 35],
    pub malformed: u64,
    pub first_wrong: Option<usize>,
    pub first_malformed: Option<usize>,
}

impl Tally {
    pub fn new() -> Self {
        Tally {
            counts: [Count::default(); 35],
            malformed: 0,
            first_wrong: None,
            first_malformed: None,
        }
    }

    pub fn add_malformed(&mut self, number: usize) {
        self.malformed = self.malformed.wrapping_add(1);
        self.first_malformed.get_or_insert(number);
    }

    pub fn add_case(&mut self, call: Call, agrees: bool, number: usize) {
        for (count, listed) in self.counts.iter_mut().zip(Call::ALL.iter()) {
            if *listed == call {
                count.cases = count.cases.wrapping_add(1);
                count.wrong = count.wrong.wrapping_add(u64::from(!agrees));
            }
        }
        if !agrees {
            self.first_wrong.get_or_insert(number);
        }
    }
}
