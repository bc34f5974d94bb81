// The words of every call: what it answers, and the limits that it holds its input to.
// The numbers are document 01's; `specs/Numbers.antt` says which case has which.
#![tactic(auto)]

ghost use Rattle.std.specs.Prelude.{◌≡◌, ℕ};
ghost use Rattle.answers.specs.Numbers.{number_of, row_of, refusal_number, refusal_row};
ghost use Rattle.answers.specs.Checks.{first_of};
ghost use Rattle.answers.specs.Limits.{outside_of, rows_out_of_range, entries_out_of_range, nodes_out_of_range, iterations_out_of_range, is_place, wrong_length, vector_checks};

// Why a call refuses, one case for each of document 01's numbers, in its checking order.
#[derive(Clone, Copy, Debug, PartialEq, Eq)]
pub enum Refusal {
    Size,
    Limit,
    Shape,
    Pattern,
    Split,
    Node,
    NoEntry,
    NoPlace,
    Level,
    Room,
    Singular(u32),
}

// What a call answers: what it found, or why it refuses. A call that has nothing else to say answers `Ok(())`.
pub type Answer<T = ()> = Result<T, Refusal>;

// 0 if the call is done, else the number of its refusal, and the row that goes with it.
pub trait Numbered {
    ghost number: { Self → ℕ };

    ghost row: { Self → ℕ };

    fn number(self) -> u32
        ensures { result ≡ number self };

    fn row(self) -> u32
        ensures { result ≡ row self };
}

// Whether x is below the least number of a range or above the most.
fn outside(least: usize, most: usize, x: usize) -> bool
    ensures { result ≡ outside_of least most x }
{
    if x < least {
        return true;
    }
    x > most
}

// A number of rows: 1 to 4,096.
#[derive(Clone, Copy)]
pub struct Rows(pub usize);

impl Rows {
    pub const MOST: usize = 4096;

    pub fn out_of_range(self) -> bool
        ensures { result ≡ rows_out_of_range self.0 }
    {
        outside(1, Rows::MOST, self.0)
    }
}

// A number of entries of a pattern: 0 to 65,535.
#[derive(Clone, Copy)]
pub struct Entries(pub usize);

impl Entries {
    pub const MOST: usize = 65535;

    pub fn out_of_range(self) -> bool
        ensures { result ≡ entries_out_of_range self.0 }
    {
        outside(0, Entries::MOST, self.0)
    }
}

// A number of nodes of an element: 1 to 8.
#[derive(Clone, Copy)]
pub struct Nodes(pub usize);

impl Nodes {
    pub const MOST: usize = 8;

    pub fn out_of_range(self) -> bool
        ensures { result ≡ nodes_out_of_range self.0 }
    {
        outside(1, Nodes::MOST, self.0)
    }
}

// A limit of iterations: 0 to 4,096.
#[derive(Clone, Copy)]
pub struct Iterations(pub usize);

impl Iterations {
    pub const MOST: usize = 4096;

    pub fn out_of_range(self) -> bool
        ensures { result ≡ iterations_out_of_range self.0 }
    {
        outside(0, Iterations::MOST, self.0)
    }
}

// An index of a row, a column or a place in the columns. The largest number is none: it says that there is no place.
#[derive(Clone, Copy)]
pub struct Index(pub u32);

impl Index {
    pub const NO_PLACE: u32 = 4294967295;

    pub fn is_place(self) -> bool
        ensures { result ≡ is_place self.0 }
    {
        self.0 != Index::NO_PLACE
    }
}

impl Refusal {
    // The number that document 01 gives the case.
    pub fn number(self) -> u32
        ensures { result ≡ refusal_number self }
    {
        match self {
            Refusal::Size => 1,
            Refusal::Limit => 10,
            Refusal::Shape => 2,
            Refusal::Pattern => 3,
            Refusal::Split => 11,
            Refusal::Node => 6,
            Refusal::NoEntry => 7,
            Refusal::NoPlace => 8,
            Refusal::Level => 5,
            Refusal::Room => 4,
            Refusal::Singular(_) => 9,
        }
    }

    // The row that 9 carries, and 0 for a case that carries none.
    pub fn row(self) -> u32
        ensures { result ≡ refusal_row self }
    {
        match self {
            Refusal::Singular(row) => row,
            _ => 0,
        }
    }
}

impl<T: Copy> Numbered for Answer<T> {
    ghost number = { number_of };

    ghost row = { row_of };

    fn number(self) -> u32 {
        match self {
            Ok(_) => 0,
            Err(why) => why.number(),
        }
    }

    fn row(self) -> u32 {
        match self {
            Ok(_) => 0,
            Err(why) => why.row(),
        }
    }
}

// Whether `length` is not that of a vector of n rows with `dim` values each.
fn wrong_length(n: u32, dim: u32, length: usize) -> bool
    ensures { result ≡ wrong_length n dim length }
{
    length as u64 != (dim as u64) * (n as u64)
}

// The checks of a call that is given n and one vector of `dim` values a row: 1, then 2.
pub fn check_vector(n: u32, dim: u32, length: usize) -> Answer
    ensures { number_of result ≡ first_of (vector_checks n dim length) }
{
    if Rows(n as usize).out_of_range() {
        return Err(Refusal::Size);
    }
    if wrong_length(n, dim, length) {
        return Err(Refusal::Shape);
    }
    Ok(())
}
