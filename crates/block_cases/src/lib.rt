// Document 01's cases on blocks and roots: each is run by its number, and says its name, its answer and its values.
// Nothing is printed here, so that nothing is assumed; the program `cases` goes through the numbers.
#![tactic(auto)]

ghost use Rattle.std.specs.Prelude.{◌≤◌};

use answers::Answer;
use blocks::{NoInverse, One, Size, Three, Two, Values};

// Of the values the first `count` are the case's: no block has more than nine, and the programs keep no heap.
#[derive(Drop)]
pub struct Shown {
    pub name: &'static str,
    pub answer: Answer,
    values: [f64; 9],
    count: usize,
    ghost fits: { count ≤ 9 },
}

impl Shown {
    pub fn values(&self) -> &[f64] {
        &self.values[..self.count]
    }
}

// A case of few values, of a block or a vector.
fn shown_of<const COUNT: usize>(name: &'static str, answer: Answer, values: [f64; COUNT]) -> Shown
    requires { COUNT ≤ 9 }
{
    let mut room = [0.0; 9];
    for (place, value) in room.iter_mut().zip(values) {
        *place = value;
    }
    Shown {
        name,
        answer,
        values: room,
        count: COUNT,
    }
}

// A case that nothing refuses.
fn done<const COUNT: usize>(name: &'static str, values: [f64; COUNT]) -> Shown
    requires { COUNT ≤ 9 }
{
    shown_of(name, Ok(()), values)
}

// An inverse, or the block that has none.
fn inverted<const COUNT: usize>(
    name: &'static str,
    inverse: Result<[f64; COUNT], NoInverse<[f64; COUNT]>>,
) -> Shown
    requires { COUNT ≤ 9 }
{
    match inverse {
        Ok(block) => done(name, block),
        Err(why) => {
            let block = why.block;
            shown_of(name, Err(why.into()), block)
        }
    }
}

// The pivots that decompose will meet: rows (4, 2), (2, 5) and rows (1, 1), (1, 1).
pub fn pivot(case: usize) -> Shown {
    match case {
        0 => inverted("case 8, inverse of the first pivot 4", One::inverse([4.0])),
        1 => inverted(
            "case 9, inverse of the second pivot 1 - 1 * 1",
            One::inverse([1.0].subtract(One::product([1.0], [1.0]))),
        ),
        _ => inverted(
            "case 9 as one block of N = 2",
            Two::inverse([1.0, 1.0, 1.0, 1.0]),
        ),
    }
}

// The inverse of a block of N = 1, or that block.
fn inverse_or(a: [f64; 1]) -> [f64; 1] {
    match One::inverse(a) {
        Ok(inverse) => inverse,
        Err(why) => why.block,
    }
}

// What case 8 works out of its first pivot.
pub fn update(case: usize) -> Shown {
    let upper = One::product(inverse_or([4.0]), [2.0]);
    if case == 0 {
        return done("case 8, upper entry 0.25 * 2:", upper);
    }
    done(
        "case 8, second pivot 5 - 2 * 0.5:",
        [5.0].subtract(One::product([2.0], upper)),
    )
}

pub fn inverse(case: usize) -> Shown {
    match case {
        0 => inverted(
            "inverse of rows (1, 2), (3, 4)",
            Two::inverse([1.0, 3.0, 2.0, 4.0]),
        ),
        1 => inverted(
            "inverse of rows (1, 2, 3), (0, 1, 4), (5, 6, 0)",
            Three::inverse([1.0, 0.0, 5.0, 2.0, 1.0, 6.0, 3.0, 4.0, 0.0]),
        ),
        2 => inverted(
            "inverse of rows (1, 2, 3), (4, 5, 6), (7, 8, 9), refused",
            Three::inverse([1.0, 4.0, 7.0, 2.0, 5.0, 8.0, 3.0, 6.0, 9.0]),
        ),
        3 => inverted("inverse of -0, refused", One::inverse([-0.0])),
        4 => inverted("inverse of an infinity", One::inverse([1.0 / 0.0])),
        5 => inverted("inverse of the smallest double", One::inverse([5.0e-324])),
        6 => inverted("inverse of a NaN, not refused", One::inverse([0.0 / 0.0])),
        7 => inverted(
            "inverse of rows (inf, 0), (0, 1), whose determinant is inf",
            Two::inverse([1.0 / 0.0, 0.0, 0.0, 1.0]),
        ),
        _ => inverted(
            "inverse of rows (NaN, 0), (0, 1), not refused",
            Two::inverse([0.0 / 0.0, 0.0, 0.0, 1.0]),
        ),
    }
}

// 2^53 + 1 - 2^53, in rising index.
fn rising_sum() -> [f64; 3] {
    Three::apply(
        [
            9007199254740992.0,
            0.0,
            0.0,
            1.0,
            0.0,
            0.0,
            -9007199254740992.0,
            0.0,
            0.0,
        ],
        [1.0, 1.0, 1.0],
    )
}

pub fn product(case: usize) -> Shown {
    match case {
        0 => done(
            "sum of the one term -0 * 1, from +0 on:",
            One::apply([-0.0], [1.0]),
        ),
        1 => done(
            "row (2^53, 1, -2^53) times (1, 1, 1), in rising index:",
            rising_sum(),
        ),
        2 => done(
            "rows (1, 2), (3, 4) times rows (5, 6), (7, 8):",
            Two::product([1.0, 3.0, 2.0, 4.0], [5.0, 7.0, 6.0, 8.0]),
        ),
        _ => done("(1, -2, 3) scaled by -0.5:", [1.0, -2.0, 3.0].scale(-0.5)),
    }
}

pub fn root(case: usize) -> Shown {
    if case == 0 {
        return done("case 12, root of 2:", [root::square_root(2.0)]);
    }
    done("case 12, root of 2^-1074:", [root::square_root(5.0e-324)])
}
