// The groups of roots that need no input. The loops go over bits, so that they meet every exponent.
// A root that is known is compared, and any other is judged by the checker.
ghost use Rattle.std.specs.Prelude.{◌^◌, ◌<◌, ◌≤◌};

use crate::tally::Tally;
use words::bits_of;

// 2^52: the weight of the exponent's field, and so the distance of the bits of two powers of two.
const FIELD: u64 = 0x0010_0000_0000_0000;

// Document 01, case 12: the roots of 2 and of 2^-1074, whose root is 2^-537.
pub fn case_12() -> Tally {
    let mut t = Tally::default();
    t.compare(0x4000_0000_0000_0000, 0x3ff6_a09e_667f_3bcd);
    t.compare(1, 486 * FIELD);
    t
}

// Both doubles beside x.
fn judge_beside(t: &mut Tally, x: u64) {
    t.judge(x.wrapping_sub(1));
    t.judge(x.wrapping_add(1));
}

fn judge_around(t: &mut Tally, x: u64) {
    t.judge(x);
    judge_beside(t, x);
}

// Every power of two, subnormal ones first, with both neighbours.
pub fn powers() -> Tally {
    let mut t = Tally::default();
    for place in 0..52u32 {
        judge_around(&mut t, 1 << place);
    }
    for field in 1..2047 {
        judge_around(&mut t, field * FIELD);
    }
    t
}

// 52 binary digits that look random, by two steps of a multiplicative hash.
fn mixed(seed: u64) -> u64
    requires { seed < 32768 }
    ensures { result < 2 ^ 52 }
{
    let a = seed * 2654435761 % 0x1_0000_0000;
    let b = (a * 2246822519 + 374761393) % 0x1_0000_0000;
    a * 0x10_0000 + b / 0x1000
}

// 16 numbers at every exponent, subnormal ones included.
pub fn every_exponent() -> Tally {
    let mut t = Tally::default();
    for field in 0..2047 {
        for i in 0..16 {
            t.judge(field * FIELD + mixed(field * 16 + i));
        }
    }
    t
}

fn bits_of_whole(n: u64) -> u64 {
    bits_of(std::num::nearest_u64_to_f64(n))
}

// k * k is below 2^53, so it is a double and its root is k exactly. And both its neighbours.
// 94,906,265 is the whole part of the root of 2^53.
fn judge_square(t: &mut Tally, k: u64)
    requires { k ≤ 94906265 }
{
    let x = bits_of_whole(k * k);
    t.compare(x, bits_of_whole(k));
    judge_beside(t, x);
}

// Squares of 1 to 2000, and of as many larger numbers in equal steps.
pub fn squares() -> Tally {
    let mut t = Tally::default();
    for i in 1..2001 {
        judge_square(&mut t, i);
        judge_square(&mut t, i * 47453);
    }
    t
}

// Zeros and plus infinity give themselves, and what is below zero and a NaN give a NaN.
pub fn special() -> Tally {
    let minus = 0x8000_0000_0000_0000;
    let infinity = 0x7ff0_0000_0000_0000;
    let nan = 0x7ff8_0000_0000_0000;
    let mut t = Tally::default();
    for x in [0, minus, infinity] {
        t.compare(x, x);
    }
    for x in [
        minus + infinity,
        nan,
        minus + nan,
        minus + 1,
        minus + FIELD,
        minus + 1023 * FIELD,
        minus + 2047 * FIELD - 1,
    ] {
        t.compare(x, nan);
    }
    t
}
