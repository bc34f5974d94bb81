// The square root of a double, to the nearest one, worked in whole numbers: nothing is rounded before the last digit.
// A number's binary digits are scaled by a power of four, their root is taken digit by digit, and half the power is the root's exponent.
#![tactic(auto)]

ghost use Rattle.std.specs.Prelude.{◌≡◌, true, cond, ◌+◌, ◌-◌, ◌*◌, ◌^◌, ◌<◌, ◌≤◌, leb};
ghost use Rattle.std.specs.Float.{binary64};
ghost use Rattle.std.specs.Float.Ieee.{lt, of_bits};
ghost use Rattle.root.specs.Root.{Rooted};
ghost use Rattle.root.specs.Sqrt.{sqrt};
ghost use Rattle.root.specs.Integers.{FloorRoot, NearestRoot, units_of_bits, infinity_bits, Scaled, RootBits};

// A double has 53 binary digits, and 52 of them stand after the leading one.
const DIGITS: u64 = 53;

const PLACES: u64 = 52;

// 2^52: the leading digit where it stands, and the weight of the exponent's field in the bits.
const LEADING: u64 = 0x0010_0000_0000_0000;

// The bits of plus infinity. Those of a finite number with the sign clear are below.
const INFINITY: u64 = 0x7ff0_0000_0000_0000;

// (1074 - 2 * 52) / 2: the smallest double is 2^-1074, and the digits that the root is taken of have 2 * 52 places.
const ROOT_EXPONENT: u64 = 485;

// A whole number's root, to the whole number below it, and what the number has above the square of that.
#[derive(Clone, Copy)]
struct Floor {
    root: u64,
    left: u64,
}

// The next digit of a root: a 1 costs the price. The loop below does not branch on it, since half of
// the branches would be guessed wrong and it would be three times as slow.
fn next_digit(left: u64, price: u64) -> u64
    ensures { (result ≡ cond (leb price left) 1 0) × (result ≤ 1) }
{
    u64::from(left >= price)
}

// What is left when the next digit is paid for.
fn next_left(left: u64, price: u64) -> u64
    ensures { result ≡ cond (leb price left) (left - price) left }
{
    if left >= price { left - price } else { left }
}

// The whole part of the root of a * 2^52, as on paper: each turn brings down two binary digits of the
// number and finds one of the root. (2 * root + 1)^2 is 4 * root + 1 above (2 * root)^2.
fn floor_root(a: u64) -> Floor
    requires { a < 2 ^ 54 }
    ensures { (FloorRoot (a * 2 ^ 52) result.root result.left) × (result.root < 2 ^ 53) }
{
    let mut root: u64 = 0;
    let mut left: u64 = 0;
    let mut rest: u64 = a;
    for _turn in 0..DIGITS {
        let brought = left * 4 + rest / LEADING;
        let price = root * 4 + 1;
        rest = rest % LEADING * 4;
        root = root * 2 + next_digit(brought, price);
        left = next_left(brought, price);
    }
    Floor { root, left }
}

// The whole number nearest to the root of a * 2^52: one up if the number is above root * (root + 1),
// which is a quarter below the middle's square. There is no tie.
fn nearest_root(a: u64) -> u64
    requires { (2 ^ 52 ≤ a) × (a + 1 < 2 ^ 54) }
    ensures { (NearestRoot (a * 2 ^ 52) result) × (2 ^ 52 ≤ result) × (result < 2 ^ 53) }
{
    let floor = floor_root(a);
    if floor.left > floor.root {
        floor.root + 1
    } else {
        floor.root
    }
}

// A number as digits * 4^fours.
#[derive(Clone, Copy)]
struct Fours {
    digits: u64,
    fours: u64,
}

// The bits of a subnormal number are its digits. They are moved up two places at a time.
fn scale_subnormal(bits: u64) -> Fours
    requires { (0 < bits) × (bits < 2 ^ 52) }
    ensures { Scaled binary64 (bits * 2 ^ 52) result.digits result.fours }
{
    let mut digits: u64 = bits;
    let mut fours: u64 = PLACES / 2;
    // a `while`, since the digits say when to stop, and not a count
    while digits < LEADING {
        digits = digits * 4;
        fours = fours - 1;
    }
    Fours { digits, fours }
}

// What the bits stand for, in units of the smallest double, times 2^52. An odd power of two leaves a
// factor of two to the digits.
fn scale(bits: u64) -> Fours
    requires { (0 < bits) × (bits < infinity_bits binary64) }
    ensures { Scaled binary64 (units_of_bits binary64 bits * 2 ^ 52) result.digits result.fours }
{
    if bits < LEADING {
        return scale_subnormal(bits);
    }
    let power = bits / LEADING - 1 + PLACES;
    let digits = bits % LEADING + LEADING;
    let fours = power / 2;
    if power % 2 == 0 {
        return Fours { digits, fours };
    }
    Fours {
        digits: digits * 2,
        fours,
    }
}

// The bits of the root of a finite number above zero. The leading digit of the root adds one to the
// exponent's field, as it should.
fn root_bits(bits: u64) -> u64
    requires { (0 < bits) × (bits < infinity_bits binary64) }
    ensures { RootBits binary64 bits result }
{
    let scaled = scale(bits);
    let root = nearest_root(scaled.digits);
    (scaled.fours + ROOT_EXPONENT) * LEADING + root
}

// The root of a number above zero. Plus infinity gives itself.
fn positive_root(x: f64) -> f64
    requires { lt (of_bits binary64 0) x ≡ true }
    ensures { Rooted binary64 x result }
{
    let bits = f64::to_bits(x);
    if bits >= INFINITY {
        return x;
    }
    f64::from_bits(root_bits(bits))
}

// The root of x, to the nearest double. Both zeros and plus infinity give themselves, and a negative
// number or a NaN gives a NaN.
pub fn square_root(x: f64) -> f64
    ensures { (result ≡ sqrt binary64 x) × (Rooted binary64 x result) }
{
    if x > 0.0 {
        return positive_root(x);
    }
    if x < 0.0 {
        return 0.0 / 0.0;
    }
    x
}
