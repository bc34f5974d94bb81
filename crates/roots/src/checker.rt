// Whether a double is the nearest to the root of another, decided from their bits by comparing squares of whole numbers.
// The checker finds no root. It is shown one, and products of two words are all that it computes.
ghost use Rattle.std.specs.Prelude.{◌≡◌, ◌+◌, ◌*◌, ◌^◌, ◌<◌, ◌≤◌};
ghost use Rattle.roots.specs.Checker.{lower_factor, nearest, moved_up, digits_of, exponent_of, nearest_bits};

// 2^52: the leading one of a double's 53 binary digits, and the weight of the exponent's field.
const LEADING: u64 = 0x0010_0000_0000_0000;

// Below 2^52 doubles are half as far apart, so there the middle is half as far from q.
fn lower_factor(q: u64) -> u64
    requires { (2 ^ 52 ≤ q) × (q < 2 ^ 53) }
    ensures { (result ≡ lower_factor q) × (result < 2 ^ 55) }
{
    if q == LEADING { 2 * q } else { 2 * q - 1 }
}

// Whether q, of 53 digits, is nearest to the root of n, given 4n / 2^53.
fn nearest_digits(scaled: u64, q: u64) -> bool
    requires { (scaled < 2 ^ 55) × (2 ^ 52 ≤ q) × (q < 2 ^ 53) }
    ensures { result ≡ nearest (scaled * 2 ^ 53) q }
{
    let below = u128::from(2 * q - 1);
    let above = u128::from(2 * q + 1);
    let four_n = u128::from(scaled) * u128::from(LEADING * 2);
    below * u128::from(lower_factor(q)) < four_n && four_n < above * above
}

// digits * 2^places, or 0 if that is 2^55 or more.
fn moved_up(digits: u64, places: u64) -> u64
    requires { digits < 2 ^ 53 }
    ensures { (result ≡ moved_up digits places) × (result < 2 ^ 55) }
{
    let mut moved = digits;
    for _k in 0..places {
        if moved >= LEADING * 4 {
            return 0;
        }
        moved = moved * 2;
    }
    moved
}

// A finite number with the sign clear is digits_of * 2^(exponent_of - 1075).
fn digits_of(bits: u64) -> u64
    ensures { (result ≡ digits_of bits) × (result < 2 ^ 53) }
{
    if bits < LEADING {
        bits
    } else {
        bits % LEADING + LEADING
    }
}

fn exponent_of(bits: u64) -> u64
    ensures { (result ≡ exponent_of bits) × (result < 4096) }
{
    if bits < LEADING { 1 } else { bits / LEADING }
}

// Whether the bits r are those of the double nearest to the root of x, for the bits x of a finite
// number above zero. With r = q * 2^e and x = n * 2^(2e), 4n / 2^53 is x's digits moved up.
pub fn is_nearest(x: u64, r: u64) -> bool
    ensures { result ≡ nearest_bits x r }
{
    // no root of a double is subnormal, and none is an infinity
    if r < LEADING || r >= 2047 * LEADING {
        return false;
    }
    let up = exponent_of(x) + 1024;
    let down = 2 * exponent_of(r);
    if down > up {
        return false;
    }
    let scaled = moved_up(digits_of(x), up - down);
    nearest_digits(scaled, r % LEADING + LEADING)
}
