// The vectors of a solver read from their bytes, and what a solve left of them written back.
// These functions ask that the lengths have been compared, so that no user calls them.
ghost use Rattle.std.specs.Prelude.{◌≡◌, ◌*◌, ◌≤◌, length, take};
ghost use Rattle.std.specs.Float.{binary64};
ghost use Rattle.lent.specs.Steps.{Dim};
ghost use Rattle.solvers.specs.Checks.{wrong_vectors};
ghost use Rattle.solvers.specs.Promise.{lent_of};
ghost use Rattle.wire.specs.Bytes.{values_in, bytes_of};
ghost use Rattle.solver_bytes.specs.Lent.{bytes_lent, over_bytes};
ghost use Rattle.solver_bytes.specs.Rooms.{FilledVectors, DecodedVectors, count_of, written_back};

use answers::Answer;
use blocks::{One, Three, Two};
use matrix_bytes::unchecked::decode_both;
use solvers::Solution;
use wire::unchecked::encode;

// Four vectors, decoded into room that has as many words.
pub fn decode_vectors(
    residual: &mut [f64],
    solution: &mut [f64],
    product: &mut [f64],
    direction: &mut [f64],
    r: &[u8],
    x: &[u8],
    q: &[u8],
    p: &[u8],
)
    requires { FilledVectors (length residual.old) (length solution.old) (length product.old) (length direction.old) (length r.now) (length x.now) (length q.now) (length p.now) }
    ensures { DecodedVectors binary64 residual.new solution.new product.new direction.new r.now x.now q.now p.now }
{
    decode_both(residual, solution, r, x);
    decode_both(product, direction, q, p);
}

// Two slices of values, encoded over bytes that have as many words.
fn encode_both(r: &mut [u8], x: &mut [u8], first: &[f64], second: &[f64])
    requires { (length r.old ≡ 8 * length first.now) × (length x.old ≡ 8 * length second.now) }
    ensures { (r.new ≡ bytes_of binary64 first.now) × (x.new ≡ bytes_of binary64 second.now) }
{
    encode(first, r);
    encode(second, x);
}

// The first `count` numbers over the first words of the history.
fn write_numbers(history: &mut [u8], count: usize, numbers: &[f64])
    requires { (count ≤ length numbers.now) × (8 * count ≤ length history.old) }
    ensures { history.new ≡ over_bytes (bytes_of binary64 (take count numbers.now)) history.old }
{
    encode(&numbers[..count], &mut history[..8 * count]);
}

// What a solve left of the words, over the bytes that they came from. Those of a refused call stay as they are: a NaN among them would come back as other bytes.
pub fn write_back(
    r: &mut [u8],
    x: &mut [u8],
    q: &mut [u8],
    p: &mut [u8],
    history: &mut [u8],
    solve: Answer<Solution>,
    residual: &[f64],
    solution: &[f64],
    product: &[f64],
    direction: &[f64],
    numbers: &[f64],
)
    requires { (FilledVectors (length residual.now) (length solution.now) (length product.now) (length direction.now) (length r.old) (length x.old) (length q.old) (length p.old))
        × (count_of solve ≤ length numbers.now) × (8 * length numbers.now ≤ length history.old) }
    ensures { bytes_lent r.new x.new q.new p.new history.new
        ≡ written_back binary64 solve (lent_of residual.now solution.now product.now direction.now numbers.now)
        (bytes_lent r.old x.old q.old p.old history.old) }
{
    match solve {
        Ok(ended) => {
            encode_both(r, x, residual, solution);
            encode_both(q, p, product, direction);
            write_numbers(history, ended.count as usize, numbers);
        }
        Err(_) => {}
    }
}

// Whether one of four vectors has not N values to a row, where N is a number.
pub fn are_wrong_vectors(dim: u32, rows: usize, r: usize, x: usize, q: usize, p: usize) -> bool
    requires { (Dim dim) × (rows ≤ 4096) }
    ensures { result ≡ wrong_vectors rows dim r x q p }
{
    match dim {
        1 => advancing::unchecked::are_wrong_vectors::<One>(rows, r, x, q, p),
        2 => advancing::unchecked::are_wrong_vectors::<Two>(rows, r, x, q, p),
        _ => advancing::unchecked::are_wrong_vectors::<Three>(rows, r, x, q, p),
    }
}
