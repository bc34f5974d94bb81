// What the solvers on lent bytes share: 8 bytes to a value, the low byte first. Four vectors and a history, read from their bytes and written back.
// A history is only written: its first `count` words, and no other byte of it changes.
#![tactic(auto)]

pub mod unchecked;

ghost use Rattle.std.specs.Prelude.{◌≡◌};
ghost use Rattle.solver_bytes.specs.Checks.{broken_vectors};

use pattern_bytes::is_broken_value;

// Whether a slice of values has bytes that make no whole words.
pub fn are_broken_vectors(r: usize, x: usize, q: usize, p: usize, history: usize) -> bool
    ensures { result ≡ broken_vectors r x q p history }
{
    if is_broken_value(r) {
        return true;
    }
    if is_broken_value(x) {
        return true;
    }
    if is_broken_value(q) {
        return true;
    }
    if is_broken_value(p) {
        return true;
    }
    is_broken_value(history)
}
