// How many values a block has.
// This function asks of its caller that N is at most 3, so that no user calls it.
ghost use Rattle.std.specs.Prelude.{◌≡◌, ◌*◌, ◌≤◌};

pub fn square(n: usize) -> usize
    requires { n ≤ 3 }
    ensures { (result ≡ n * n) × (result ≤ 9) }
{
    n * n
}
