// How many values a row and a block have at an N; a number that is no N counts as 3.
// The cases of every call take their lengths from these.
ghost use Rattle.std.specs.Prelude.{◌≤◌};

pub fn values_a_row(dim: usize) -> usize
    ensures { (1 ≤ result) × (result ≤ 3) }
{
    match dim {
        1 => 1,
        2 => 2,
        _ => 3,
    }
}

pub fn values_a_block(dim: usize) -> usize
    ensures { (1 ≤ result) × (result ≤ 9) }
{
    match dim {
        1 => 1,
        2 => 4,
        _ => 9,
    }
}
