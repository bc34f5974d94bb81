// Assembly on words, for a benchmark: no bytes are coded, so that none are timed. It is the public call at its N.
// What it answers is its number, 2 for an N other than 1, 2, 3 whose pattern is not too large.
ghost use Rattle.std.specs.Prelude.{◌++◌, length};
ghost use Rattle.std.specs.Float.{binary64};
ghost use Rattle.elements.specs.Assembly.{Lists, merged};
ghost use Rattle.elements.specs.Checks.{merge_checks};
ghost use Rattle.numbered.specs.Checks.{dim_checks};
ghost use Rattle.outcomes.specs.Calls.{Finished};

use answers::Numbered;

pub fn pierbramble_timed_merge(
    dim: u32,
    nodes: &[u32],
    element: &[f64],
    offsets: &[u32],
    columns: &[u32],
    diagonal: &mut [f64],
    values: &mut [f64],
) -> u32
    ensures { Finished {A = Lists}
        (dim_checks dim (length offsets.now) (length columns.now) ++ merge_checks dim nodes.now (length element.now) offsets.now columns.now (length diagonal.old) (length values.old))
        result
        (merged binary64 dim nodes.now element.now offsets.now columns.now (diagonal.old, values.old))
        (diagonal.old, values.old) (diagonal.new, values.new) }
{
    numbered::merge(dim, nodes, element, offsets, columns, diagonal, values).number()
}
