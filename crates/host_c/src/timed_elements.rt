// The exports of `host::timed_elements`, as the crate's root says: each is the call of the same name, with the same promise.
ghost use Rattle.std.specs.Prelude.{◌++◌, length};
ghost use Rattle.std.specs.Float.{binary64};
ghost use Rattle.elements.specs.Assembly.{Lists, merged};
ghost use Rattle.elements.specs.Checks.{merge_checks};
ghost use Rattle.numbered.specs.Checks.{dim_checks};
ghost use Rattle.outcomes.specs.Calls.{Finished};

#[unsafe(no_mangle)]
pub extern "C" fn pierbramble_timed_merge(
    dim: u32,
    nodes: &[u32],
    element: &[f64],
    offsets: &[u32],
    columns: &[u32],
    diagonal: &mut [f64],
    values: &mut [f64],
) -> u32
    ensures { Finished {A = Lists}
        (dim_checks dim (length offsets.now) (length columns.now) ++ merge_checks dim nodes.now (length element.now) offsets.now columns.now (length diagonal.old) (length values.old))
        result
        (merged binary64 dim nodes.now element.now offsets.now columns.now (diagonal.old, values.old))
        (diagonal.old, values.old) (diagonal.new, values.new) }
{
    host::timed_elements::pierbramble_timed_merge(
        dim, nodes, element, offsets, columns, diagonal, values,
    )
}
