// The exports of `host::element_calls`, as the crate's root says: each is the call of the same name, with the same promise.
ghost use Rattle.std.specs.Prelude.{◌≡◌, List, ◌++◌, ℕ, ◌/◌, length};
ghost use Rattle.std.specs.Float.{binary64};
ghost use Rattle.elements.specs.Assembly.{merged, csrdia_of, blkcsr_of};
ghost use Rattle.elements.specs.Checks.{merge_checks, csrdia_checks, blkcsr_checks};
ghost use Rattle.wire.specs.Bytes.{values_in, bytes_of};
ghost use Rattle.wire.specs.Words.{indexes_in};
ghost use Rattle.pattern_bytes.specs.Checks.{byte_checks};
ghost use Rattle.entry_bytes.specs.Checks.{misshapen_blkcsr};
ghost use Rattle.assembly_bytes.specs.Ways.{lists_in, bytes_of_lists};
ghost use Rattle.element_bytes.specs.Checks.{misshapen_merge, misshapen_csrdia};
ghost use Rattle.outcomes.specs.Calls.{Finished};

use outcomes::Outcome;

// The same node place goes to the diagonal, other pairs to the entry.
#[unsafe(no_mangle)]
pub extern "C" fn pierbramble_merge(
    dim: u32,
    nodes: &[u8],
    element: &[u8],
    offsets: &[u8],
    columns: &[u8],
    diagonal: &mut [u8],
    values: &mut [u8],
) -> Outcome
    ensures { (Finished {A = List ℕ × List ℕ}
        (byte_checks (length offsets.now) (length columns.now) (misshapen_merge dim (length nodes.now) (length element.now) (length offsets.now) (length columns.now) (length diagonal.old) (length values.old))
        ++ merge_checks dim (indexes_in nodes.now) (length element.now / 8) (indexes_in offsets.now) (indexes_in columns.now) (length diagonal.old / 8) (length values.old / 8))
        result.number
        (bytes_of_lists binary64 (merged binary64 dim (indexes_in nodes.now) (values_in binary64 element.now) (indexes_in offsets.now) (indexes_in columns.now) (lists_in binary64 diagonal.old values.old)))
        (diagonal.old, values.old) (diagonal.new, values.new)) × (result.row ≡ 0) }
{
    host::element_calls::pierbramble_merge(dim, nodes, element, offsets, columns, diagonal, values)
}

// Equal row and column numbers, not places, go to the diagonal. N is 1.
#[unsafe(no_mangle)]
pub extern "C" fn pierbramble_csrdia(
    rows: &[u8],
    cols: &[u8],
    element: &[u8],
    offsets: &[u8],
    columns: &[u8],
    diagonal: &mut [u8],
    values: &mut [u8],
) -> Outcome
    ensures { (Finished {A = List ℕ × List ℕ}
        (byte_checks (length offsets.now) (length columns.now) (misshapen_csrdia (length rows.now) (length cols.now) (length element.now) (length offsets.now) (length columns.now) (length diagonal.old) (length values.old))
        ++ csrdia_checks (indexes_in rows.now) (indexes_in cols.now) (length element.now / 8) (indexes_in offsets.now) (indexes_in columns.now) (length diagonal.old / 8) (length values.old / 8))
        result.number
        (bytes_of_lists binary64 (csrdia_of binary64 (indexes_in rows.now) (indexes_in cols.now) (values_in binary64 element.now) (indexes_in offsets.now) (indexes_in columns.now) (lists_in binary64 diagonal.old values.old)))
        (diagonal.old, values.old) (diagonal.new, values.new)) × (result.row ≡ 0) }
{
    host::element_calls::pierbramble_csrdia(rows, cols, element, offsets, columns, diagonal, values)
}

// Every pair goes to an entry, own column included.
#[unsafe(no_mangle)]
pub extern "C" fn pierbramble_blkcsr(
    dim: u32,
    rows: &[u8],
    cols: &[u8],
    element: &[u8],
    offsets: &[u8],
    columns: &[u8],
    values: &mut [u8],
) -> Outcome
    ensures { (Finished
        (byte_checks (length offsets.now) (length columns.now) (misshapen_blkcsr dim (length rows.now) (length cols.now) (length element.now) (length offsets.now) (length columns.now) (length values.old))
        ++ blkcsr_checks dim (indexes_in rows.now) (indexes_in cols.now) (length element.now / 8) (indexes_in offsets.now) (indexes_in columns.now) (length values.old / 8))
        result.number
        (bytes_of binary64 (blkcsr_of binary64 dim (indexes_in rows.now) (indexes_in cols.now) (values_in binary64 element.now) (indexes_in offsets.now) (indexes_in columns.now) (values_in binary64 values.old)))
        values.old values.new) × (result.row ≡ 0) }
{
    host::element_calls::pierbramble_blkcsr(dim, rows, cols, element, offsets, columns, values)
}
