// Document 01's `merge` and `csrdia` on lent bytes, with N as a number: 4 bytes to an index, 8 to a value, the low byte first.
// Bytes that make no whole words, or an N other than 1, 2, 3, are 2, after 1. Any other call is that of `elements` on the words that the bytes hold.
#![tactic(auto)]

ghost use Rattle.std.specs.Prelude.{◌≡◌, List, ◌++◌, ◌||◌, ℕ, ◌/◌, length};
ghost use Rattle.std.specs.Float.{binary64};
ghost use Rattle.answers.specs.Numbers.{number_of};
ghost use Rattle.answers.specs.Checks.{first_of};
ghost use Rattle.answers.specs.Limits.{outside_of};
ghost use Rattle.answers.specs.Promise.{Ends};
ghost use Rattle.elements.specs.Assembly.{assembled, merged, csrdia_of};
ghost use Rattle.elements.specs.Checks.{assembly_checks, merge_checks, csrdia_checks};
ghost use Rattle.wire.specs.Bytes.{values_in};
ghost use Rattle.wire.specs.Words.{indexes_in};
ghost use Rattle.pattern_bytes.specs.Checks.{byte_checks};
ghost use Rattle.assembly_bytes.specs.Ways.{lists_in, bytes_of_lists, rule_of, Called};
ghost use Rattle.element_bytes.specs.Checks.{broken_assembly, misshapen_merge, misshapen_csrdia, assembly_lengths};

use answers::Answer;
use assembly_bytes::unchecked::{Call, assemble_lent};
use entry_bytes::is_misshapen_entries;
use numbered::unchecked::check_element_lengths;
use pattern_bytes::{check_bytes, is_broken_value};

fn is_misshapen_assembly(
    dim: u32,
    rows: usize,
    cols: usize,
    element: usize,
    offsets: usize,
    columns: usize,
    diagonal: usize,
    values: usize,
) -> bool
    ensures { result ≡ outside_of 1 3 dim || broken_assembly rows cols element offsets columns diagonal values }
{
    if is_misshapen_entries(dim, rows, cols, element, offsets, columns, values) {
        return true;
    }
    is_broken_value(diagonal)
}

// The checks of a call by the lengths of its bytes.
fn check_assembly(
    dim: u32,
    rows: usize,
    cols: usize,
    element: usize,
    offsets: usize,
    columns: usize,
    diagonal: usize,
    values: usize,
) -> Answer
    ensures { number_of result ≡ first_of (assembly_lengths dim rows cols element offsets columns diagonal values) }
{
    let misshapen = is_misshapen_assembly(
        dim, rows, cols, element, offsets, columns, diagonal, values,
    );
    check_bytes(offsets, columns, misshapen)?;
    check_element_lengths(
        dim,
        rows / 4,
        cols / 4,
        element / 8,
        offsets / 4,
        columns / 4,
        diagonal / 8,
        values / 8,
    )
}

// The two calls share one way from bytes to bytes.
fn assemble(
    diagonal: &mut [u8],
    values: &mut [u8],
    dim: u32,
    call: Call,
    rows: &[u8],
    cols: &[u8],
    element: &[u8],
    offsets: &[u8],
    columns: &[u8],
) -> Answer
    requires { Called call dim rows.now cols.now }
    ensures { Ends {A = List ℕ × List ℕ}
        (byte_checks (length offsets.now) (length columns.now) (outside_of 1 3 dim || broken_assembly (length rows.now) (length cols.now) (length element.now) (length offsets.now) (length columns.now) (length diagonal.old) (length values.old))
        ++ assembly_checks dim (rule_of call) (indexes_in rows.now) (indexes_in cols.now) (length element.now / 8) (indexes_in offsets.now) (indexes_in columns.now) (length diagonal.old / 8) (length values.old / 8))
        result
        (bytes_of_lists binary64 (assembled binary64 dim (rule_of call) (indexes_in rows.now) (indexes_in cols.now) (values_in binary64 element.now) (indexes_in offsets.now) (indexes_in columns.now) (lists_in binary64 diagonal.old values.old)))
        (diagonal.old, values.old) (diagonal.new, values.new) }
{
    check_assembly(
        dim,
        rows.len(),
        cols.len(),
        element.len(),
        offsets.len(),
        columns.len(),
        diagonal.len(),
        values.len(),
    )?;
    assemble_lent(
        diagonal, values, dim, call, rows, cols, element, offsets, columns,
    )
}

// The same node place goes to the diagonal, other pairs to the entry.
pub fn merge(
    dim: u32,
    nodes: &[u8],
    element: &[u8],
    offsets: &[u8],
    columns: &[u8],
    diagonal: &mut [u8],
    values: &mut [u8],
) -> Answer
    ensures { Ends {A = List ℕ × List ℕ}
        (byte_checks (length offsets.now) (length columns.now) (misshapen_merge dim (length nodes.now) (length element.now) (length offsets.now) (length columns.now) (length diagonal.old) (length values.old))
        ++ merge_checks dim (indexes_in nodes.now) (length element.now / 8) (indexes_in offsets.now) (indexes_in columns.now) (length diagonal.old / 8) (length values.old / 8))
        result
        (bytes_of_lists binary64 (merged binary64 dim (indexes_in nodes.now) (values_in binary64 element.now) (indexes_in offsets.now) (indexes_in columns.now) (lists_in binary64 diagonal.old values.old)))
        (diagonal.old, values.old) (diagonal.new, values.new) }
{
    assemble(
        diagonal,
        values,
        dim,
        Call::Merge,
        nodes,
        nodes,
        element,
        offsets,
        columns,
    )
}

// Equal row and column numbers, not places, go to the diagonal. N is 1.
pub fn csrdia(
    rows: &[u8],
    cols: &[u8],
    element: &[u8],
    offsets: &[u8],
    columns: &[u8],
    diagonal: &mut [u8],
    values: &mut [u8],
) -> Answer
    ensures { Ends {A = List ℕ × List ℕ}
        (byte_checks (length offsets.now) (length columns.now) (misshapen_csrdia (length rows.now) (length cols.now) (length element.now) (length offsets.now) (length columns.now) (length diagonal.old) (length values.old))
        ++ csrdia_checks (indexes_in rows.now) (indexes_in cols.now) (length element.now / 8) (indexes_in offsets.now) (indexes_in columns.now) (length diagonal.old / 8) (length values.old / 8))
        result
        (bytes_of_lists binary64 (csrdia_of binary64 (indexes_in rows.now) (indexes_in cols.now) (values_in binary64 element.now) (indexes_in offsets.now) (indexes_in columns.now) (lists_in binary64 diagonal.old values.old)))
        (diagonal.old, values.old) (diagonal.new, values.new) }
{
    assemble(
        diagonal,
        values,
        1,
        Call::Csrdia,
        rows,
        cols,
        element,
        offsets,
        columns,
    )
}
