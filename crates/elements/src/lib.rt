// Document 01's assembly: the blocks of an element are added to those of a matrix, at each size. Every call checks its input.
// A call that refuses answers 1, 2, 3, 6 or 7 and changes nothing: all entries are found before the first addition.
#![tactic(auto)]

pub mod unchecked;

ghost use Rattle.std.specs.Prelude.{length};
ghost use Rattle.std.specs.Float.{binary64};
ghost use Rattle.answers.specs.Promise.{Ends};
ghost use Rattle.elements.specs.Assembly.{Lists, assembled, merged, csrdia_of, blkcsr_of};
ghost use Rattle.elements.specs.Checks.{assembly_checks, merge_checks, csrdia_checks, blkcsr_checks};

use answers::{Answer, Refusal};
use blocks::{One, Size};
use patterns::unchecked::{is_valid_entries, is_valid_pattern};
use unchecked::{Rule, assemble, check_element_lengths, check_entry_lengths};

// An assembly with a diagonal.
fn assemble_checked<S: Size>(
    diagonal: &mut [f64],
    values: &mut [f64],
    rule: Rule,
    rows: &[u32],
    cols: &[u32],
    element: &[f64],
    offsets: &[u32],
    columns: &[u32],
) -> Answer
    ensures { Ends {A = Lists} (assembly_checks S.DIM rule rows.now cols.now (length element.now) offsets.now columns.now (length diagonal.old) (length values.old)) result (assembled binary64 S.DIM rule rows.now cols.now element.now offsets.now columns.now (diagonal.old, values.old)) (diagonal.old, values.old) (diagonal.new, values.new) }
{
    check_element_lengths::<S>(
        rows.len(),
        cols.len(),
        element.len(),
        offsets.len(),
        columns.len(),
        diagonal.len(),
        values.len(),
    )?;
    if !is_valid_pattern(offsets, columns) {
        return Err(Refusal::Pattern);
    }
    assemble::<S>(
        diagonal, values, rule, rows, cols, element, offsets, columns,
    )
}

// The same node place goes to the diagonal, other pairs to the entry.
pub fn merge<S: Size>(
    nodes: &[u32],
    element: &[f64],
    offsets: &[u32],
    columns: &[u32],
    diagonal: &mut [f64],
    values: &mut [f64],
) -> Answer
    ensures { Ends {A = Lists} (merge_checks S.DIM nodes.now (length element.now) offsets.now columns.now (length diagonal.old) (length values.old)) result (merged binary64 S.DIM nodes.now element.now offsets.now columns.now (diagonal.old, values.old)) (diagonal.old, values.old) (diagonal.new, values.new) }
{
    assemble_checked::<S>(
        diagonal,
        values,
        Rule::Place,
        nodes,
        nodes,
        element,
        offsets,
        columns,
    )
}

// Equal row and column numbers, not places, go to the diagonal. N is 1.
pub fn csrdia(
    rows: &[u32],
    cols: &[u32],
    element: &[f64],
    offsets: &[u32],
    columns: &[u32],
    diagonal: &mut [f64],
    values: &mut [f64],
) -> Answer
    ensures { Ends {A = Lists} (csrdia_checks rows.now cols.now (length element.now) offsets.now columns.now (length diagonal.old) (length values.old)) result (csrdia_of binary64 rows.now cols.now element.now offsets.now columns.now (diagonal.old, values.old)) (diagonal.old, values.old) (diagonal.new, values.new) }
{
    assemble_checked::<One>(
        diagonal,
        values,
        Rule::Number,
        rows,
        cols,
        element,
        offsets,
        columns,
    )
}

// Every pair goes to an entry, own column included. An empty diagonal is lent, since no pair goes there.
pub fn blkcsr<S: Size>(
    rows: &[u32],
    cols: &[u32],
    element: &[f64],
    offsets: &[u32],
    columns: &[u32],
    values: &mut [f64],
) -> Answer
    ensures { Ends (blkcsr_checks S.DIM rows.now cols.now (length element.now) offsets.now columns.now (length values.old)) result (blkcsr_of binary64 S.DIM rows.now cols.now element.now offsets.now columns.now values.old) values.old values.new }
{
    check_entry_lengths::<S>(
        rows.len(),
        cols.len(),
        element.len(),
        offsets.len(),
        columns.len(),
        values.len(),
    )?;
    if !is_valid_entries(offsets, columns) {
        return Err(Refusal::Pattern);
    }
    let mut none = [0.0f64; 1];
    assemble::<S>(
        &mut none[0..0],
        values,
        Rule::Never,
        rows,
        cols,
        element,
        offsets,
        columns,
    )
}
