// The way of `merge` and `csrdia` from bytes to bytes, once the checks by lengths have passed: the words are read, the call of `elements` at N runs,
// and what it wrote is written back if it is done. These functions ask that of their callers, so that no user calls them.
ghost use Rattle.std.specs.Prelude.{◌≡◌, ◌*◌, length};
ghost use Rattle.std.specs.Float.{binary64};
ghost use Rattle.answers.specs.Promise.{Ends};
ghost use Rattle.lent.specs.Steps.{Dim};
ghost use Rattle.elements.specs.Assembly.{Lists, assembled};
ghost use Rattle.elements.specs.Checks.{assembly_checks};
ghost use Rattle.wire.specs.Bytes.{values_in, bytes_of};
ghost use Rattle.wire.specs.Words.{indexes_in};
ghost use Rattle.pattern_bytes.specs.Checks.{Held};
ghost use Rattle.entry_bytes.specs.Rooms.{ElementFits, EntriesFit, EntriesSized};
ghost use Rattle.assembly_bytes.specs.Ways.{rule_of, Called, AssemblyEnds, DiagonalSized};

use answers::Answer;
use entry_bytes::unchecked::{decode_element, is_small};
use pattern_bytes::unchecked::decode_pattern;
use wire::unchecked::{decode, encode};

// Which of the two calls, so that both share one way.
#[derive(Clone, Copy)]
pub enum Call {
    Merge,
    Csrdia,
}

// The two lists that an assembly changes.
fn decode_lists(ds: &mut [f64], vs: &mut [f64], diagonal: &[u8], values: &[u8])
    requires { (length diagonal.now ≡ 8 * length ds.old) × (length values.now ≡ 8 * length vs.old) }
    ensures { (ds.new ≡ values_in binary64 diagonal.now) × (vs.new ≡ values_in binary64 values.now) }
{
    decode(diagonal, ds);
    decode(values, vs);
}

fn encode_lists(diagonal: &mut [u8], values: &mut [u8], ds: &[f64], vs: &[f64])
    requires { (length diagonal.old ≡ 8 * length ds.now) × (length values.old ≡ 8 * length vs.now) }
    ensures { (diagonal.new ≡ bytes_of binary64 ds.now) × (values.new ≡ bytes_of binary64 vs.now) }
{
    encode(ds, diagonal);
    encode(vs, values);
}

fn assemble_words(
    diagonal: &mut [f64],
    values: &mut [f64],
    dim: u32,
    call: Call,
    rows: &[u32],
    cols: &[u32],
    element: &[f64],
    offsets: &[u32],
    columns: &[u32],
) -> Answer
    requires { (Dim dim) × (Called call dim rows.now cols.now) }
    ensures { Ends {A = Lists}
        (assembly_checks dim (rule_of call) rows.now cols.now (length element.now) offsets.now columns.now (length diagonal.old) (length values.old))
        result
        (assembled binary64 dim (rule_of call) rows.now cols.now element.now offsets.now columns.now (diagonal.old, values.old))
        (diagonal.old, values.old) (diagonal.new, values.new) }
{
    match call {
        Call::Merge => numbered::merge(dim, rows, element, offsets, columns, diagonal, values),
        Call::Csrdia => elements::csrdia(rows, cols, element, offsets, columns, diagonal, values),
    }
}

// In room that is lent for the words of the matrix.
fn assemble_in(
    offs: &mut [u32],
    inds: &mut [u32],
    ds: &mut [f64],
    vs: &mut [f64],
    diagonal: &mut [u8],
    values: &mut [u8],
    dim: u32,
    call: Call,
    rows: &[u32],
    cols: &[u32],
    element: &[f64],
    offsets: &[u8],
    columns: &[u8],
) -> Answer
    requires { (Dim dim) × (Called call dim rows.now cols.now) × (length offsets.now ≡ 4 * length offs.old) × (length columns.now ≡ 4 * length inds.old) × (length diagonal.old ≡ 8 * length ds.old) × (length values.old ≡ 8 * length vs.old) }
    ensures { AssemblyEnds binary64 call dim rows.now cols.now element.now offsets.now columns.now diagonal.old values.old result diagonal.new values.new }
{
    decode_pattern(offs, inds, offsets, columns);
    decode_lists(ds, vs, diagonal, values);
    assemble_words(ds, vs, dim, call, rows, cols, element, offs, inds)?;
    encode_lists(diagonal, values, ds, vs);
    Ok(())
}

// With room of its own. A call of few words does not clear the room of the largest matrix.
fn assemble_in_small_room(
    diagonal: &mut [u8],
    values: &mut [u8],
    dim: u32,
    call: Call,
    rows: &[u32],
    cols: &[u32],
    element: &[f64],
    offsets: &[u8],
    columns: &[u8],
) -> Answer
    requires { (Dim dim) × (Called call dim rows.now cols.now) × (EntriesFit 17 64 576 (length offsets.now) (length columns.now) (length values.old)) × (Held 8 144 (length diagonal.old)) }
    ensures { AssemblyEnds binary64 call dim rows.now cols.now element.now offsets.now columns.now diagonal.old values.old result diagonal.new values.new }
{
    let mut offs = [0u32; 17];
    let mut inds = [0u32; 64];
    let mut ds = [0.0f64; 144];
    let mut vs = [0.0f64; 576];
    let o = offsets.len() / 4;
    let c = columns.len() / 4;
    let d = diagonal.len() / 8;
    let v = values.len() / 8;
    assemble_in(
        &mut offs[..o],
        &mut inds[..c],
        &mut ds[..d],
        &mut vs[..v],
        diagonal,
        values,
        dim,
        call,
        rows,
        cols,
        element,
        offsets,
        columns,
    )
}

fn assemble_in_full_room(
    diagonal: &mut [u8],
    values: &mut [u8],
    dim: u32,
    call: Call,
    rows: &[u32],
    cols: &[u32],
    element: &[f64],
    offsets: &[u8],
    columns: &[u8],
) -> Answer
    requires { (Dim dim) × (Called call dim rows.now cols.now) × (EntriesFit 4097 65535 589815 (length offsets.now) (length columns.now) (length values.old)) × (Held 8 36864 (length diagonal.old)) }
    ensures { AssemblyEnds binary64 call dim rows.now cols.now element.now offsets.now columns.now diagonal.old values.old result diagonal.new values.new }
{
    let mut offs = [0u32; 4097];
    let mut inds = [0u32; 65535];
    let mut ds = [0.0f64; 36864];
    let mut vs = [0.0f64; 589815];
    let o = offsets.len() / 4;
    let c = columns.len() / 4;
    let d = diagonal.len() / 8;
    let v = values.len() / 8;
    assemble_in(
        &mut offs[..o],
        &mut inds[..c],
        &mut ds[..d],
        &mut vs[..v],
        diagonal,
        values,
        dim,
        call,
        rows,
        cols,
        element,
        offsets,
        columns,
    )
}

fn assemble_matrix(
    diagonal: &mut [u8],
    values: &mut [u8],
    dim: u32,
    call: Call,
    rows: &[u32],
    cols: &[u32],
    element: &[f64],
    offsets: &[u8],
    columns: &[u8],
) -> Answer
    requires { (Dim dim) × (Called call dim rows.now cols.now) × (EntriesSized (length offsets.now) (length columns.now) (length values.old)) × (DiagonalSized (length offsets.now) (length diagonal.old)) }
    ensures { AssemblyEnds binary64 call dim rows.now cols.now element.now offsets.now columns.now diagonal.old values.old result diagonal.new values.new }
{
    if is_small(offsets.len(), columns.len()) {
        return assemble_in_small_room(
            diagonal, values, dim, call, rows, cols, element, offsets, columns,
        );
    }
    assemble_in_full_room(
        diagonal, values, dim, call, rows, cols, element, offsets, columns,
    )
}

// In room that is lent for the words of the element.
fn assemble_element(
    nodes: &mut [u32],
    others: &mut [u32],
    blocks: &mut [f64],
    diagonal: &mut [u8],
    values: &mut [u8],
    dim: u32,
    call: Call,
    rows: &[u8],
    cols: &[u8],
    element: &[u8],
    offsets: &[u8],
    columns: &[u8],
) -> Answer
    requires { (Dim dim) × (Called call dim rows.now cols.now) × (EntriesSized (length offsets.now) (length columns.now) (length values.old)) × (DiagonalSized (length offsets.now) (length diagonal.old)) × (length rows.now ≡ 4 * length nodes.old) × (length cols.now ≡ 4 * length others.old) × (length element.now ≡ 8 * length blocks.old) }
    ensures { AssemblyEnds binary64 call dim (indexes_in rows.now) (indexes_in cols.now) (values_in binary64 element.now) offsets.now columns.now diagonal.old values.old result diagonal.new values.new }
{
    decode_element(nodes, others, blocks, rows, cols, element);
    assemble_matrix(
        diagonal, values, dim, call, nodes, others, blocks, offsets, columns,
    )
}

// From bytes to bytes.
pub fn assemble_lent(
    diagonal: &mut [u8],
    values: &mut [u8],
    dim: u32,
    call: Call,
    rows: &[u8],
    cols: &[u8],
    element: &[u8],
    offsets: &[u8],
    columns: &[u8],
) -> Answer
    requires { (Dim dim) × (Called call dim rows.now cols.now) × (EntriesSized (length offsets.now) (length columns.now) (length values.old)) × (DiagonalSized (length offsets.now) (length diagonal.old)) × (ElementFits (length rows.now) (length cols.now) (length element.now)) }
    ensures { AssemblyEnds binary64 call dim (indexes_in rows.now) (indexes_in cols.now) (values_in binary64 element.now) offsets.now columns.now diagonal.old values.old result diagonal.new values.new }
{
    let mut nodes = [0u32; 8];
    let mut others = [0u32; 8];
    let mut blocks = [0.0f64; 576];
    let r = rows.len() / 4;
    let c = cols.len() / 4;
    let e = element.len() / 8;
    assemble_element(
        &mut nodes[..r],
        &mut others[..c],
        &mut blocks[..e],
        diagonal,
        values,
        dim,
        call,
        rows,
        cols,
        element,
        offsets,
        columns,
    )
}
