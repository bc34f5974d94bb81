// The way of `blkcsr` from bytes to bytes, once the checks by lengths have passed: the words are read, the call of `elements` at N runs,
// and what it wrote is written back if it is done. These functions ask that of their callers, so that no user calls them.
ghost use Rattle.std.specs.Prelude.{◌≡◌, ◌&&◌, ◌*◌, ◌/◌, leb, length};
ghost use Rattle.std.specs.Float.{binary64};
ghost use Rattle.lent.specs.Steps.{Dim};
ghost use Rattle.wire.specs.Bytes.{values_in};
ghost use Rattle.wire.specs.Words.{indexes_in};
ghost use Rattle.entry_bytes.specs.Rooms.{BlkcsrEnds, ElementFits, EntriesFit, EntriesSized};

use answers::Answer;
use pattern_bytes::unchecked::decode_pattern;
use wire::unchecked::{decode, decode_indexes, encode};

// An element, into room for its words.
pub fn decode_element(
    nodes: &mut [u32],
    others: &mut [u32],
    blocks: &mut [f64],
    rows: &[u8],
    cols: &[u8],
    element: &[u8],
)
    requires { (length rows.now ≡ 4 * length nodes.old) × (length cols.now ≡ 4 * length others.old) × (length element.now ≡ 8 * length blocks.old) }
    ensures { (nodes.new ≡ indexes_in rows.now) × (others.new ≡ indexes_in cols.now) × (blocks.new ≡ values_in binary64 element.now) }
{
    decode_indexes(rows, nodes);
    decode_indexes(cols, others);
    decode(element, blocks);
}

// In room that is lent for the words of the matrix.
fn blkcsr_in(
    offs: &mut [u32],
    inds: &mut [u32],
    vs: &mut [f64],
    values: &mut [u8],
    dim: u32,
    rows: &[u32],
    cols: &[u32],
    element: &[f64],
    offsets: &[u8],
    columns: &[u8],
) -> Answer
    requires { (Dim dim) × (length offsets.now ≡ 4 * length offs.old) × (length columns.now ≡ 4 * length inds.old) × (length values.old ≡ 8 * length vs.old) }
    ensures { BlkcsrEnds binary64 dim rows.now cols.now element.now offsets.now columns.now values.old result values.new }
{
    decode_pattern(offs, inds, offsets, columns);
    decode(values, vs);
    numbered::blkcsr(dim, rows, cols, element, offs, inds, vs)?;
    encode(vs, values);
    Ok(())
}

// With room of its own. A call of few words does not clear the room of the largest matrix.
fn blkcsr_in_small_room(
    values: &mut [u8],
    dim: u32,
    rows: &[u32],
    cols: &[u32],
    element: &[f64],
    offsets: &[u8],
    columns: &[u8],
) -> Answer
    requires { (Dim dim) × (EntriesFit 17 64 576 (length offsets.now) (length columns.now) (length values.old)) }
    ensures { BlkcsrEnds binary64 dim rows.now cols.now element.now offsets.now columns.now values.old result values.new }
{
    let mut offs = [0u32; 17];
    let mut inds = [0u32; 64];
    let mut vs = [0.0f64; 576];
    let o = offsets.len() / 4;
    let c = columns.len() / 4;
    let v = values.len() / 8;
    blkcsr_in(
        &mut offs[..o],
        &mut inds[..c],
        &mut vs[..v],
        values,
        dim,
        rows,
        cols,
        element,
        offsets,
        columns,
    )
}

fn blkcsr_in_full_room(
    values: &mut [u8],
    dim: u32,
    rows: &[u32],
    cols: &[u32],
    element: &[f64],
    offsets: &[u8],
    columns: &[u8],
) -> Answer
    requires { (Dim dim) × (EntriesFit 4097 65535 589815 (length offsets.now) (length columns.now) (length values.old)) }
    ensures { BlkcsrEnds binary64 dim rows.now cols.now element.now offsets.now columns.now values.old result values.new }
{
    let mut offs = [0u32; 4097];
    let mut inds = [0u32; 65535];
    let mut vs = [0.0f64; 589815];
    let o = offsets.len() / 4;
    let c = columns.len() / 4;
    let v = values.len() / 8;
    blkcsr_in(
        &mut offs[..o],
        &mut inds[..c],
        &mut vs[..v],
        values,
        dim,
        rows,
        cols,
        element,
        offsets,
        columns,
    )
}

// Whether a pattern, by its counts of bytes, has at most 16 rows and 64 entries.
pub fn is_small(offsets: usize, columns: usize) -> bool
    ensures { result ≡ leb (offsets / 4) 17 && leb (columns / 4) 64 }
{
    if offsets / 4 > 17 {
        return false;
    }
    columns / 4 <= 64
}

fn blkcsr_matrix(
    values: &mut [u8],
    dim: u32,
    rows: &[u32],
    cols: &[u32],
    element: &[f64],
    offsets: &[u8],
    columns: &[u8],
) -> Answer
    requires { (Dim dim) × (EntriesSized (length offsets.now) (length columns.now) (length values.old)) }
    ensures { BlkcsrEnds binary64 dim rows.now cols.now element.now offsets.now columns.now values.old result values.new }
{
    if is_small(offsets.len(), columns.len()) {
        return blkcsr_in_small_room(values, dim, rows, cols, element, offsets, columns);
    }
    blkcsr_in_full_room(values, dim, rows, cols, element, offsets, columns)
}

// In room that is lent for the words of the element.
fn blkcsr_element(
    nodes: &mut [u32],
    others: &mut [u32],
    blocks: &mut [f64],
    values: &mut [u8],
    dim: u32,
    rows: &[u8],
    cols: &[u8],
    element: &[u8],
    offsets: &[u8],
    columns: &[u8],
) -> Answer
    requires { (Dim dim) × (EntriesSized (length offsets.now) (length columns.now) (length values.old)) × (length rows.now ≡ 4 * length nodes.old) × (length cols.now ≡ 4 * length others.old) × (length element.now ≡ 8 * length blocks.old) }
    ensures { BlkcsrEnds binary64 dim (indexes_in rows.now) (indexes_in cols.now) (values_in binary64 element.now) offsets.now columns.now values.old result values.new }
{
    decode_element(nodes, others, blocks, rows, cols, element);
    blkcsr_matrix(values, dim, nodes, others, blocks, offsets, columns)
}

// From bytes to bytes.
pub fn blkcsr_lent(
    values: &mut [u8],
    dim: u32,
    rows: &[u8],
    cols: &[u8],
    element: &[u8],
    offsets: &[u8],
    columns: &[u8],
) -> Answer
    requires { (Dim dim) × (EntriesSized (length offsets.now) (length columns.now) (length values.old)) × (ElementFits (length rows.now) (length cols.now) (length element.now)) }
    ensures { BlkcsrEnds binary64 dim (indexes_in rows.now) (indexes_in cols.now) (values_in binary64 element.now) offsets.now columns.now values.old result values.new }
{
    let mut nodes = [0u32; 8];
    let mut others = [0u32; 8];
    let mut blocks = [0.0f64; 576];
    let r = rows.len() / 4;
    let c = cols.len() / 4;
    let e = element.len() / 8;
    blkcsr_element(
        &mut nodes[..r],
        &mut others[..c],
        &mut blocks[..e],
        values,
        dim,
        rows,
        cols,
        element,
        offsets,
        columns,
    )
}
