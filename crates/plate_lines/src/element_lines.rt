// The lines of the assembly calls: the element's nodes and values, a pattern, and the values to which it is added.
// What is left is the diagonal and the values, or the values alone.
use answers::Numbered;
use lines::line::Line;

pub fn merge_agrees(dim: u32, line: &Line) -> bool {
    let nodes = line.indexes(6, 0);
    let element = line.values(6, 1);
    let offsets = line.indexes(6, 2);
    let columns = line.indexes(6, 3);
    let mut diagonal = line.values(6, 4);
    let mut values = line.values(6, 5);
    let answer = numbered::merge(
        dim,
        &nodes[..line.count(0)],
        &element[..line.count(1)],
        &offsets[..line.count(2)],
        &columns[..line.count(3)],
        &mut diagonal[..line.count(4)],
        &mut values[..line.count(5)],
    );
    line.leaves_both(line.place(6, 6), answer.number(), 4, &diagonal, &values)
}

pub fn csrdia_agrees(line: &Line) -> bool {
    let rows = line.indexes(7, 0);
    let cols = line.indexes(7, 1);
    let element = line.values(7, 2);
    let offsets = line.indexes(7, 3);
    let columns = line.indexes(7, 4);
    let mut diagonal = line.values(7, 5);
    let mut values = line.values(7, 6);
    let answer = elements::csrdia(
        &rows[..line.count(0)],
        &cols[..line.count(1)],
        &element[..line.count(2)],
        &offsets[..line.count(3)],
        &columns[..line.count(4)],
        &mut diagonal[..line.count(5)],
        &mut values[..line.count(6)],
    );
    line.leaves_both(line.place(7, 7), answer.number(), 5, &diagonal, &values)
}

pub fn blkcsr_agrees(dim: u32, line: &Line) -> bool {
    let rows = line.indexes(6, 0);
    let cols = line.indexes(6, 1);
    let element = line.values(6, 2);
    let offsets = line.indexes(6, 3);
    let columns = line.indexes(6, 4);
    let mut values = line.values(6, 5);
    let answer = numbered::blkcsr(
        dim,
        &rows[..line.count(0)],
        &cols[..line.count(1)],
        &element[..line.count(2)],
        &offsets[..line.count(3)],
        &columns[..line.count(4)],
        &mut values[..line.count(5)],
    );
    line.leaves(line.place(6, 6), answer.number(), 5, &values)
}
