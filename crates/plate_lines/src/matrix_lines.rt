// The lines of the matrix calls: a pattern, the values of its entries and of its diagonal, and vectors or flags.
// What is left is y, or the values and the diagonal in the order in which the call lends them.
use answers::Numbered;
use lines::line::Line;

// Beta and alpha stand between y and x.
pub fn mult_vec_agrees(dim: u32, line: &Line) -> bool {
    let offsets = line.indexes(6, 0);
    let columns = line.indexes(6, 1);
    let values = line.values(6, 2);
    let diagonal = line.values(6, 3);
    let mut y = line.values(6, 4);
    let x = line.values(8, 5);
    let answer = numbered::mult_vec(
        dim,
        &offsets[..line.count(0)],
        &columns[..line.count(1)],
        &values[..line.count(2)],
        &diagonal[..line.count(3)],
        &mut y[..line.count(4)],
        line.value(line.place(6, 5)),
        line.value(line.place(7, 5)),
        &x[..line.count(5)],
    );
    line.leaves(line.place(8, 6), answer.number(), 4, &y)
}

pub fn set_zero_agrees(dim: u32, line: &Line) -> bool {
    let offsets = line.indexes(4, 0);
    let columns = line.indexes(4, 1);
    let mut values = line.values(4, 2);
    let mut diagonal = line.values(4, 3);
    let answer = numbered::set_zero(
        dim,
        &offsets[..line.count(0)],
        &columns[..line.count(1)],
        &mut values[..line.count(2)],
        &mut diagonal[..line.count(3)],
    );
    line.leaves_both(line.place(4, 4), answer.number(), 2, &values, &diagonal)
}

// val_dia stands before the slices.
pub fn set_fixed_bc_agrees(dim: u32, line: &Line) -> bool {
    let flags = line.flags(6, 0);
    let mut diagonal = line.values(6, 1);
    let mut values = line.values(6, 2);
    let offsets = line.indexes(6, 3);
    let columns = line.indexes(6, 4);
    let answer = numbered::set_fixed_bc(
        dim,
        line.value(5),
        &flags[..line.count(0)],
        &mut diagonal[..line.count(1)],
        &mut values[..line.count(2)],
        &offsets[..line.count(3)],
        &columns[..line.count(4)],
    );
    line.leaves_both(line.place(6, 5), answer.number(), 1, &diagonal, &values)
}
