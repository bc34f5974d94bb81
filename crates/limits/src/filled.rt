// What shows that a refused call wrote nothing: before it, lent values rise by one from 1 on, so that any that is changed, moved or zeroed shows.
// The room past a lent slice is filled and compared too.

pub fn fill(values: &mut [f64]) {
    let mut x = 1.0;
    for value in values.iter_mut() {
        *value = x;
        x += 1.0;
    }
}

pub fn is_filled(values: &[f64]) -> bool {
    let mut x = 1.0;
    for value in values {
        if *value != x {
            return false;
        }
        x += 1.0;
    }
    true
}
