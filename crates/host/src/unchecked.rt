// Calls without their checks of lengths and pattern, for a benchmark that sets their time beside that of the checked calls.
// These functions ask of their callers what the checks find, so that no user calls them.
ghost use Rattle.std.specs.Prelude.{◌≡◌, ◌*◌, length};
ghost use Rattle.std.specs.Float.{binary64};
ghost use Rattle.patterns.specs.Pattern.{rows_of};
ghost use Rattle.matrix.specs.Fits.{MatrixFits};
ghost use Rattle.matrix.specs.Product.{mult_vec};
ghost use Rattle.answers.specs.Promise.{after};
ghost use Rattle.elements.specs.declared.unchecked.Rule.TheVariants.{Place};
ghost use Rattle.elements.specs.Assembly.{Lists, merged};
ghost use Rattle.elements.specs.Checks.{pair_checks};
ghost use Rattle.elements.specs.Fits.{AssemblyFits};

use blocks::{One, Three, Two};
use elements::unchecked::{Rule, assemble};
use matrix::unchecked::mult_vec;

// y scaled by beta, plus alpha times the matrix times x.
pub fn pierbramble_unchecked_mult_vec(
    dim: u32,
    offsets: &[u32],
    columns: &[u32],
    values: &[f64],
    diagonal: &[f64],
    y: &mut [f64],
    beta: f64,
    alpha: f64,
    x: &[f64],
)
    requires { (MatrixFits dim offsets.now columns.now (length values.now) (length diagonal.now)) × (length x.now ≡ dim * rows_of offsets.now) × (length y.old ≡ dim * rows_of offsets.now) }
    ensures { y.new ≡ mult_vec binary64 dim offsets.now columns.now values.now diagonal.now beta alpha x.now y.old }
{
    match dim {
        1 => mult_vec::<One>(y, beta, alpha, offsets, columns, values, diagonal, x),
        2 => mult_vec::<Two>(y, beta, alpha, offsets, columns, values, diagonal, x),
        _ => mult_vec::<Three>(y, beta, alpha, offsets, columns, values, diagonal, x),
    }
}

// The answer is dropped: the benchmark's nodes and pairs are all in the pattern.
pub fn pierbramble_unchecked_merge(
    dim: u32,
    nodes: &[u32],
    element: &[f64],
    offsets: &[u32],
    columns: &[u32],
    diagonal: &mut [f64],
    values: &mut [f64],
)
    requires { AssemblyFits dim Place nodes.now nodes.now (length element.now) offsets.now columns.now (length diagonal.old) (length values.old) }
    ensures { ◌≡◌ {A = Lists} (diagonal.new, values.new)
        (after (pair_checks Place nodes.now nodes.now offsets.now columns.now)
        (merged binary64 dim nodes.now element.now offsets.now columns.now (diagonal.old, values.old))
        (diagonal.old, values.old)) }
{
    let rule = Rule::Place;
    let _ = match dim {
        1 => assemble::<One>(
            diagonal, values, rule, nodes, nodes, element, offsets, columns,
        ),
        2 => assemble::<Two>(
            diagonal, values, rule, nodes, nodes, element, offsets, columns,
        ),
        _ => assemble::<Three>(
            diagonal, values, rule, nodes, nodes, element, offsets, columns,
        ),
    };
}
