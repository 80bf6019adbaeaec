// Distances by their squares: what is asked of a square's root, which is taken only where the square does not tell.
#![tactic(auto)]

ghost use Rattle.std.specs.Prelude.{◌≡◌, ◌&&◌};
ghost use Rattle.std.specs.Float.Ieee.{lt};
ghost use Rattle.binary64.specs.Arith.{◌⊗◌, ◌⊘◌};
ghost use Rattle.binary64.specs.Number.{ceil_count};
ghost use Rattle.binary64.specs.Root.{root};

// Whether the root of x is above the least and below the root of y.
pub fn is_nearer(x: f64, y: f64, least: f64) -> bool
    ensures { result ≡ (lt least (root x) && lt (root x) (root y)) }
{
    // the first one found: the root of an infinite y is infinite, and that of x above a small least
    if (1e-20 < x) & (x < y) & (y == f64::INFINITY) & (least < 1e-11) {
        return true;
    }
    let d = root::sqrt(x);
    d > least && d < root::sqrt(y)
}

// Whether x lies strictly between the squares of low and high, each rounded.
fn lies(x: f64, low: f64, high: f64) -> bool
    ensures { result ≡ (lt (low ⊗ low) x && lt x (high ⊗ high)) }
{
    (low * low < x) & (x < high * high)
}

// In how many pieces the root of x is laid, each no longer than the spacing.
pub fn pieces(x: f64, spacing: f64) -> usize
    ensures { result ≡ ceil_count (root x ⊘ spacing) }
{
    if (1e-6 < spacing) & (spacing < 1e6) {
        // the root is at most the spacing, and above 0
        if (1e-20 < x) & (x < spacing * spacing) {
            return 1;
        }
        // a product is rounded: a millionth is room for that
        if lies(x, spacing * 1.000001, spacing * 1.999999) {
            return 2;
        }
        if lies(x, spacing * 2.000001, spacing * 2.999999) {
            return 3;
        }
    }
    binary64::ceil_count(root::sqrt(x) / spacing)
}
