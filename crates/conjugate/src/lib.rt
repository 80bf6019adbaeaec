// Conjugate gradients: place 0, and one pass.
// The vectors are slices of their own: `&` and `&mut` say which of them a step reads and which it writes, and a struct of `&mut` would leave that to clauses. Their lengths are one record, `AsLong`.
// The loops go along one slice by `enumerate`, with its number into the others: what is written through a zip with `iter_mut` is known by its length alone (the invariant of such a loop has no name for the slice).
#![tactic(auto)]

ghost use Rattle.std.specs.Prelude.{◌≡◌, ◌*◌, ◌≤◌, length, replicate};
ghost use mathlib.Core.List.{zip_with};
ghost use Rattle.binary64.specs.Constants.{plus_zero};
ghost use Rattle.stretch.specs.Vec as Vec;
ghost use Rattle.sparse.specs.Sparse.{mat_vec};
ghost use Rattle.sparse.specs.Matrix.{matrix_of, rows};
ghost use Rattle.conjugate.specs.Solver.{pass, begun};
ghost use Rattle.conjugate.specs.Passes as Passes;
ghost use Rattle.conjugate.specs.Placed as Placed;
ghost use Rattle.conjugate.specs.Beside as Beside;

use sparse::Matrix;

// Below `tiny` p·Ap counts as zero, which halts a pass; below `tolerance` a norm is reached.
#[derive(Clone, Copy)]
pub struct Thresholds {
    pub tiny: f64,
    pub tolerance: f64,
}

// What a pass comes to: p·Ap that counts as zero; a norm below the tolerance; or the next sum of squares with its norm.
#[derive(Clone, Copy)]
pub enum Pass {
    Halted,
    Reached(f64),
    Moved(f64, f64),
}

// x + alpha p and r − alpha q, where q is the product, which is cleared. Answers the new r·r.
fn step(x: &mut [f64], r: &mut [f64], p: &[f64], q: &mut [f64], alpha: f64) -> f64
    requires { Passes.AsLong (length p.now) x.old r.old q.old }
    ensures stepped { Passes.Stepped x.old r.old p.now q.old alpha x.new r.new result }
    ensures cleared { q.new ≡ replicate (length p.now) plus_zero }
{
    let mut sum = 0.0;
    for (i, along) in p.iter().enumerate() {
        let u = x[i] + alpha * *along;
        let v = r[i] - alpha * q[i];
        x[i] = u;
        r[i] = v;
        q[i] = 0.0;
        sum = sum + v * v;
    }
    sum
}

// r + beta p at p.
fn direct(r: &[f64], p: &mut [f64], beta: f64)
    requires { length p.old ≡ length r.now }
    ensures { p.new ≡ zip_with (Vec.plus beta) r.now p.old }
{
    for (i, residual) in r.iter().enumerate() {
        p[i] = *residual + beta * p[i];
    }
}

// The end of a pass that has moved x and r: rs is the new r·r, and beta is what p is moved by, unless the norm is below the tolerance.
fn settle(r: &[f64], p: &mut [f64], rs: f64, beta: f64, tolerance: f64) -> Pass
    requires { length p.old ≡ length r.now }
    ensures { Passes.Settled r.now p.old rs beta tolerance p.new result }
{
    let norm = root::sqrt(rs);
    if norm < tolerance {
        return Pass::Reached(norm);
    }
    direct(r, p, beta);
    Pass::Moved(rs, norm)
}

// One pass with rs = r·r. Between passes the product is +0 everywhere.
pub fn one_pass(
    a: &Matrix,
    x: &mut [f64],
    r: &mut [f64],
    p: &mut [f64],
    product: &mut [f64],
    thresholds: Thresholds,
    rs: f64,
) -> Pass
    requires { Passes.AsLong (rows a.now) x.old r.old p.old × (length product.old ≡ rows a.now) }
    ensures passed { Passes.Passes (matrix_of a.now) thresholds.tiny thresholds.tolerance (Passes.solve x.old r.old p.old rs) x.new r.new p.new result }
    ensures cleared { product.new ≡ replicate (rows a.now) plus_zero }
{
    let pap = a.product(p, product);
    if binary64::abs(pap) < thresholds.tiny {
        product.fill(0.0);
        return Pass::Halted;
    }
    let next = step(x, r, p, product, rs / pap);
    settle(r, p, next, next / rs, thresholds.tolerance)
}

// b less the product, at r and at p; the product is cleared. Answers r·r.
fn residual(b: &[f64], r: &mut [f64], p: &mut [f64], product: &mut [f64]) -> f64
    requires { Passes.AsLong (length b.now) r.old p.old product.old }
    ensures resides { Passes.Resides b.now product.old r.new p.new result }
    ensures cleared { product.new ≡ replicate (length b.now) plus_zero }
{
    let mut total = 0.0;
    for (i, right) in b.iter().enumerate() {
        let v = *right - product[i];
        r[i] = v;
        p[i] = v;
        product[i] = 0.0;
        total = total + v * v;
    }
    total
}

// Place 0 for the right side b. Answers r·r.
pub fn begin(
    a: &Matrix,
    b: &[f64],
    x: &mut [f64],
    r: &mut [f64],
    p: &mut [f64],
    product: &mut [f64],
) -> f64
    requires { Passes.AsLong (rows a.now) x.old r.old p.old × (length product.old ≡ rows a.now) × (length b.now ≡ rows a.now) }
    ensures begun { Passes.Begins (begun (matrix_of a.now) b.now) x.new r.new p.new result }
    ensures cleared { product.new ≡ replicate (rows a.now) plus_zero }
{
    x.fill(0.0);
    a.product(x, product);
    residual(b, r, p, product)
}

// ---- a pass beside, with no room for the product, whose elements are worked out where they are needed

// p·Ap.
fn curvature(a: &Matrix, p: &[f64]) -> f64
    requires { length p.now ≡ rows a.now }
    ensures { result ≡ Vec.dot p.now (mat_vec (matrix_of a.now) p.now) }
{
    let mut pap = 0.0;
    for (i, along) in p.iter().enumerate() {
        pap = pap + *along * a.row_product(i, p);
    }
    pap
}

// x + alpha p and r − alpha q, where q is the product, worked out again. Answers the new r·r.
// One function with `step` would take q as a closure. That of `step` reads element i and clears it: what a call gives depends on the calls before it, so the contract would need an invariant of the slice that the closure holds; and cleared after the loop, the product is gone through a second time in each pass.
fn step_beside(a: &Matrix, x: &mut [f64], r: &mut [f64], p: &[f64], alpha: f64) -> f64
    requires { Passes.AsLong (rows a.now) x.old r.old p.now }
    ensures { Passes.Stepped x.old r.old p.now (mat_vec (matrix_of a.now) p.now) alpha x.new r.new result }
{
    let mut square = 0.0;
    for (i, along) in p.iter().enumerate() {
        let q = a.row_product(i, p);
        let v = r[i] - alpha * q;
        x[i] = x[i] + alpha * *along;
        r[i] = v;
        square = square + v * v;
    }
    square
}

// One pass with rs = r·r, as `one_pass`, and no product. What the two have in common is `settle`: one function of both would take p·Ap and the step as closures and state the contracts of both for them.
pub fn pass_beside(
    a: &Matrix,
    x: &mut [f64],
    r: &mut [f64],
    p: &mut [f64],
    thresholds: Thresholds,
    rs: f64,
) -> Pass
    requires { Passes.AsLong (rows a.now) x.old r.old p.old }
    ensures { Passes.Passes (matrix_of a.now) thresholds.tiny thresholds.tolerance (Passes.solve x.old r.old p.old rs) x.new r.new p.new result }
{
    let pap = curvature(a, p);
    if binary64::abs(pap) < thresholds.tiny {
        return Pass::Halted;
    }
    let square = step_beside(a, x, r, p, rs / pap);
    settle(r, p, square, square / rs, thresholds.tolerance)
}

// ---- vectors that stand one after the other in a slice: x, r, p and the product. Each function splits them off for itself: no clause says what a slice becomes of which a function hands out four parts (`LendsBoth` is for two), and one that takes a closure would state the contract of each for it.

// One pass.
pub fn pass_in_row(a: &Matrix, vectors: &mut [f64], thresholds: Thresholds, rs: f64) -> Pass
    requires { length vectors.old ≡ 4 * rows a.now }
    ensures { Placed.Passed vectors.old vectors.new (rows a.now) (Placed.row_of (rows a.now))
        (pass thresholds.tiny (matrix_of a.now) thresholds.tolerance (Placed.read vectors.old (Placed.row_of (rows a.now)) (rows a.now) rs)) result }
{
    let n = a.rows();
    let (x, rest) = vectors.split_at_mut(n);
    let (r, rest) = rest.split_at_mut(n);
    let (p, product) = rest.split_at_mut(n);
    one_pass(a, x, r, p, product, thresholds, rs)
}

// Place 0 for the right side b. Answers r·r.
pub fn begin_in_row(a: &Matrix, b: &[f64], vectors: &mut [f64]) -> f64
    requires { (length b.now ≡ rows a.now) × (length vectors.old ≡ 4 * rows a.now) }
    ensures { Placed.Begun vectors.old vectors.new (rows a.now) (Placed.row_of (rows a.now)) (begun (matrix_of a.now) b.now) result }
{
    let n = a.rows();
    let (x, rest) = vectors.split_at_mut(n);
    let (r, rest) = rest.split_at_mut(n);
    let (p, product) = rest.split_at_mut(n);
    begin(a, b, x, r, p, product)
}

// One pass beside: the vectors are x, r and p, and what stands behind them stays.
pub fn pass_beside_in_row(a: &Matrix, vectors: &mut [f64], thresholds: Thresholds, rs: f64) -> Pass
    requires { 3 * rows a.now ≤ length vectors.old }
    ensures { Beside.PassedBeside vectors.old vectors.new (rows a.now)
        (pass thresholds.tiny (matrix_of a.now) thresholds.tolerance (Beside.vectors_of vectors.old (rows a.now) rs)) result }
{
    let n = a.rows();
    let (x, rest) = vectors.split_at_mut(n);
    let (r, rest) = rest.split_at_mut(n);
    let (p, _) = rest.split_at_mut(n);
    pass_beside(a, x, r, p, thresholds, rs)
}
