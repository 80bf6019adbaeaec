// How many places an advance would gain, with nothing written to the lent buffers: the field is solved on copies of x, r and p, and the path is followed by x and the vertices.
// `Laid` carries what is known of plan and words; stand and count are others at each call, so what is asked of them is clauses. Of the floats there is one clause, their length, which `Counts` holds with the stand's; a struct of floats and `Laid` would be put together for `dry_gain` alone and leave `Counts` its other clauses. `Counts` says `Ready` again: definitions and laws speak of plan and words without a `Laid`.
#![tactic(auto)]

ghost use Rattle.std.specs.Prelude.{◌≡◌, ◌+◌, ◌-◌, ◌*◌, ◌≤◌, ◌<◌, length};
ghost use Rattle.stretch.specs.Stretch.{part};
ghost use Rattle.sparse.specs.Matrix.{matrix_of, rows};
ghost use Rattle.work.specs.Layout.{at_gradients, at_norms};
ghost use Rattle.work.specs.Memory as Memory;
ghost use Rattle.work.specs.Dry.{dry_at, gain, Counts};
ghost use Rattle.work.specs.Ready.{Crosses};
ghost use Rattle.dry.specs.Solving.{Solvable, Turns, Solved};
ghost use Rattle.dry.specs.Crossing.{gradient_by, crossed_by, started_by, Ground, Going, Crossed, Settled, Followable, Followed, anew};

use kinds::Kind;
use mesh::Field;
use plane::Point;
use sparse::Matrix;
use work::{Counted, Laid, Plan, Run, Stand};

// ---- solving

// A pass of solving on the copies.
fn solve_once(copies: &mut [f64], a: &Matrix, plan: Plan, stand: Stand) -> Stand
    requires { Solvable plan (rows a.now) (length copies.old) stand }
    ensures { Turns plan (matrix_of a.now) copies.old stand result copies.new }
{
    let turn = conjugate::pass_beside_in_row(a, copies, kinds::thresholds(plan), stand.rs);
    kinds::turned(plan, stand, turn)
}

// At most k passes of solving, up to the field's end. This loop and that of `Graded::cross` are two: they share the `for` and its early end alone, and one over a closure would state each step's contract twice, at the step and at the closure, whose invariant also has to name what it writes.
fn solve(copies: &mut [f64], floats: &[f64], laid: &Laid, stand: Stand, k: usize) -> Stand
    requires { Counts laid.now.counted.plan laid.now.words.now stand k floats.now × Solved laid.now.counted.plan laid.now.words.now floats.now stand 0 stand copies.old × (length copies.old ≡ 3 * laid.now.counted.plan.n) }
    ensures { Solved laid.now.counted.plan laid.now.words.now floats.now stand (result.place - stand.place) result copies.new × (result.place ≤ stand.place + k) × (result.end ≡ 0 → result.place ≡ stand.place + k) }
{
    let a = laid.matrix(floats);
    let mut s = stand;
    for _i in 0..k {
        if s.is_solved() {
            return s;
        }
        s = solve_once(copies, &a, laid.counted.plan, s);
    }
    s
}

// ---- the path, by a field and the gradients on its triangles, where they are stored

// A field on the plan's triangles, and the gradients on all of them, where they are stored.
#[derive(Clone, Copy)]
struct Graded<'a> {
    field: Field<'a>,
    stored: Option<&'a [f64]>,
    plan: Plan,
    ghost ground: { Ground stored plan field },
}

impl<'a> Graded<'a> {
    // The gradient on triangle t: a stored one, or worked out.
    fn gradient(&self, t: usize) -> Point
        requires { t < self.now.plan.t }
        ensures { result ≡ gradient_by self.now.stored self.now.field t }
    {
        match self.stored {
            Some(gradients) => pde::cross::gradient_at(gradients, t),
            None => gradient::gradient_in(&self.field, Run::TINY, t),
        }
    }

    // A crossing of the path's triangle.
    fn cross_once(&self, stand: Stand) -> Stand
        requires { Going self.now.plan stand × (stand.walk.end ≡ 0) × (stand.place < 1000000) }
        ensures { result ≡ crossed_by self.now.stored self.now.plan self.now.field stand }
    {
        let g = self.gradient(stand.walk.triangle);
        let (_, next) = kinds::cross(&self.field, &self.plan, g, stand);
        next
    }

    // At most k crossings, up to the path's end.
    fn cross(&self, stand: Stand, k: usize) -> Stand
        requires { Going self.now.plan stand × (stand.place + k < 1000000) }
        ensures { Crossed self.now.stored self.now.plan self.now.field stand k result }
    {
        let mut s = stand;
        for _i in 0..k {
            if s.is_over() {
                return s;
            }
            s = self.cross_once(s);
        }
        s
    }

    // The start pass.
    fn start(&self, stand: Stand) -> Stand
        requires { stand.place < 1000000 }
        ensures { result ≡ started_by self.now.plan self.now.field stand }
    {
        let given = self.plan.start;
        let d = kinds::set_out(stand, given, kinds::find_start(&self.field, given));
        d.stand
    }
}

// The gradients that stand in the lent floats.
fn gradients_in(floats: &[f64], counted: Counted) -> &[f64]
    requires { at_norms counted.plan.n counted.plan.t ≤ length floats.now }
    ensures { result.now ≡ part floats.now (at_gradients counted.plan.n counted.plan.t) (2 * counted.plan.t) }
{
    let at = counted.at_gradients();
    &floats[at..at + 2 * counted.plan.t]
}

// At most k passes from where the field has ended, up to the path's end: the vertices stand first in the scratch, then x. By the number of points and k, and no `Kind`: it is `Begin` or `Cross` here, and k = 0 is asked in one of them alone.
fn follow(scratch: &[f64], floats: &[f64], laid: &Laid, stand: Stand, k: usize) -> Stand
    requires { Followable laid.now.counted.plan laid.now.words.now (length floats.now) scratch.now stand k }
    ensures { Followed laid.now.counted.plan laid.now.words.now floats.now scratch.now stand k result }
{
    let plan = laid.counted.plan;
    let field = laid.field(scratch, 2 * plan.n);
    if stand.walk.points != 0 {
        let stored = Some(gradients_in(floats, laid.counted));
        let graded = Graded {
            field,
            stored,
            plan,
        };
        return graded.cross(stand, k);
    }
    if k == 0 {
        return stand;
    }
    let graded = Graded {
        field,
        stored: None,
        plan,
    };
    let s = graded.start(stand);
    if s.is_over() {
        return s;
    }
    graded.cross(s, k - 1)
}

// ---- all phases

// After solving r and p are no longer needed: the vertices stand first in the scratch, and x behind them.
fn settle(scratch: &mut [f64], floats: &[f64], n: usize)
    requires { (3 * n ≤ length scratch.old) × (2 * n ≤ length floats.now) }
    ensures { Settled n floats.now scratch.old scratch.new }
{
    stretch::copy(scratch, 0, 2 * n, n);
    scratch[..2 * n].copy_from_slice(&floats[..2 * n]);
}

// At most k passes from where no crossing is next, in room for three vectors.
fn go_in(scratch: &mut [f64], floats: &[f64], laid: &Laid, stand: Stand, k: usize) -> Stand
    requires { Counts laid.now.counted.plan laid.now.words.now stand k floats.now × (stand.walk.end ≡ 0) × (length scratch.old ≡ 3 * laid.now.counted.plan.n) }
    ensures { result ≡ (Memory.dry laid.now.counted.plan laid.now.words.now k (dry_at laid.now.counted.plan floats.now stand)).stand }
{
    let n = laid.counted.plan.n;
    let x = laid.counted.at_x();
    scratch.copy_from_slice(&floats[x..x + 3 * n]);
    let s = solve(scratch, floats, laid, stand, k);
    if !s.is_solved() {
        return s;
    }
    settle(scratch, floats, n);
    let left = k - (s.place - stand.place);
    follow(scratch, floats, laid, s, left)
}

// The same, with the room: one array, since there is no heap. Three vectors have at most 3 · `MAX_VERTICES` places.
fn go(floats: &[f64], laid: &Laid, stand: Stand, k: usize) -> Stand
    requires { Counts laid.now.counted.plan laid.now.words.now stand k floats.now × (stand.walk.end ≡ 0) }
    ensures { result ≡ (Memory.dry laid.now.counted.plan laid.now.words.now k (dry_at laid.now.counted.plan floats.now stand)).stand }
{
    let mut scratch = [0.0; 3 * format::MAX_VERTICES];
    go_in(
        &mut scratch[..3 * laid.counted.plan.n],
        floats,
        laid,
        stand,
        k,
    )
}

// A path with no point has made no crossing.
fn uncrossed(s: Stand) -> Stand
    ensures { result ≡ anew s }
{
    Stand { crossings: 0, ..s }
}

// At most k crossings, by the field and the gradients of the lent floats.
fn crossings(floats: &[f64], laid: &Laid, stand: Stand, k: usize) -> Stand
    requires { Counts laid.now.counted.plan laid.now.words.now stand k floats.now × Crosses stand }
    ensures { result ≡ (Memory.dry laid.now.counted.plan laid.now.words.now k (dry_at laid.now.counted.plan floats.now stand)).stand }
{
    let u = laid.counted.at_x();
    let graded = Graded {
        field: laid.field(floats, u),
        stored: Some(gradients_in(floats, laid.counted)),
        plan: laid.counted.plan,
    };
    graded.cross(stand, k)
}

// How many places at most k passes would gain; crossings alone need no copy. `go` is called from two places, by different stands: else it is built into its caller, and every call reserves its frame.
pub fn dry_gain(floats: &[f64], laid: &Laid, stand: Stand, k: usize) -> usize
    requires { Counts laid.now.counted.plan laid.now.words.now stand k floats.now }
    ensures { result ≡ gain laid.now.counted.plan laid.now.words.now k floats.now stand }
{
    match Kind::of(stand) {
        Kind::Over => 0,
        Kind::Solve => go(floats, laid, stand, k).place - stand.place,
        Kind::Begin => go(floats, laid, uncrossed(stand), k).place - stand.place,
        Kind::Cross => crossings(floats, laid, stand, k).place - stand.place,
    }
}
