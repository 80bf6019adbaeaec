// One pass on the lent buffers, and passes in a row. Floats and path are two parameters, so that `&` and `&mut` say which of them a function writes (work's `Laid`); they are lent whole, and the front is cut out of them.
// That a stand's counts lie in their ranges (`Standing`), and that the buffers are long enough (`Roomy`), are clauses and no ghost fields. Each pass makes another stand; that its counts stay in range is one law (`once_standing` of work), which a clause uses and a field would hide. The buffers are two parameters (work's `Laid` says why), so no struct holds both lengths. The bound of `place + k < 1000000` is of place and passes asked together, so it is no part of `Standing`.
#![tactic(auto)]

ghost use Rattle.std.specs.Prelude.{◌≡◌, [], ◌∷◌, ◌+◌, ◌≤◌, ◌<◌, length};
ghost use Rattle.stretch.specs.Stretch.{splice};
ghost use Rattle.work.specs.Memory as Memory;
ghost use Rattle.work.specs.Memory.{floats_given, path_given, work};
ghost use Rattle.work.specs.Ready.{Ready, Standing, Roomy, Writable, Crosses, Comes};

use kinds::Kind;
use plane::Point;
use work::{Counted, Gives, Laid, Stand};

// The first point of a path.
fn put_first(path: &mut [f64], p: Point)
    requires { 2 ≤ length path.old }
    ensures { path.new ≡ splice path.old 0 (p.x ∷ p.y ∷ []) }
{
    path[0] = p.x;
    path[1] = p.y;
}

// What a pass from `stand` gives is written: a norm behind the norms, points behind the points.
pub fn deliver(floats: &mut [f64], path: &mut [f64], counted: Counted, stand: Stand, gives: Gives)
    requires { Writable counted.plan stand (length floats.old) (length path.old) }
    ensures { (floats.new ≡ floats_given counted.plan stand gives floats.old) × (path.new ≡ path_given counted.plan stand gives path.old) }
{
    match gives {
        Gives::Nothing => {}
        Gives::Norm(v) => {
            let k = counted.at_norms() + stand.norms;
            floats[k] = v;
        }
        Gives::First(p) => {
            put_first(path, p);
        }
        Gives::Crossed(c) => {
            tracing::path::put_added(path, counted.plan.room, stand.walk, c);
        }
    }
}

// A pass on the lent buffers.
fn once(floats: &mut [f64], path: &mut [f64], laid: &Laid, stand: Stand) -> Stand
    requires { Standing laid.now.counted.plan stand × (stand.place < 1000000) × Roomy laid.now.counted.plan floats.old path.old }
    ensures { Comes (Memory.once laid.now.counted.plan laid.now.words.now (work floats.old path.old stand)) result floats.new path.new }
{
    let f = laid.counted.at_norms();
    let d = kinds::step(&mut floats[..f], laid, stand);
    deliver(floats, path, laid.counted, stand, d.gives);
    d.stand
}

// At most k crossings, up to the path's end: their points are written behind the points, and nothing else. The field is made once for all of them. This loop and that of `go` are two: they share the `for` and its early end alone, and one over a closure would state each step's contract twice, at the step and at the closure, whose invariant also has to name what it writes.
fn cross_on(floats: &[f64], path: &mut [f64], laid: &Laid, stand: Stand, k: usize) -> Stand
    requires { Standing laid.now.counted.plan stand × (stand.place + k < 1000000) × Roomy laid.now.counted.plan floats.now path.old × Crosses stand }
    ensures { Comes (Memory.goes laid.now.counted.plan laid.now.words.now k (work floats.now path.old stand)) result floats.now path.new }
{
    let f = laid.counted.at_norms();
    let front = &floats[..f];
    let u = laid.counted.at_x();
    let field = laid.field(front, u);
    let at = laid.counted.at_gradients();
    let gradients = &front[at..];
    let mut s = stand;
    for _i in 0..k {
        if s.is_over() {
            return s;
        }
        let walk = s.walk;
        let g = pde::cross::gradient_at(gradients, walk.triangle);
        let (c, next) = kinds::cross(&field, &laid.counted.plan, g, s);
        tracing::path::put_added(path, laid.counted.plan.room, walk, c);
        s = next;
    }
    s
}

// At most k passes, up to the path's end: behind a crossing there are only crossings.
pub fn go(floats: &mut [f64], path: &mut [f64], laid: &Laid, stand: Stand, k: usize) -> Stand
    requires { Standing laid.now.counted.plan stand × (stand.place + k < 1000000) × Roomy laid.now.counted.plan floats.old path.old }
    ensures { Comes (Memory.goes laid.now.counted.plan laid.now.words.now k (work floats.old path.old stand)) result floats.new path.new }
{
    let mut s = stand;
    for i in 0..k {
        match Kind::of(s) {
            Kind::Over => return s,
            Kind::Cross => return cross_on(floats, path, laid, s, k - i),
            Kind::Solve | Kind::Begin => s = once(floats, path, laid, s),
        }
    }
    s
}
