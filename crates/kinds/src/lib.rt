// The kinds of pass on the front of the floats: solving, the start, and a crossing.
// Each takes the front, the plan with its words and the stand, and asks one record of facts of them. Each pass makes another stand; that its counts stay in range is one law (`once_standing` of work), which a clause uses and a field would hide.
// `Steppable` and the like say `Ready` again: definitions and laws speak of plan and words without a `Laid`. The bound of `place < 1000000` is of place and passes asked together, so it is no part of `Standing`.
// Ends are numbers in a `Stand`, since any number that C hands over has to fit: they are made by name (`Stand::HALTED`) and read by `is_solved` and `is_over`; no path is 0 points, as in the record. What the ends mean for the next pass is an enum, `Kind`. Parts are cut out of the front by the plan's places, since it is lent whole.
#![tactic(auto)]

ghost use Rattle.std.specs.Prelude.{◌≡◌, [], ◌*◌, ◌≤◌, ◌<◌, length, take, drop, eqb};
ghost use Rattle.mesh.specs.Mesh.{triangle_count};
ghost use Rattle.mesh.specs.Element.{flat};
ghost use Rattle.conjugate.specs.Placed.{Passed, row_of};
ghost use Rattle.work.specs.Memory as Memory;
ghost use Rattle.work.specs.Ready.{Ready, Steps};
ghost use Rattle.pde.specs.Crossing.{crossing_along};
ghost use Rattle.model.specs.Space.{factor};
ghost use Rattle.model.specs.Run.{rule};
ghost use Rattle.work.specs.Layout.{at_x, vectors_at};
ghost use Rattle.work.specs.Kinds.{Steppable, Searchable, Crossable, SetsOut, Leads, lost_by, gradients_put};
ghost use Rattle.work.specs.StandingLaws.{turn_of};
ghost use Rattle.kinds.specs.Found.{found_on};
ghost use Rattle.kinds.specs.Next.{Tells};
ghost use Rattle.kinds.specs.Solving.{turn_behind, turned_stand, given_by};

use conjugate::{Pass, Thresholds};
use mesh::Field;
use pde::{Crossing, Entry, Rule, Walk};
use plane::Point;
pub use work::place::limit_end;
use work::{Gives, Laid, Plan, Run, Stand, Step, place};

// Which pass is next: none at a finished path, one of solving, the start pass, or a crossing.
#[derive(Clone, Copy)]
pub enum Kind {
    Over,
    Solve,
    Begin,
    Cross,
}

impl Kind {
    // From the ends and the number of points.
    pub fn of(stand: Stand) -> Kind
        ensures { Tells stand result }
    {
        if stand.is_over() {
            return Kind::Over;
        }
        if !stand.is_solved() {
            return Kind::Solve;
        }
        if stand.walk.points == 0 {
            return Kind::Begin;
        }
        Kind::Cross
    }
}

// What a pass of solving counts as zero, and as reached.
pub fn thresholds(plan: Plan) -> Thresholds
    ensures tiny { result.tiny ≡ flat }
    ensures tolerance { result.tolerance ≡ plan.tolerance }
{
    Thresholds {
        tiny: Run::TINY,
        tolerance: plan.tolerance,
    }
}

// The stand after a pass of solving: an update of what such a pass moves, as `walked_stand` is of the path's. They have the place alone in common.
pub fn solved_stand(s: Stand, rs: f64, norms: usize, end: usize) -> Stand
    requires { s.place < 1000000 }
    ensures { result ≡ Memory.solved_stand s rs norms end }
{
    Stand {
        place: s.place + 1,
        rs,
        norms,
        end,
        ..s
    }
}

// The stand after a pass of solving, by its answer.
pub fn turned(plan: Plan, stand: Stand, turn: Pass) -> Stand
    requires { (stand.place < 1000000) × (stand.norms ≤ 100001) }
    ensures { result ≡ turned_stand plan stand turn }
{
    match turn {
        Pass::Halted => solved_stand(stand, stand.rs, stand.norms, Stand::HALTED),
        Pass::Reached(_) => solved_stand(stand, stand.rs, stand.norms + 1, Stand::REACHED),
        Pass::Moved(rs, _) => {
            let end = limit_end(plan.limit, stand.norms);
            solved_stand(stand, rs, stand.norms + 1, end)
        }
    }
}

// What a pass of solving gives, by its answer.
fn given(turn: Pass) -> Gives
    ensures { result ≡ given_by turn }
{
    match turn {
        Pass::Halted => Gives::Nothing,
        Pass::Reached(norm) | Pass::Moved(_, norm) => Gives::Norm(norm),
    }
}

// One pass on the vectors at the front of `behind`, by the matrix that stands before them. Apart from the split of the front, since beside a struct made of a part of it the check does not follow what is left of the front.
fn pass_behind(before: &[f64], behind: &mut [f64], laid: &Laid, rs: f64) -> Pass
    requires { (at_x laid.now.counted.plan.n laid.now.counted.plan.t ≤ length before.now) × (4 * laid.now.counted.plan.n ≤ length behind.old) }
    ensures passed { Passed (take (4 * laid.now.counted.plan.n) behind.old) (take (4 * laid.now.counted.plan.n) behind.new) laid.now.counted.plan.n (row_of laid.now.counted.plan.n)
        (turn_behind laid.now.counted.plan laid.now.words.now before.now (take (4 * laid.now.counted.plan.n) behind.old) rs) result }
    ensures kept { drop (4 * laid.now.counted.plan.n) behind.new ≡ drop (4 * laid.now.counted.plan.n) behind.old }
{
    let n = laid.counted.plan.n;
    let a = laid.matrix(before);
    conjugate::pass_in_row(&a, &mut behind[..4 * n], thresholds(laid.counted.plan), rs)
}

// One pass on the vectors of the front.
fn solve_once(front: &mut [f64], laid: &Laid, stand: Stand) -> Pass
    requires { Steppable laid.now.counted.plan laid.now.words.now front.old stand }
    ensures { Passed front.old front.new laid.now.counted.plan.n (vectors_at laid.now.counted.plan.n laid.now.counted.plan.t) (turn_of laid.now.counted.plan laid.now.words.now front.old stand) result }
{
    let (before, behind) = front.split_at_mut(laid.counted.at_x());
    pass_behind(before, behind, laid, stand.rs)
}

// A pass of solving.
fn solve_step(front: &mut [f64], laid: &Laid, stand: Stand) -> Step
    requires { Steppable laid.now.counted.plan laid.now.words.now front.old stand }
    ensures { Leads (Memory.solve_step laid.now.counted.plan laid.now.words.now front.old stand) result front.new }
{
    let turn = solve_once(front, laid, stand);
    Step {
        stand: turned(laid.counted.plan, stand, turn),
        gives: given(turn),
    }
}

// ---- the start pass

// The gradients on all triangles, in their place.
fn fill_gradients(front: &mut [f64], laid: &Laid)
    requires { Searchable laid.now.counted.plan laid.now.words.now front.old }
    ensures { front.new ≡ gradients_put laid.now.counted.plan laid.now.words.now front.old }
{
    let (before, gradients) = front.split_at_mut(laid.counted.at_gradients());
    let u = laid.counted.at_x();
    let field = laid.field(before, u);
    gradient::compute_gradient_field(&field, Run::TINY, gradients);
}

// A given start lies in the first triangle that accepts it; otherwise a start is picked.
pub fn find_start(field: &Field, given: Option<Point>) -> Option<Entry>
    ensures { result ≡ found_on field.now given }
{
    match given {
        Some(p) => starts::find_triangle_containing(&field.mesh, p),
        None => starts::pick_start(field),
    }
}

// The path's ends where no start is found: the given one lies in no triangle, or none can be picked.
const OUTSIDE: usize = 8;

const UNPICKED: usize = 9;

// The path's end where no start is found.
fn lost_end(given: Option<Point>) -> usize
    ensures { result ≡ lost_by given }
{
    match given {
        Some(_) => OUTSIDE,
        None => UNPICKED,
    }
}

// The stand after the start pass or a crossing.
fn walked_stand(s: Stand, walk: Walk, crossings: usize) -> Stand
    requires { s.place < 1000000 }
    ensures { result ≡ Memory.walked_stand s walk crossings }
{
    Stand {
        place: s.place + 1,
        walk,
        crossings,
        ..s
    }
}

// The first point at the start that is found, or an end where none is; what is left of the front is not told. The walk from an entry is made here and by no `From`: it has a point more, the entry's own, which is put down.
pub fn set_out(stand: Stand, given: Option<Point>, found: Option<Entry>) -> Step
    requires { stand.place < 1000000 }
    ensures { SetsOut (Memory.set_out_step stand [] (lost_by given) found) result }
{
    let Some(entry) = found else {
        return Step {
            stand: walked_stand(stand, place::lost(lost_end(given)), 0),
            gives: Gives::Nothing,
        };
    };
    let walk = Walk {
        position: entry.point,
        triangle: entry.triangle,
        edge: entry.edge,
        points: 1,
        end: 0,
    };
    Step {
        stand: walked_stand(stand, walk, 0),
        gives: Gives::First(entry.point),
    }
}

// The first point from where the field ended, or an end where no start is found.
pub fn start_step(front: &[f64], laid: &Laid, stand: Stand) -> Step
    requires { Searchable laid.now.counted.plan laid.now.words.now front.now × (stand.place < 1000000) }
    ensures { SetsOut (Memory.start_by laid.now.counted.plan laid.now.words.now front.now stand laid.now.counted.plan.start) result }
{
    let u = laid.counted.at_x();
    let field = laid.field(front, u);
    set_out(
        stand,
        laid.counted.plan.start,
        find_start(&field, laid.counted.plan.start),
    )
}

// The pass after solving: the gradients, and the first point or an end.
fn begin_step(front: &mut [f64], laid: &Laid, stand: Stand) -> Step
    requires { Steppable laid.now.counted.plan laid.now.words.now front.old stand }
    ensures { Leads (Memory.begin_step laid.now.counted.plan laid.now.words.now front.old stand) result front.new }
{
    let d = start_step(front, laid, stand);
    fill_gradients(front, laid);
    d
}

// ---- a crossing

// The thresholds of a crossing.
const RULE: Rule = Rule {
    dull: Run::DULL,
    above: Run::ABOVE,
    spacing: Run::SPACING,
};

// What crossing a triangle from an entry comes to, by the triangle's gradient. Of the plan it is handed the step alone: a plan would be copied for each crossing.
pub fn crossing_by(field: &Field, step: f64, g: Point, entry: Entry) -> Crossing
    requires { entry.triangle < triangle_count field.now.mesh.triangles.now }
    ensures { result ≡ crossing_along rule field.now.mesh.vertices.now field.now.mesh.triangles.now field.now.mesh.neighbours.now (triangle_count field.now.mesh.triangles.now) field.now.values.now g step entry.point entry.triangle entry.edge }
{
    pde::cross::crossing(field, RULE, step, g, entry)
}

// What crossing a triangle from an entry comes to, by the gradient that stands in the front: for whoever has no run's stand.
pub fn crossing_of(front: &[f64], laid: &Laid, entry: Entry) -> Crossing
    requires { Searchable laid.now.counted.plan laid.now.words.now front.now × (entry.triangle < laid.now.counted.plan.t) }
    ensures { result ≡ Memory.crossing_from laid.now.counted.plan laid.now.words.now front.now entry.point entry.triangle entry.edge }
{
    let u = laid.counted.at_x();
    let field = laid.field(front, u);
    let at = laid.counted.at_gradients();
    let g = pde::cross::gradient_at(&front[at..], entry.triangle);
    crossing_by(&field, laid.counted.plan.step, g, entry)
}

// Which crossing is the last of all.
fn is_last(made: usize, t: usize) -> bool
    requires { t < 8193 }
    ensures { result ≡ eqb made (factor * t) }
{
    made == Run::FACTOR * t
}

// The stand after a crossing. It asks for T and no `Counted`, since a path can be followed by a field alone (dry).
pub fn crossed(plan: Plan, stand: Stand, c: Crossing) -> Stand
    requires { (plan.t < 8193) × (stand.place < 1000000) × (stand.crossings < factor * plan.t) × (stand.walk.points ≤ plan.room) }
    ensures { result ≡ Memory.crossed_stand plan stand c }
{
    let made = stand.crossings + 1;
    let last = is_last(made, plan.t);
    walked_stand(
        stand,
        tracing::path::after(plan.room, last, stand.walk, c),
        made,
    )
}

// A crossing of the path's triangle, by the triangle's gradient: in a pass alone (`cross_step`), in a row of them (pass), and with nothing written (dry). What it comes to, and the stand after it.
// Built into its callers: a stand that is handed on goes through memory (docs/DECISIONS.md, Speed).
#[inline(always)]
pub fn cross(field: &Field, plan: &Plan, g: Point, stand: Stand) -> (Crossing, Stand)
    requires inside { stand.walk.triangle < triangle_count field.now.mesh.triangles.now }
    requires counts { (plan.now.t < 8193) × (stand.place < 1000000) × (stand.crossings < factor * plan.now.t) × (stand.walk.points ≤ plan.now.room) }
    ensures crossing { result.0 ≡ crossing_along rule field.now.mesh.vertices.now field.now.mesh.triangles.now field.now.mesh.neighbours.now (triangle_count field.now.mesh.triangles.now) field.now.values.now g plan.now.step stand.walk.position stand.walk.triangle stand.walk.edge }
    ensures stand { result.1 ≡ Memory.crossed_stand plan.now stand result.0 }
{
    let c = crossing_by(field, plan.step, g, Entry::from(stand.walk));
    (c, crossed(*plan, stand, c))
}

// A crossing by the front.
fn cross_step(front: &[f64], laid: &Laid, stand: Stand) -> Step
    requires { Crossable laid.now.counted.plan laid.now.words.now front.now stand }
    ensures { Leads (Memory.cross_step laid.now.counted.plan laid.now.words.now front.now stand) result front.now }
{
    let u = laid.counted.at_x();
    let field = laid.field(front, u);
    let at = laid.counted.at_gradients();
    let g = pde::cross::gradient_at(&front[at..], stand.walk.triangle);
    let (c, next) = cross(&field, &laid.counted.plan, g, stand);
    Step {
        stand: next,
        gives: Gives::Crossed(c),
    }
}

// ---- any pass

// The pass that is next, on the front of the floats; what it gives is not written yet. The kinds are no chain of calls: which is next depends on the stand that the last one left.
pub fn step(front: &mut [f64], laid: &Laid, stand: Stand) -> Step
    requires { Steppable laid.now.counted.plan laid.now.words.now front.old stand }
    ensures { Steps laid.now.counted.plan laid.now.words.now front.old stand result front.new }
{
    match Kind::of(stand) {
        Kind::Over => Step {
            stand,
            gives: Gives::Nothing,
        },
        Kind::Solve => solve_step(front, laid, stand),
        Kind::Begin => begin_step(front, laid, stand),
        Kind::Cross => cross_step(front, laid, stand),
    }
}
