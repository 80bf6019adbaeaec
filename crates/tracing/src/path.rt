// The points of a crossing, the room rule and the ends of the path; a path's length.
// Path, room and walk stay parameters of their own: the path alone is lent to be written, and where the path then stands is decided by the room alone.
ghost use Rattle.std.specs.Prelude.{◌≡◌, ◌+◌, ◌-◌, ◌*◌, ◌^◌, ◌<◌, ◌≤◌, Ok, Some, None, ltb};
ghost use Rattle.std.proofs.Math.ListN as Lists;
ghost use Rattle.binary64.specs.Number.{pick};
ghost use Rattle.stretch.specs.Stretch.{splice};
ghost use Rattle.pde.specs.Path as Paths;
ghost use Rattle.pde.specs.Work.{Roomy};

use pde::{Barrier, Beyond, Crossing, Leaving, Walk, edges};
use plane::Point;

// ---- the points of a crossing, written into the lent path, which is handed on whole with a place in it

// The first k points between p and q, of n parts, written from `at` on.
pub fn put_points(path: &mut [f64], at: usize, p: Point, q: Point, n: usize, k: usize)
    requires { at + Paths.point_floats * k ≤ Lists.length path.old }
    ensures { path.new ≡ splice path.old at (Paths.coordinates_of (Paths.between p q n k)) }
{
    let dx = q.x - p.x;
    let dy = q.y - p.y;
    let parts = std::num::nearest_usize_to_f64(n);
    // By number: of a slice that is written through its chunks the check knows only the length.
    for i in 0..k {
        let next = i + 1;
        let t = std::num::nearest_usize_to_f64(next) / parts;
        let j = at + 2 * i;
        let l = j + 1;
        path[j] = p.x + t * dx;
        path[l] = p.y + t * dy;
    }
}

// How many points the way beyond an exit puts down: the exit is put down by end 5 alone.
fn closes(b: Beyond) -> usize
    ensures { result ≡ Paths.closes b }
{
    match b {
        Err(Barrier::Above) => 1,
        Ok(_) | Err(Barrier::Border | Barrier::Unnamed) => 0,
    }
}

// How many points a way of so many pieces puts down. Of the two parts of `Leaving`, since of a number in a struct the check does not know that it fits its type.
fn adds(pieces: usize, b: Beyond) -> usize
    ensures { result ≡ pieces - 1 + Paths.closes b }
{
    pieces.saturating_sub(1) + closes(b)
}

// How many points a crossing puts down, where the room holds them.
fn held(room: usize, w: Walk, left: Leaving) -> Option<usize>
    requires { w.points ≤ room }
    ensures { result ≡ pick (ltb room (w.points + Paths.adds (Ok left))) None (Some (Paths.adds (Ok left))) }
{
    let k = adds(left.pieces, left.beyond);
    if room - w.points < k { None } else { Some(k) }
}

// The exit, where it is put down.
#[tactic(auto, using(crate::proofs::PointLaws::closing_none, crate::proofs::PointLaws::closing_put), unfolding(pde::specs::Path::closing))]
fn put_closing(path: &mut [f64], at: usize, left: Leaving)
    requires { at + Paths.point_floats * Paths.closes left.beyond ≤ Lists.length path.old }
    ensures { path.new ≡ splice path.old at (Paths.coordinates_of (Paths.closing left.point left.beyond)) }
{
    if let Err(Barrier::Above) = left.beyond {
        let l = at + 1;
        path[at] = left.point.x;
        path[l] = left.point.y;
    }
}

// ---- the path after a crossing. Its end is a number, and triangle and edge are apart, as in `Walk`; `last` is a fact that the end `LAST` tells, and calls nothing else

// The path's ends where the last crossing is made, and where the room does not hold the points.
const LAST: usize = 6;

const FULL: usize = 7;

// The end of a barrier; or on into the next triangle, with an end where this was the last crossing.
fn gone(last: bool, w: Walk, left: Leaving, k: usize) -> Walk
    requires { w.points + k < 2 ^ 64 }
    ensures { result ≡ Paths.gone last w left.point left.beyond k }
{
    let points = w.points + k;
    match left.beyond {
        Err(barrier) => Walk {
            points,
            end: barrier.number(),
            ..w
        },
        Ok(side) => Walk {
            position: left.point,
            triangle: side.triangle,
            edge: side.edge,
            points,
            end: if last { LAST } else { 0 },
        },
    }
}

// Where the path stands behind an exit: the room decides.
fn left_at(room: usize, last: bool, w: Walk, left: Leaving) -> Walk
    requires { w.points ≤ room }
    ensures { result ≡ Paths.walked room last w (Ok left) }
{
    match held(room, w, left) {
        None => Walk { end: FULL, ..w },
        Some(k) => gone(last, w, left, k),
    }
}

// Where the path stands after a crossing: ends 1 and 2, or out of the triangle.
pub fn after(room: usize, last: bool, w: Walk, c: Crossing) -> Walk
    requires { w.points ≤ room }
    ensures { result ≡ Paths.walked room last w c }
{
    match c {
        Err(halt) => Walk {
            end: halt.number(),
            ..w
        },
        Ok(left) => left_at(room, last, w, left),
    }
}

// The points up to an exit, where the room holds them.
fn put_leaving(path: &mut [f64], room: usize, w: Walk, left: Leaving)
    requires { Roomy path.old room w }
    ensures { path.new ≡ splice path.old (Paths.point_floats * w.points) (Paths.coordinates_of (Paths.added room w (Ok left))) }
{
    let Some(_) = held(room, w, left) else {
        return;
    };
    let between = left.pieces.saturating_sub(1);
    put_points(
        path,
        2 * w.points,
        w.position,
        left.point,
        left.pieces,
        between,
    );
    put_closing(path, 2 * (w.points + between), left);
}

// The points of a crossing, behind those of the path.
pub fn put_added(path: &mut [f64], room: usize, w: Walk, c: Crossing)
    requires { Roomy path.old room w }
    ensures { path.new ≡ splice path.old (Paths.point_floats * w.points) (Paths.coordinates_of (Paths.added room w c)) }
{
    if let Ok(left) = c {
        put_leaving(path, room, w, left);
    }
}

// ---- length

// The distances of successive points, summed from the left from +0; a number without its pair is not a point.
pub fn length(path: &[f64]) -> f64
    ensures { result ≡ Paths.length_of path.now }
{
    // By `chunks_exact`, whose contract says what is left of the path, as the sum's definition does; that of `as_chunks` speaks of all pairs of the list at once.
    let mut points = path.chunks_exact(2);
    let Some(first) = points.next() else {
        return 0.0;
    };
    let mut p = Point {
        x: first[0],
        y: first[1],
    };
    let mut sum = 0.0;
    for pair in points {
        let q = Point {
            x: pair[0],
            y: pair[1],
        };
        sum += edges::distance(p, q);
        p = q;
    }
    sum
}
