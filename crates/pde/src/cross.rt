// One crossing of a triangle: along the level line turned outward by the step. Of `t < triangle_count` see edges.rt.
ghost use Rattle.std.specs.Prelude.{◌≡◌, ◌+◌, ◌*◌, ◌<◌, length, ok_or};
ghost use Rattle.mesh.specs.Mesh.{triangle_count, neighbour};
ghost use Rattle.pde.specs.Bounds.{BeyondIn};
ghost use Rattle.pde.specs.Crossing as Crossings;

use super::{Barrier, Beyond, Crossing, Entry, Exit, Halt, Leaving, Rule, edges};
use mesh::{Edge, Field, Mesh};
use plane::Point;
use std::f64::consts::PI;

// The gradient of triangle t, of those of all triangles: a list with a definition of its own, as the vertices have theirs (`mesh::vertex`); both are read by one function.
#[tactic(auto, unfolding(crate::specs::Crossing::gradient_at))]
pub fn gradient_at(gradients: &[f64], t: usize) -> Point
    requires { 2 * t + 1 < length gradients.now }
    ensures { result ≡ Crossings.gradient_at gradients.now t }
{
    mesh::point_in(gradients, t)
}

#[tactic(auto, unfolding(crate::specs::Crossing::magnitude, plane::specs::Plane::dot_of, plane::specs::Plane::length_squared))]
fn magnitude(g: Point) -> f64
    ensures { result ≡ Crossings.magnitude g }
{
    root::sqrt(g.length_squared())
}

// The unit gradient turned a quarter, plus step · mag / 2π of the unit gradient.
#[tactic(auto, unfolding(crate::specs::Crossing::direction))]
fn direction(step: f64, g: Point, mag: f64) -> Point
    ensures { result ≡ Crossings.direction step g mag }
{
    let nx = g.x / mag;
    let ny = g.y / mag;
    let alpha = step * mag / (2.0 * PI);
    Point {
        x: -ny + alpha * nx,
        y: nx + alpha * ny,
    }
}

// The edge that is entered beyond edge e of triangle t: over a cut edge, or the neighbour's that names us back; or the border, or a neighbour that does not name us back.
fn entered(mesh: &Mesh, t: usize, e: Edge) -> Beyond
    requires { t < triangle_count mesh.now.triangles.now }
    ensures is { result ≡ ok_or (Crossings.entered mesh.now.triangles.now mesh.now.neighbours.now (triangle_count mesh.now.triangles.now) t e.number) (Crossings.unentered (neighbour mesh.now.neighbours.now t e.number)) }
    ensures inside { BeyondIn (triangle_count mesh.now.triangles.now) result }
{
    match mesh.neighbour(t, e) {
        None => edges::find_cut_edge_match(mesh.triangles, mesh.neighbours, t, e).ok_or(
            Barrier::Border,
        ),
        Some(next) => edges::entry_edge_of(mesh.neighbours, next, t).ok_or(Barrier::Unnamed),
    }
}

// The field at p, interpolated in triangle t.
#[tactic(auto, unfolding(crate::specs::Crossing::value_in))]
fn value_in(field: &Field, t: usize, p: Point) -> f64
    requires { t < triangle_count field.now.mesh.triangles.now }
    ensures { result ≡ Crossings.value_in field.now.mesh.vertices.now field.now.mesh.triangles.now field.now.values.now t p }
{
    let ([va, vb, vc], [ua, ub, uc]) = field.on(t);
    plane::barycentric_interpolate(p, va, vb, vc, ua, ub, uc)
}

// Beyond an edge of triangle t, left at an exit.
#[tactic(auto, unfolding(crate::specs::Crossing::beyond, crate::specs::Crossing::entering))]
fn beyond(field: &Field, above: f64, t: usize, exit: Exit) -> Beyond
    requires { (t < triangle_count field.now.mesh.triangles.now) × (exit.edge < 3) }
    ensures { result ≡ Crossings.beyond above field.now.mesh.vertices.now field.now.mesh.triangles.now field.now.mesh.neighbours.now (triangle_count field.now.mesh.triangles.now) field.now.values.now t exit.edge exit.point }
{
    let side = entered(&field.mesh, t, Edge::of(exit.edge))?;
    if value_in(field, side.triangle, exit.point) > above {
        return Err(Barrier::Above);
    }
    Ok(side)
}

// What crossing a triangle, whose gradient is g, from an entry comes to.
pub fn crossing(field: &Field, rule: Rule, step: f64, g: Point, entry: Entry) -> Crossing
    requires { entry.triangle < triangle_count field.now.mesh.triangles.now }
    ensures { result ≡ Crossings.crossing_along rule field.now.mesh.vertices.now field.now.mesh.triangles.now field.now.mesh.neighbours.now (triangle_count field.now.mesh.triangles.now) field.now.values.now g step entry.point entry.triangle entry.edge }
{
    let mag = magnitude(g);
    if mag < rule.dull {
        return Err(Halt::Dull);
    }
    let dir = direction(step, g, mag);
    let best = edges::find_exit_edge(&field.mesh, entry, dir, rule.dull);
    let exit = best.exit.ok_or(Halt::Stuck)?;
    let pieces = distance::pieces(best.square, rule.spacing);
    Ok(Leaving {
        point: exit.point,
        pieces,
        beyond: beyond(field, rule.above, entry.triangle, exit),
    })
}
