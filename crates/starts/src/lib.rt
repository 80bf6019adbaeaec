// Where the path starts. `t < triangle_count` stands in the contracts as in mesh, whose lib.rt says why.
// The three searches of a triangle or an edge stay apart: one function would take a closure for the test and one for the point, and each is one chain or two statements.
#![tactic(auto)]

ghost use Rattle.std.specs.Prelude.{◌≡◌, ◌<◌};
ghost use Rattle.mesh.specs.Mesh.{triangle_count};
ghost use Rattle.pde.specs.Start as Starts;

use mesh::{Edge, Field, Mesh};
use pde::{Entry, NO_EDGE};
use plane::Point;

// ---- a given start

// p lies in triangle t.
fn contains(mesh: &Mesh, p: Point, t: usize) -> bool
    requires { t < triangle_count mesh.now.triangles.now }
    ensures { result ≡ Starts.contains mesh.now.vertices.now mesh.now.triangles.now p t }
{
    let [a, b, c] = mesh.corners(t);
    plane::point_in_triangle(p, a, b, c)
}

// A given start lies in the first triangle that `point_in_triangle` accepts.
pub fn find_triangle_containing(mesh: &Mesh, p: Point) -> Option<Entry>
    ensures { result ≡ Starts.triangle_containing mesh.now.vertices.now mesh.now.triangles.now (triangle_count mesh.now.triangles.now) p }
{
    (0..mesh.triangle_count())
        .find(|t| contains(mesh, p, *t))
        .map(|triangle| Entry {
            point: p,
            triangle,
            edge: NO_EDGE,
        })
}

// ---- no given start: an inner edge

// Edge e of triangle t has no neighbour and both corners inner.
fn is_inner(mesh: &Mesh, t: usize, e: Edge) -> bool
    requires { t < triangle_count mesh.now.triangles.now }
    ensures { result ≡ Starts.is_inner mesh.now.triangles.now mesh.now.neighbours.now mesh.now.tags.now t e.number }
{
    mesh.neighbour(t, e).is_none()
        && mesh.tag(mesh.corner(t, e)) == mesh::INNER
        && mesh.tag(mesh.corner(t, e.onward())) == mesh::INNER
}

// The middle of edge e of triangle t.
fn middle(mesh: &Mesh, t: usize, e: Edge) -> Point
    requires { t < triangle_count mesh.now.triangles.now }
    ensures { result ≡ Starts.middle mesh.now.vertices.now mesh.now.triangles.now t e.number }
{
    let a = mesh.corner_point(t, e);
    let b = mesh.corner_point(t, e.onward());
    Point {
        x: (a.x + b.x) * 0.5,
        y: (a.y + b.y) * 0.5,
    }
}

// The first inner edge of triangle t.
fn inner_edge_of(mesh: &Mesh, t: usize) -> Option<Entry>
    requires { t < triangle_count mesh.now.triangles.now }
    ensures { result ≡ Starts.inner_edge_of mesh.now.vertices.now mesh.now.triangles.now mesh.now.neighbours.now mesh.now.tags.now t }
{
    let edge = (0..3).find(|e| is_inner(mesh, t, Edge::of(*e)))?;
    Some(Entry {
        point: middle(mesh, t, Edge::of(edge)),
        triangle: t,
        edge,
    })
}

// The first inner edge of all.
fn first_inner_edge(mesh: &Mesh) -> Option<Entry>
    ensures { result ≡ Starts.first_inner mesh.now.vertices.now mesh.now.triangles.now mesh.now.neighbours.now mesh.now.tags.now (triangle_count mesh.now.triangles.now) }
{
    (0..mesh.triangle_count()).find_map(|t| inner_edge_of(mesh, t))
}

// ---- no inner edge: the first triangle that has the least vertex

// The first least by `<` from +infinity, 0 if none is less.
fn least_vertex(values: &[f64]) -> usize
    ensures { result ≡ Starts.least_vertex values.now }
{
    let mut best = 0;
    let mut least = f64::INFINITY;
    // `min_by` asks for an order, and a NaN has none.
    for (i, x) in values.iter().enumerate() {
        if *x < least {
            best = i;
            least = *x;
        }
    }
    best
}

fn has_vertex(mesh: &Mesh, v: usize, t: usize) -> bool
    requires { t < triangle_count mesh.now.triangles.now }
    ensures { result ≡ Starts.has mesh.now.triangles.now v t }
{
    mesh.triangle(t).contains(&v)
}

fn centroid(mesh: &Mesh, t: usize) -> Point
    requires { t < triangle_count mesh.now.triangles.now }
    ensures { result ≡ Starts.centroid mesh.now.vertices.now mesh.now.triangles.now t }
{
    let [a, b, c] = mesh.corners(t);
    Point {
        x: (a.x + b.x + c.x) / 3.0,
        y: (a.y + b.y + c.y) / 3.0,
    }
}

// The centroid of the first triangle that has vertex v.
fn first_with(mesh: &Mesh, v: usize) -> Option<Entry>
    ensures { result ≡ Starts.first_with mesh.now.vertices.now mesh.now.triangles.now (triangle_count mesh.now.triangles.now) v }
{
    let triangle = (0..mesh.triangle_count()).find(|t| has_vertex(mesh, v, *t))?;
    Some(Entry {
        point: centroid(mesh, triangle),
        triangle,
        edge: NO_EDGE,
    })
}

// The middle of the first inner edge, else the centroid of the first triangle that has the least vertex.
pub fn pick_start(field: &Field) -> Option<Entry>
    ensures { result ≡ Starts.pick_start field.now.mesh.vertices.now field.now.mesh.triangles.now field.now.mesh.neighbours.now field.now.mesh.tags.now (triangle_count field.now.mesh.triangles.now) field.now.values.now }
{
    if let Some(entry) = first_inner_edge(&field.mesh) {
        return Some(entry);
    }
    first_with(&field.mesh, least_vertex(field.values))
}
